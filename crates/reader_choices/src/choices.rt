ghost use Rattle.std.specs.Prelude.{◌≡◌, ◌↔◌, ◌+◌, ◌<◌, [], ◌∷◌, ◌++◌, ◌≤◌, All, Bool, true, false, length, IsTrue, IsNone, IfSome, IfNone, OnOk, OnErr, Err};
ghost use Rattle.segmentation_definitions.specs.Items.{Choice as ChoiceValue};
ghost use Rattle.segmentation_definitions.specs.LocalTests.{Allows};
ghost use Rattle.derivation.specs.Steps.{StandIn, placed_with};
ghost use Rattle.reader_choices.specs.Allowing.{AllowsStep, lead_after, is_first_after};
ghost use Rattle.reader_choices.specs.Freedom.{LeaveFree};

use super::allowing::allows_each;
use super::freedom::leave_free;
use super::{Choice, ChoiceError};
use derivation::{Item, Step};
use phoneme::{Letter, Line};
use sandhi_rules::RuleSet;
use segmentation_definitions::MOST_CHOICES;
use std::alloc::Global;
use std::marker::Model;

/// The choices of a reader, oldest first: items that are kept and items that are rejected (Goyal and Huet 2016), at most
/// `MOST_CHOICES`. An item may be both; then there is no answer.
#[derive(Drop)]
pub struct Choices {
    list: Vec<Choice>,
}

impl Model for Choices {
    ghost use Rattle.std.specs.Prelude.{List, ◌≤◌, length};
    ghost use Rattle.segmentation_definitions.specs.Items.{Choice as ChoiceValue};
    ghost use Rattle.segmentation_definitions.specs.declared.limits.TheConstants.{MOST_CHOICES};

    ghost Value = { List ChoiceValue };

    ghost view = { λ c. c.list.items };

    ghost invariant = { λ c. length c.list.items ≤ MOST_CHOICES };
}

impl Choices {
    /// No choice. Takes no memory.
    pub fn new(alloc: Global) -> Choices
        ensures { result ≡ [] }
    {
        Choices {
            list: Vec::new(alloc),
        }
    }

    /// Adds the choice that the item is kept. Refused where there are `MOST_CHOICES` choices, and then they are as they were.
    pub fn keep(&mut self, item: Item) -> Result<(), ChoiceError>
        ensures ok { OnOk result (self.new ≡ self.old ++ record { kept = true; item = item } ∷ []) }
        ensures full { (result ≡ Err ChoiceError.Full) ↔ (length self.old ≡ MOST_CHOICES) }
        ensures unchanged { OnErr result (self.new ≡ self.old) }
    {
        self.add(Choice { kept: true, item })
    }

    /// Adds the choice that the item is rejected. Refused as `keep` is.
    pub fn reject(&mut self, item: Item) -> Result<(), ChoiceError>
        ensures ok { OnOk result (self.new ≡ self.old ++ record { kept = false; item = item } ∷ []) }
        ensures full { (result ≡ Err ChoiceError.Full) ↔ (length self.old ≡ MOST_CHOICES) }
        ensures unchanged { OnErr result (self.new ≡ self.old) }
    {
        self.add(Choice { kept: false, item })
    }

    fn add(&mut self, choice: Choice) -> Result<(), ChoiceError>
        ensures ok { OnOk result (self.new ≡ self.old ++ choice ∷ []) }
        ensures full { (result ≡ Err ChoiceError.Full) ↔ (length self.old ≡ MOST_CHOICES) }
        ensures unchanged { OnErr result (self.new ≡ self.old) }
    {
        if self.list.len() >= MOST_CHOICES {
            return Err(ChoiceError::Full);
        }
        self.list.push(choice)?;
        Ok(())
    }

    /// Takes the newest choice off and answers its item; `None` exactly where there is no choice.
    pub fn undo(&mut self) -> Option<Item>
        ensures some { IfSome result (λ item. (kept : Bool) × (self.old ≡ self.new ++ record { kept = kept; item = item } ∷ [])) }
        ensures none { IsNone result ↔ (self.old ≡ []) }
        ensures unchanged { IfNone result (self.new ≡ self.old) }
    {
        let Choice { kept: _, item } = self.list.pop()?;
        Some(item)
    }

    /// The choices, oldest first.
    pub fn list(&self) -> &[Choice]
        ensures { result.now ≡ self.now }
    {
        self.list.as_slice()
    }

    /// Whether the step, after those before it, passes the local test of each choice (own): a kept item at the step's rank
    /// is the step's item; between the step and whatever follows it, after a last step and before a first one there is no
    /// kept item; and no rejected item is the step's.
    pub fn allows(&self, rules: &RuleSet, line: &Line, before: &[Step], step: &Step) -> bool
        requires { StandIn rules.now line.now.letters (before.now ++ step.now ∷ []) }
        ensures { IsTrue result ↔ AllowsStep rules.now line.now.letters self.now before.now step.now }
    {
        let lead = lead_after(rules, before);
        self.allows_entered(rules, line, lead, before.is_empty(), step)
    }

    /// Whether the step, entered with these letters and the first of all or not, passes the local test of each choice. It
    /// asks for no step before it.
    pub fn allows_entered(
        &self,
        rules: &RuleSet,
        line: &Line,
        lead: &[Letter],
        is_first: bool,
        step: &Step,
    ) -> bool
        requires rule { step.now.rule ≤ length rules.now.rules }
        requires within { step.now.at + step.now.taken ≤ length line.now.letters }
        ensures exact { IsTrue result ↔ Allows rules.now (length line.now.letters) self.now is_first (placed_with rules.now line.now.letters lead.now step.now) }
    {
        allows_each(rules, line, lead, is_first, step, self.list.as_slice())
    }

    /// Whether a step may be last, where the choices leave every step free that stands after so many letters of the line, is
    /// entered with a lead of so many and takes so many, whichever its rule: just these steps are allowed, the last ones if
    /// they may be last. `None` where that can't be told without the rule: an item stands at the rank of such steps, or a kept
    /// one stands before the first step, or no further after them than the `w` of a rule may reach.
    pub fn leave_free(&self, at: u32, lead: u32, is_first: bool, taken: u32) -> Option<bool>
        ensures { IfSome result (LeaveFree at lead is_first taken self.now) }
    {
        leave_free(at, lead, is_first, taken, self.list.as_slice())
    }
}

/// Whether whatever follows these steps is the first of all.
fn is_first_after(before: &[Step]) -> bool
    ensures { result ≡ is_first_after true before.now }
{
    match before {
        [] => true,
        [_, ..] => false,
    }
}

/// The letters that the rule of the last of these steps supplies; no letters where there is no such rule.
fn lead_after<'a>(rules: &'a RuleSet, before: &[Step]) -> &'a [Letter]
    requires { All (λ step. step.rule ≤ length rules.now.rules) before.now }
    ensures { result.now ≡ lead_after rules.now before.now }
{
    let Some(last) = before.last() else {
        return &[];
    };
    match rules.rule(last.rule) {
        Some(rule) => rule.v.as_slice(),
        None => &[],
    }
}
