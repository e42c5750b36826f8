ghost use Rattle.std.specs.Prelude.{◌≡◌, ◌<◌, IfSome, OnOk};
ghost use Rattle.std.specs.Bool.{OnTrue};
ghost use Rattle.summary_chart.specs.declared.memo.TheConstants.{MOST_DONE};
ghost use Rattle.summary_chart.specs.declared.memo.Done.{Done as DoneValue};
ghost use Rattle.lexicon_definitions.specs.Lexicons.{RuleSet as RuleSetValue};
ghost use Rattle.summary_chart.specs.Effects.{AreEffects};
ghost use Rattle.summary_chart.specs.Memos.{HasWorks, IsKnown, IsSameWork, IsWork, KeepsKnown, rules_at};

use super::same_effect::Effects;
use super::state_set::StateSet;
use annotated_trie::Annotated;
use phoneme::Memory;
use shared_trie::Node;
use std::alloc::Global;

/// The rules after a front are looked at one by one where they are no more, and else part by part.
pub(crate) const FEW_RULES: usize = 32;

/// So much is kept at most.
const MOST_DONE: usize = 65_536;

/// What rules do after a form: the node to which the letters before its `u` lead, after how many letters of the line these end, whether the
/// line may end after it, and its phase, counted from 0, or another that no rule tells from it. It is the same wherever the form begins.
/// The rules are those of a part of the node's choices, by its number, or all of them.
#[derive(Clone, Copy)]
pub(crate) struct Work {
    pub node: Node,
    pub part: Option<u32>,
    pub end: u32,
    pub may_end: bool,
    pub phase: u32,
}

/// Work that was done, and the states that it gave.
#[derive(Clone, Copy)]
pub(crate) struct Done {
    pub work: Work,
    pub states: StateSet,
}

/// Work that was done, so that it is not done once more (own). It may forget: each work has one place, where what was done last is kept.
/// It takes no memory before something is kept. And besides, which rules do the same, so that of these one is looked at in a work.
#[derive(Drop)]
pub(crate) struct Memo {
    places: Vec<Option<Done>>,
    pub effects: Effects,
}

/// The place of the work, below `MOST_DONE`. Works with the same rules have the same place, and what they do after one letter more has mostly the
/// next one, since it is mostly asked for next.
fn place_of(tries: &Annotated, work: &Work) -> usize
    requires { IsWork tries.now work.now }
    ensures { result < MOST_DONE }
{
    let rules = match work.part {
        None => u64::from(tries.list_number(work.node)),
        Some(part) => !u64::from(part),
    };
    let mixed = rules
        .wrapping_mul(0x9E37_79B9_7F4A_7C15)
        .wrapping_add(u64::from(work.phase).wrapping_mul(0x1656_67B1_9E37_79F9));
    ((mixed >> 48) as usize + work.end as usize) % MOST_DONE
}

impl Memo {
    /// A memo that keeps nothing yet.
    pub fn new(alloc: Global) -> Memo
        ensures none { (done : DoneValue) → IsKnown result done → ⊥ }
        ensures effects { (rules : RuleSetValue) → AreEffects rules result.effects }
    {
        Memo {
            places: Vec::new(alloc),
            effects: Effects::new(alloc),
        }
    }

    /// The states that the work gave, if this is kept: it was done with these rules, at this node or at another one.
    pub fn get(&self, tries: &Annotated, work: &Work) -> Option<StateSet>
        requires work { IsWork tries.now work.now }
        requires works { HasWorks tries.now self.now }
        ensures { IfSome result (λ states. (done : DoneValue) × IsKnown self.now done × IsSameWork tries.now done.work work.now × (done.states ≡ states)) }
    {
        let Some(Some(done)) = self.places.get(place_of(tries, work)) else {
            return None;
        };
        if is_same_work(tries, &done.work, work) {
            Some(done.states)
        } else {
            None
        }
    }

    /// Makes the places, where there are none yet. Refused only for want of memory.
    fn make_places(&mut self) -> Result<(), Memory>
        ensures keeps { OnOk result ((done : DoneValue) → IsKnown self.new done → IsKnown self.old done) }
        ensures effects { OnOk result (self.new.effects ≡ self.old.effects) }
    {
        if self.places.is_empty() {
            self.places.resize(MOST_DONE, None)?;
        }
        Ok(())
    }

    /// Keeps that the work gave these states, in place of what is kept at its place. Refused only for want of memory.
    pub fn keep(&mut self, tries: &Annotated, work: &Work, states: StateSet) -> Result<(), Memory>
        requires { IsWork tries.now work.now }
        ensures keeps { OnOk result (KeepsKnown work.now states self.old self.new) }
        ensures effects { OnOk result (self.new.effects ≡ self.old.effects) }
    {
        self.make_places()?;
        if let Some(place) = self.places.get_mut(place_of(tries, work)) {
            *place = Some(Done {
                work: *work,
                states,
            });
        }
        Ok(())
    }

    /// Forgets all work, and keeps its memory.
    pub fn clear(&mut self)
        ensures none { (done : DoneValue) → IsKnown self.new done → ⊥ }
        ensures effects { self.new.effects ≡ self.old.effects }
    {
        self.places.clear();
    }
}

/// Whether works give the same: their nodes have the same choices, and all else is the same.
fn is_same_work(tries: &Annotated, one: &Work, other: &Work) -> bool
    requires one { IsWork tries.now one.now }
    requires other { IsWork tries.now other.now }
    ensures { OnTrue result (IsSameWork tries.now one.now other.now) }
{
    one.end == other.end
        && one.may_end == other.may_end
        && one.phase == other.phase
        && have_same_rules(tries, one, other)
}

/// Whether works are known to have the same rules: the same part, or nodes that share one list of choices.
fn have_same_rules(tries: &Annotated, one: &Work, other: &Work) -> bool
    requires one { IsWork tries.now one.now }
    requires other { IsWork tries.now other.now }
    ensures { OnTrue result (rules_at tries.now one.now ≡ rules_at tries.now other.now) }
{
    match (one.part, other.part) {
        (None, None) => tries.have_same_choices(one.node, other.node),
        (Some(part), Some(other_part)) => part == other_part,
        _ => false,
    }
}
