ghost use Rattle.std.specs.Prelude.{◌≡◌, ◌+◌, ◌<◌, ◌≤◌, ◌↔◌, ◌⊎◌, ◌∷◌, ◌++◌, ℕ, [], length, OnOk, IsTrue};
ghost use Rattle.lexicon_definitions.specs.Lexicons.{RuleSet as RuleSetValue, rule_of};
ghost use Rattle.summary_chart.specs.Summaries.{IsCollected, made_of};

use super::same_u::rules_with_same_u;
use derivation::Item;
use phoneme::Memory;
use sandhi_rules::RuleSet;
use std::alloc::Global;

/// How many rules are looked at after a front without being told by their `u`.
const FEW_RULES: usize = 16;

/// The items that were made so far, in any order. From the first front on after which many rules are looked at, there stands for each rule
/// one with the same `u`, and for each of these it is kept how many items there were when the last one was made of a rule for which it
/// stands. So an item is made once after a front for all rules with the same `u`. Until then there are no such lists, and they take no
/// memory.
#[derive(Drop)]
pub(crate) struct Collected {
    pub items: Vec<Item>,
    pub same_u: Vec<u32>,
    pub made: Vec<usize>,
    pub alloc: Global,
}

impl Collected {
    /// No items yet. Takes no memory.
    pub fn new(alloc: Global) -> Collected
        ensures collected { (rules : RuleSetValue) → IsCollected rules result }
        ensures none { result.items.items ≡ [] }
    {
        Collected {
            items: Vec::new(alloc),
            same_u: Vec::new(alloc),
            made: Vec::new(alloc),
            alloc,
        }
    }

    /// Tells rules by their `u` from now on, where so many are to be looked at after a front that it is worth its time. Refused only for
    /// want of memory.
    pub fn expect(&mut self, rules: &RuleSet, count: usize) -> Result<(), Memory>
        requires collected { IsCollected rules.now self.old }
        ensures collected { OnOk result (IsCollected rules.now self.new) }
        ensures items { OnOk result (self.new.items.items ≡ self.old.items.items) }
    {
        if count > FEW_RULES && self.same_u.is_empty() {
            let same_u = rules_with_same_u(self.alloc, rules)?;
            let mut made = Vec::new(self.alloc);
            made.resize(same_u.len(), 0)?;
            self.same_u = same_u;
            self.made = made;
        }
        Ok(())
    }

    /// Whether an item of a rule for which the same one stands was put in since there were so many items, as far as that is kept: never where
    /// rules are not told by their `u`.
    pub fn has(&self, rules: &RuleSet, rule: u32, since: usize) -> bool
        requires collected { IsCollected rules.now self.now }
        requires rule { rule ≤ length rules.now.rules }
        ensures { IsTrue result ↔ (since < made_of self.now rule) }
    {
        !self.same_u.is_empty() && self.made[self.same_u[rule as usize] as usize] > since
    }

    /// Puts in the item of the rule. Refused only for want of memory.
    pub fn put(&mut self, rules: &RuleSet, rule: u32, item: Item) -> Result<(), Memory>
        requires collected { IsCollected rules.now self.old }
        requires rule { rule ≤ length rules.now.rules }
        ensures collected { OnOk result (IsCollected rules.now self.new) }
        ensures items { OnOk result (self.new.items.items ≡ self.old.items.items ++ item ∷ []) }
        ensures made { OnOk result ((other : ℕ) → other ≤ length rules.now.rules
            → (made_of self.new other ≡ made_of self.old other) ⊎ ((rule_of rules.now other).u ≡ (rule_of rules.now rule).u)) }
    {
        self.items.push(item)?;
        if !self.same_u.is_empty() {
            self.made[self.same_u[rule as usize] as usize] = self.items.len();
        }
        Ok(())
    }
}
