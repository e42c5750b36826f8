ghost use Rattle.std.specs.Prelude.{◌≡◌, ◌+◌, ◌++◌, ◌∷◌, [], ◌≤◌, ℕ, List, length, take, Contains, IfOk, IfSome, OnOk};
ghost use Rattle.std.specs.Bool.{OnTrue};
ghost use Rattle.lexicon_definitions.specs.Lexicons.{RuleSet as RuleSetValue, rule_of};
ghost use Rattle.summary_chart.specs.Effects.{AreEffects, DoSame, HaveSameEffect, HaveLooked};

use super::same_u::rule_numbers;
use phoneme::{Letter, Memory, compare_letters};
use sandhi_rules::{Rule, RuleSet};
use std::alloc::Global;
use std::cmp::Ordering;

/// Rules are put in order by what they do once so many times as many were looked at as there are: that takes about as long.
const TIMES_LOOKED_AT: usize = 8;

/// Which rules do the same after a form, whatever else their `u` has than its first letter: for each rule, by its number, one that does the
/// same stands for it. And of which rules one was looked at in this round: those for which the same one stands. At first there is none that
/// stands for any.
#[derive(Drop)]
pub(crate) struct Effects {
    same: Vec<u32>,
    seen: Vec<u32>,
    round: u32,
    looked_at: usize,
}

/// The first letter, if there is one.
fn beginning(letters: &[Letter]) -> &[Letter]
    ensures { result.now ≡ take 1 letters.now }
{
    match letters {
        [] => &[],
        [_, ..] => &letters[..1],
    }
}

/// The rule with this number, counted from 1; none for 0, which stands for no change, and for a number past the last rule.
fn rule_numbered(rules: &RuleSet, number: u32) -> Option<&Rule>
    ensures { IfSome result (λ rule. rule.now ≡ rule_of rules.now number) }
{
    if number == 0 {
        return None;
    }
    rules.rules().get(number as usize - 1)
}

/// The order of rules by what they do, which is that of their numbers for no change and for numbers past the last rule.
fn compare_effects(rules: &RuleSet, left: u32, right: u32) -> Ordering {
    match (rule_numbered(rules, left), rule_numbered(rules, right)) {
        (Some(one), Some(other)) => compare_letters(one.w.as_slice(), other.w.as_slice())
            .then_with(|| compare_letters(one.v.as_slice(), other.v.as_slice()))
            .then_with(|| compare_letters(
                beginning(one.u.as_slice()),
                beginning(other.u.as_slice()),
            ))
            .then(one.before.cmp(&other.before))
            .then(one.after.cmp(&other.after)),
        _ => left.cmp(&right),
    }
}

/// Whether these are the same letters.
fn are_same(left: &[Letter], right: &[Letter]) -> bool
    ensures { OnTrue result (left.now ≡ right.now) }
{
    compare_letters(left, right).is_eq()
}

/// Whether the rules with these numbers do the same after a form, so that their `u` begin with the same letter too, or are both empty. Neither
/// is no change.
fn do_same(rules: &RuleSet, one: u32, other: u32) -> bool
    ensures { OnTrue result (DoSame rules.now one other) }
{
    let (Some(one), Some(other)) = (rule_numbered(rules, one), rule_numbered(rules, other)) else {
        return false;
    };
    one.before == other.before
        && one.after == other.after
        && are_same(one.w.as_slice(), other.w.as_slice())
        && are_same(one.v.as_slice(), other.v.as_slice())
        && are_same(beginning(one.u.as_slice()), beginning(other.u.as_slice()))
}

/// For each rule, by its number, the number of a rule that does the same after a form: for all that do one thing this is the same. No
/// change counts as a rule with the number 0. Refused only for want of memory.
fn rules_with_same_effect(alloc: Global, rules: &RuleSet) -> Result<Vec<u32>, Memory>
    ensures { IfOk result (λ same. HaveSameEffect rules.now same.items) }
{
    let mut numbers = rule_numbers(alloc, rules)?;
    let mut same = Vec::from_slice(alloc, numbers.as_slice())?;
    numbers.sort_unstable_by(|left, right| compare_effects(rules, *left, *right));
    let mut last = 0;
    for number in numbers.as_slice() {
        if do_same(rules, last, *number) {
            same[*number as usize] = last;
        } else {
            last = *number;
        }
    }
    Ok(same)
}

impl Effects {
    /// No rule stands for any yet.
    pub fn new(alloc: Global) -> Effects
        ensures { (rules : RuleSetValue) → AreEffects rules result }
    {
        Effects {
            same: Vec::new(alloc),
            seen: Vec::new(alloc),
            round: 0,
            looked_at: 0,
        }
    }

    /// Makes for each rule one that stands for it, where there are none yet and so many rules were looked at that it is worth its time,
    /// with those that are looked at next. Refused only for want of memory.
    fn expect(&mut self, rules: &RuleSet, count: usize) -> Result<(), Memory>
        requires { AreEffects rules.now self.old }
        ensures { OnOk result (AreEffects rules.now self.new) }
    {
        self.looked_at = self.looked_at.saturating_add(count);
        if self.looked_at / TIMES_LOOKED_AT < rules.rules().len() || !self.same.is_empty() {
            return Ok(());
        }
        let same = rules_with_same_effect(*self.same.allocator(), rules)?;
        self.seen.clear();
        self.seen.resize(same.len(), 0)?;
        self.same = same;
        Ok(())
    }

    /// Goes on to the next round, in which no rule was looked at yet. After the last one there is no rule that stands for any.
    fn next_round(&mut self)
        ensures effects { (rules : RuleSetValue) → AreEffects rules self.old → AreEffects rules self.new }
        ensures none { (rules : RuleSetValue) → AreEffects rules self.old → HaveLooked rules [] self.new }
    {
        if self.round == u32::MAX {
            self.same.clear();
            self.seen.clear();
            self.round = 0;
            return;
        }
        self.round += 1;
    }

    /// Begins a round, in which so many rules are to be looked at and none was yet. Refused only for want of memory.
    pub fn begin(&mut self, rules: &RuleSet, count: usize) -> Result<(), Memory>
        requires effects { AreEffects rules.now self.old }
        ensures effects { OnOk result (AreEffects rules.now self.new) }
        ensures none { OnOk result (HaveLooked rules.now [] self.new) }
    {
        self.expect(rules, count)?;
        self.next_round();
        Ok(())
    }

    /// Whether a rule that does the same was looked at in this round; from now on, this one was.
    pub fn repeats(&mut self, rules: &RuleSet, rule: u32) -> bool
        requires effects { AreEffects rules.now self.old }
        ensures effects { AreEffects rules.now self.new }
        ensures looked { (looked : List ℕ) → HaveLooked rules.now looked self.old → HaveLooked rules.now (looked ++ rule ∷ []) self.new }
        ensures same { OnTrue result ((looked : List ℕ) → HaveLooked rules.now looked self.old → (one : ℕ) × Contains looked one × DoSame rules.now one rule) }
    {
        let Some(same) = self.same.get(rule as usize) else {
            return false;
        };
        let same = *same as usize;
        if self.seen[same] == self.round {
            return true;
        }
        self.seen[same] = self.round;
        false
    }
}
