ghost use Rattle.std.specs.Prelude.{◌≡◌, ◌-◌, ◌<◌, ◌≤◌, ◌↔◌, Some, length, slice_get, IsTrue, IfOk};
ghost use Rattle.std.specs.Ordering.{nat_cmp};
ghost use Rattle.lexicon_definitions.specs.Lexicons.{IsRuleSet};
ghost use Rattle.lexicon_definitions.specs.Limits.{IsRuleSetWithinLimits};
ghost use Rattle.list_laws.specs.Firsts.{AreAll};
ghost use Rattle.strictness.specs.Matches.{HasFirst, HasLast};

use phoneme::{Memory, Word};
use sandhi_rules::RuleSet;
use std::alloc::Global;

/// The codes of letters are below this number.
const CODES: usize = 51;

/// The numbers of the rules whose `v` begins with a letter, and of those whose `u` ends with it, rising, by the letter's
/// code.
#[derive(Drop)]
pub(crate) struct LettersOfRules {
    pub firsts: Vec<Vec<u32>>,
    pub lasts: Vec<Vec<u32>>,
}

impl LettersOfRules {
    ghost use Rattle.strictness.specs.Matches.{AreLettersOf};

    /// Goes over the rules once for each letter.
    pub fn new(alloc: Global, rules: &RuleSet) -> Result<LettersOfRules, Memory>
        requires set { IsRuleSet rules.now }
        requires limits { IsRuleSetWithinLimits rules.now }
        ensures ok { IfOk result (λ letters. AreLettersOf rules.now letters) }
    {
        let mut firsts = Vec::with_capacity(alloc, CODES)?;
        let mut lasts = Vec::with_capacity(alloc, CODES)?;
        for letter in 0..CODES {
            firsts.push(rules_with_first(alloc, rules, letter as u8)?)?;
            lasts.push(rules_with_last(alloc, rules, letter as u8)?)?;
        }
        Ok(LettersOfRules { firsts, lasts })
    }
}

/// Whether the word's first letter has this code.
fn is_first(word: &Word, letter: u8) -> bool
    ensures { IsTrue result ↔ (slice_get word.now 0 ≡ Some letter) }
{
    match word.as_slice().first() {
        None => false,
        Some(first) => first.code() == letter,
    }
}

/// Whether the word's last letter has this code.
fn is_last(word: &Word, letter: u8) -> bool
    ensures { IsTrue result ↔ (slice_get word.now (length word.now - 1) ≡ Some letter) }
{
    match word.as_slice().last() {
        None => false,
        Some(last) => last.code() == letter,
    }
}

fn has_first(rules: &RuleSet, letter: u8, number: u32) -> bool
    requires { number ≤ length rules.now.rules }
    ensures { IsTrue result ↔ HasFirst rules.now letter number }
{
    match rules.rule(number) {
        None => false,
        Some(rule) => is_first(&rule.v, letter),
    }
}

fn has_last(rules: &RuleSet, letter: u8, number: u32) -> bool
    requires { number ≤ length rules.now.rules }
    ensures { IsTrue result ↔ HasLast rules.now letter number }
{
    match rules.rule(number) {
        None => false,
        Some(rule) => is_last(&rule.u, letter),
    }
}

/// The rules whose `v` begins with the letter, rising.
fn rules_with_first(alloc: Global, rules: &RuleSet, letter: u8) -> Result<Vec<u32>, Memory>
    ensures ok { IfOk result (λ numbers. AreAll nat_cmp (HasFirst rules.now letter) numbers.items) }
{
    let mut numbers = Vec::new(alloc);
    for number in 0..rules.rules().len() as u32 + 1 {
        if has_first(rules, letter, number) {
            numbers.push(number)?;
        }
    }
    Ok(numbers)
}

/// The rules whose `u` ends with the letter, rising.
fn rules_with_last(alloc: Global, rules: &RuleSet, letter: u8) -> Result<Vec<u32>, Memory>
    ensures ok { IfOk result (λ numbers. AreAll nat_cmp (HasLast rules.now letter) numbers.items) }
{
    let mut numbers = Vec::new(alloc);
    for number in 0..rules.rules().len() as u32 + 1 {
        if has_last(rules, letter, number) {
            numbers.push(number)?;
        }
    }
    Ok(numbers)
}
