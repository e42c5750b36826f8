ghost use Rattle.std.specs.Prelude.{◌≡◌, ℕ, ◌+◌, ◌<◌, ◌≤◌, ◌↔◌, List, ◌++◌, length, All, IsTrue, IfOk};
ghost use Rattle.std.specs.Ordering.{nat_cmp};
ghost use Rattle.lexicon_definitions.specs.Lexicons.{rule_of};
ghost use Rattle.list_laws.specs.Firsts.{AreAll};
ghost use Rattle.strictness.specs.Matches.{BeginsForm, EndsForm, AreLonger, AreCandidates, AreLettersOf};

use super::letters::LettersOfRules;
use lexicon_definitions::MOST_RULE_LETTERS;
use phoneme::{Memory, Word};
use sandhi_rules::RuleSet;
use std::alloc::Global;

/// Whether the form begins with the word.
pub(crate) fn begins_with(form: &Word, word: &Word) -> bool
    ensures { IsTrue result ↔ ((rest : List ℕ) × (form.now ≡ word.now ++ rest)) }
{
    form.as_slice().starts_with(word.as_slice())
}

/// Whether the form ends with the word.
fn ends_with(form: &Word, word: &Word) -> bool
    ensures { IsTrue result ↔ ((front : List ℕ) × (form.now ≡ front ++ word.now)) }
{
    form.as_slice().ends_with(word.as_slice())
}

/// Whether the rule is inner, may precede the phase, and its `v` begins the form.
fn begins_form(rules: &RuleSet, phase: u32, form: &Word, number: u32) -> bool
    requires { number ≤ length rules.now.rules }
    ensures { IsTrue result ↔ BeginsForm rules.now phase form.now number }
{
    match rules.rule(number) {
        None => false,
        Some(rule) => rule.is_inner() && rule.may_precede(phase) && begins_with(form, &rule.v),
    }
}

/// Whether the rule may follow the phase, and its `u` ends the form.
fn ends_form(rules: &RuleSet, phase: u32, form: &Word, number: u32) -> bool
    requires { number ≤ length rules.now.rules }
    ensures { IsTrue result ↔ EndsForm rules.now phase form.now number }
{
    match rules.rule(number) {
        None => false,
        Some(rule) => rule.may_follow(phase) && ends_with(form, &rule.u),
    }
}

/// The rules among the candidates that begin the form, rising.
fn beginning_rules(
    alloc: Global,
    rules: &RuleSet,
    candidates: &[u32],
    phase: u32,
    form: &Word,
) -> Result<Vec<u32>, Memory>
    requires { AreCandidates rules.now (BeginsForm rules.now phase form.now) candidates.now }
    ensures ok { IfOk result (λ numbers. AreAll nat_cmp (BeginsForm rules.now phase form.now) numbers.items) }
{
    let mut numbers = Vec::new(alloc);
    for number in candidates {
        if begins_form(rules, phase, form, *number) {
            numbers.push(*number)?;
        }
    }
    Ok(numbers)
}

/// The rules among the candidates that end the form, rising.
fn ending_rules(
    alloc: Global,
    rules: &RuleSet,
    candidates: &[u32],
    phase: u32,
    form: &Word,
) -> Result<Vec<u32>, Memory>
    requires { AreCandidates rules.now (EndsForm rules.now phase form.now) candidates.now }
    ensures ok { IfOk result (λ numbers. AreAll nat_cmp (EndsForm rules.now phase form.now) numbers.items) }
{
    let mut numbers = Vec::new(alloc);
    for number in candidates {
        if ends_form(rules, phase, form, *number) {
            numbers.push(*number)?;
        }
    }
    Ok(numbers)
}

/// The rules that begin the form, rising: they are sought among those whose `v` begins with the form's first letter.
pub(crate) fn rules_that_begin(
    alloc: Global,
    rules: &RuleSet,
    letters: &LettersOfRules,
    phase: u32,
    form: &Word,
) -> Result<Vec<u32>, Memory>
    requires { AreLettersOf rules.now letters.now }
    ensures ok { IfOk result (λ numbers. AreAll nat_cmp (BeginsForm rules.now phase form.now) numbers.items) }
{
    match form.as_slice().first() {
        None => Ok(Vec::new(alloc)),
        Some(first) => {
            let candidates = &letters.firsts[first.code() as usize];
            beginning_rules(alloc, rules, candidates.as_slice(), phase, form)
        }
    }
}

/// The rules that end the form, rising: they are sought among those whose `u` ends with the form's last letter.
pub(crate) fn rules_that_end(
    alloc: Global,
    rules: &RuleSet,
    letters: &LettersOfRules,
    phase: u32,
    form: &Word,
) -> Result<Vec<u32>, Memory>
    requires { AreLettersOf rules.now letters.now }
    ensures ok { IfOk result (λ numbers. AreAll nat_cmp (EndsForm rules.now phase form.now) numbers.items) }
{
    match form.as_slice().last() {
        None => Ok(Vec::new(alloc)),
        Some(last) => {
            let candidates = &letters.lasts[last.code() as usize];
            ending_rules(alloc, rules, candidates.as_slice(), phase, form)
        }
    }
}

/// The number of letters of the rule's `v`.
fn length_of_v(rules: &RuleSet, number: u32) -> usize
    requires { number ≤ length rules.now.rules }
    ensures value { result ≡ length (rule_of rules.now number).v }
    ensures short { result ≤ MOST_RULE_LETTERS }
{
    match rules.rule(number) {
        None => 0,
        Some(rule) => rule.v.len(),
    }
}

/// The number of letters of the rule's `u`.
fn length_of_u(rules: &RuleSet, number: u32) -> usize
    requires { number ≤ length rules.now.rules }
    ensures value { result ≡ length (rule_of rules.now number).u }
    ensures short { result ≤ MOST_RULE_LETTERS }
{
    match rules.rule(number) {
        None => 0,
        Some(rule) => rule.u.len(),
    }
}

/// The greatest number of letters that a rule's `u` has, of those rules; 0 where there are none.
pub(crate) fn longest_u(rules: &RuleSet, numbers: &[u32]) -> usize
    requires { All (λ number. number ≤ length rules.now.rules) numbers.now }
    ensures value { All (λ number. length (rule_of rules.now number).u ≤ result) numbers.now }
    ensures short { result ≤ MOST_RULE_LETTERS }
{
    let mut longest = 0;
    for number in numbers {
        let letters = length_of_u(rules, *number);
        if letters > longest {
            longest = letters;
        }
    }
    longest
}

/// Whether the `v` of the rule before and so many letters more are together longer than the form.
pub(crate) fn reaches_over(rules: &RuleSet, before: u32, more: usize, form: &Word) -> bool
    requires before { before ≤ length rules.now.rules }
    requires more { more ≤ MOST_RULE_LETTERS }
    ensures { IsTrue result ↔ (length form.now < length (rule_of rules.now before).v + more) }
{
    form.len() < length_of_v(rules, before) + more
}

/// Whether the `v` of the rule before and the `u` of the rule after have more letters together than the form.
pub(crate) fn are_longer(rules: &RuleSet, before: u32, after: u32, form: &Word) -> bool
    requires before { before ≤ length rules.now.rules }
    requires after { after ≤ length rules.now.rules }
    ensures { IsTrue result ↔ AreLonger rules.now before after form.now }
{
    form.len() < length_of_v(rules, before) + length_of_u(rules, after)
}
