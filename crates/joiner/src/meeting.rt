ghost use Rattle.std.specs.Prelude.{◌≡◌, ℕ, ◌≤◌, ◌<◌, ◌^◌, ◌↔◌, ◌++◌, List, length, All, IsTrue, MatchOption};
ghost use Rattle.segmentation_definitions.specs.Derivations.{Step, IsPlainSeam};
ghost use Rattle.chain_definitions.specs.Chains.{BeginsWith, EndsWith, FitsBefore};
ghost use Rattle.chain_definitions.specs.ChainReadings.{AllowsPhases, MeetsNext, AreMeeting, IsWhyNotMeeting, IsFirstNotMeeting};
ghost use Rattle.joiner.specs.Faults.{why_of, fault_of};

use crate::{ChainFault, ChainWhy, Link};
use phoneme::Word;
use sandhi_rules::RuleSet;

/// Whether the form begins with the word.
fn begins_with(form: &Word, word: &Word) -> bool
    ensures { IsTrue result ↔ BeginsWith form.now word.now }
{
    form.as_slice().starts_with(word.as_slice())
}

/// Whether the form ends with the word.
fn ends_with(form: &Word, word: &Word) -> bool
    ensures { IsTrue result ↔ EndsWith form.now word.now }
{
    form.as_slice().ends_with(word.as_slice())
}

/// Whether the rule after the link may follow its phase, and may precede that of the next link.
fn allows_phases(rules: &RuleSet, link: &Link, after: &[Link]) -> bool
    requires { link.now.rule ≤ length rules.now.rules }
    ensures { IsTrue result ↔ AllowsPhases rules.now link.now after.now }
{
    let Some(rule) = rules.rule(link.rule) else {
        return true;
    };
    if !rule.may_follow(link.phase) {
        return false;
    }
    match after {
        [] => true,
        [next, ..] => rule.may_precede(next.phase),
    }
}

/// Whether the `u` after the link ends its form, and the `v` after it begins the next form.
fn fits_before(rules: &RuleSet, link: &Link, after: &[Link]) -> bool
    requires { link.now.rule ≤ length rules.now.rules }
    ensures { IsTrue result ↔ FitsBefore rules.now link.now after.now }
{
    let Some(rule) = rules.rule(link.rule) else {
        return true;
    };
    if !ends_with(&link.form, &rule.u) {
        return false;
    }
    match after {
        [] => true,
        [next, ..] => begins_with(&next.form, &rule.v),
    }
}

/// Whether the last letter of the left form and the first letter of the right one are a plain pair.
fn is_plain_seam(rules: &RuleSet, left: &Word, right: &Word) -> bool
    ensures { IsTrue result ↔ IsPlainSeam rules.now left.now right.now }
{
    let Some(last) = left.as_slice().last() else {
        return false;
    };
    let Some(first) = right.as_slice().first() else {
        return false;
    };
    rules.is_plain(*last, *first)
}

/// Whether the link fits before the next one; and where there is no change between them, whether their two letters are a plain
/// pair.
fn meets_next(rules: &RuleSet, link: &Link, after: &[Link]) -> bool
    requires { link.now.rule ≤ length rules.now.rules }
    ensures { IsTrue result ↔ MeetsNext rules.now link.now after.now }
{
    if !fits_before(rules, link, after) {
        return false;
    }
    if link.rule != 0 {
        return true;
    }
    match after {
        [] => true,
        [next, ..] => is_plain_seam(rules, &link.form, &next.form),
    }
}

/// The first reason that the link has where it meets the next one.
fn why_not_meeting(rules: &RuleSet, link: &Link, after: &[Link]) -> Option<ChainWhy>
    requires { link.now.rule ≤ length rules.now.rules }
    ensures { MatchOption result (AllowsPhases rules.now link.now after.now × MeetsNext rules.now link.now after.now)
        (λ why. IsWhyNotMeeting rules.now link.now after.now (why_of why)) }
{
    if !allows_phases(rules, link, after) {
        Some(ChainWhy::Barred)
    } else if !meets_next(rules, link, after) {
        Some(ChainWhy::Meet)
    } else {
        None
    }
}

/// The first fault along the links, where each meets the next.
pub(crate) fn first_not_meeting(rules: &RuleSet, links: &[Link]) -> Option<ChainFault>
    requires numbers { All (λ (step : Step). step.rule ≤ length rules.now.rules) links.now }
    requires few { length links.now < 2 ^ 31 }
    ensures { MatchOption result (AreMeeting rules.now links.now) (λ fault. IsFirstNotMeeting rules.now 1 links.now (fault_of fault)) }
{
    for (index, link) in links.iter().enumerate() {
        if let Some(why) = why_not_meeting(rules, link, &links[index + 1..]) {
            let step = index as u32 + 1;
            return Some(ChainFault { step, why });
        }
    }
    None
}
