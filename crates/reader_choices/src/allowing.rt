ghost use Rattle.std.specs.Prelude.{◌≡◌, ◌↔◌, ◌+◌, ◌*◌, ◌≤◌, ◌<◌, ◌^◌, ◌++◌, length, IsTrue};
ghost use Rattle.segmentation_definitions.specs.Items.{item_of, after_lead};
ghost use Rattle.segmentation_definitions.specs.LocalTests.{IsLast, AllowsKept, AllowsChoice, Allows, next_rank};
ghost use Rattle.derivation.specs.Steps.{placed_with, form_with};

use super::Choice;
use derivation::{Item, Step};
use phoneme::{Letter, Line};
use sandhi_rules::RuleSet;

/// The rank of what stands before this letter of the line, counted from 0, with a lead of so many letters.
pub(crate) fn rank(at: u64, lead: u32) -> u64
    requires { at < 2 ^ 40 }
    ensures { result ≡ 2 * at + after_lead lead }
{
    match lead {
        0 => 2 * at + 1,
        _ => 2 * at,
    }
}

/// Whether the word is these three parts, one after the other.
fn is_joined(front: &[Letter], middle: &[Letter], end: &[Letter], word: &[Letter]) -> bool
    ensures { IsTrue result ↔ (word.now ≡ front.now ++ middle.now ++ end.now) }
{
    let Some(rest) = word.strip_prefix(front) else {
        return false;
    };
    match rest.strip_prefix(middle) {
        Some(last) => last == end,
        None => false,
    }
}

/// Whether the word is the form of the step: the lead, the letters that the step takes, and the `u` of its rule.
fn is_form(rules: &RuleSet, line: &Line, lead: &[Letter], step: &Step, word: &[Letter]) -> bool
    requires rule { step.now.rule ≤ length rules.now.rules }
    requires within { step.now.at + step.now.taken ≤ length line.now.letters }
    ensures { IsTrue result ↔ (word.now ≡ form_with rules.now line.now.letters lead.now step.now) }
{
    let at = step.at as usize;
    let taken = &line.letters.as_slice()[at..at + step.taken as usize];
    match rules.rule(step.rule) {
        None => is_joined(lead, taken, &[], word),
        Some(rule) => is_joined(lead, taken, rule.u.as_slice(), word),
    }
}

/// Whether the item is that of the step, entered with the lead.
fn is_item(rules: &RuleSet, line: &Line, lead: &[Letter], step: &Step, item: &Item) -> bool
    requires rule { step.now.rule ≤ length rules.now.rules }
    requires within { step.now.at + step.now.taken ≤ length line.now.letters }
    ensures { IsTrue result ↔ (item.now ≡ item_of (placed_with rules.now line.now.letters lead.now step.now)) }
{
    item.at == step.at
        && item.lead == step.lead
        && item.phase == step.phase
        && is_form(rules, line, lead, step, item.form.as_slice())
}

/// Whether the step is last in the line.
fn is_last(rules: &RuleSet, line: &Line, lead: &[Letter], step: &Step) -> bool
    requires rule { step.now.rule ≤ length rules.now.rules }
    requires within { step.now.at + step.now.taken ≤ length line.now.letters }
    ensures { IsTrue result ↔ IsLast rules.now (length line.now.letters) (placed_with rules.now line.now.letters lead.now step.now) }
{
    match rules.rule(step.rule) {
        None => step.at as usize + step.taken as usize == line.letters.as_slice().len(),
        Some(rule) => rule.is_final(),
    }
}

/// The rank of whatever follows the step.
fn rank_after(rules: &RuleSet, line: &Line, lead: &[Letter], step: &Step) -> u64
    requires rule { step.now.rule ≤ length rules.now.rules }
    requires within { step.now.at + step.now.taken ≤ length line.now.letters }
    ensures { result ≡ next_rank rules.now (placed_with rules.now line.now.letters lead.now step.now) }
{
    let end = u64::from(step.at) + u64::from(step.taken);
    match rules.rule(step.rule) {
        None => rank(end, 0),
        Some(rule) => rank(end + rule.w.as_slice().len() as u64, 1),
    }
}

/// Whether the step allows that the item is kept.
fn allows_kept(
    rules: &RuleSet,
    line: &Line,
    lead: &[Letter],
    is_first: bool,
    step: &Step,
    item: &Item,
) -> bool
    requires rule { step.now.rule ≤ length rules.now.rules }
    requires within { step.now.at + step.now.taken ≤ length line.now.letters }
    ensures { IsTrue result ↔ AllowsKept rules.now (length line.now.letters) is_first (placed_with rules.now line.now.letters lead.now step.now) item.now }
{
    let here = rank(u64::from(step.at), step.lead);
    let there = rank(u64::from(item.at), item.lead);
    if there == here {
        is_item(rules, line, lead, step, item)
    } else if there < here {
        !is_first
    } else {
        !is_last(rules, line, lead, step) && rank_after(rules, line, lead, step) <= there
    }
}

/// Whether the step allows the choice.
fn allows_choice(
    rules: &RuleSet,
    line: &Line,
    lead: &[Letter],
    is_first: bool,
    step: &Step,
    choice: &Choice,
) -> bool
    requires rule { step.now.rule ≤ length rules.now.rules }
    requires within { step.now.at + step.now.taken ≤ length line.now.letters }
    ensures { IsTrue result ↔ AllowsChoice rules.now (length line.now.letters) is_first (placed_with rules.now line.now.letters lead.now step.now) choice.now.kept choice.now.item }
{
    if choice.kept {
        allows_kept(rules, line, lead, is_first, step, &choice.item)
    } else {
        !is_item(rules, line, lead, step, &choice.item)
    }
}

/// Whether the step allows each of the choices.
pub(crate) fn allows_each(
    rules: &RuleSet,
    line: &Line,
    lead: &[Letter],
    is_first: bool,
    step: &Step,
    choices: &[Choice],
) -> bool
    requires rule { step.now.rule ≤ length rules.now.rules }
    requires within { step.now.at + step.now.taken ≤ length line.now.letters }
    ensures { IsTrue result ↔ Allows rules.now (length line.now.letters) choices.now is_first (placed_with rules.now line.now.letters lead.now step.now) }
{
    for choice in choices {
        if !allows_choice(rules, line, lead, is_first, step, choice) {
            return false;
        }
    }
    true
}
