ghost use Rattle.std.specs.Prelude.{◌≡◌, ◌+◌, ◌<◌, ◌≤◌, ◌++◌, length, IfOk, OnOk, string_bytes};
ghost use Rattle.segmentation_definitions.specs.PrintedAnswers.{printed_answer, printed_form, printed_joint, printed_end};
ghost use Rattle.derivation.specs.Steps.{StandIn, steps_of, step_after};

use super::Step;
use super::forms::form_after;
use latin_schemes::print_slp1;
use phoneme::{Line, Memory};
use sandhi_rules::{RuleSet, print_rule};
use std::alloc::Global;

/// `FORM[PHASE]`, for a step after the rule with the number `before`.
fn push_form(
    alloc: Global,
    text: &mut String,
    rules: &RuleSet,
    line: &Line,
    before: u32,
    step: &Step,
) -> Result<(), Memory>
    requires before { before ≤ length rules.now.rules }
    requires phase { step.now.phase < length rules.now.names }
    requires rule { step.now.rule ≤ length rules.now.rules }
    requires within { step.now.at + step.now.taken ≤ length line.now.letters }
    ensures ok { OnOk result (string_bytes text.new ≡ string_bytes text.old ++ printed_form rules.now (step_after rules.now line.now.letters before step.now)) }
{
    let form = form_after(alloc, rules, line, before, step)?;
    text.push_str(print_slp1(alloc, &form)?.as_str())?;
    text.push_str("[")?;
    text.push_str(rules.phases()[step.phase as usize].as_str())?;
    text.push_str("]")?;
    Ok(())
}

/// What stands between a form with this rule after it and the next form.
fn push_joint(alloc: Global, text: &mut String, rules: &RuleSet, number: u32) -> Result<(), Memory>
    requires { number ≤ length rules.now.rules }
    ensures ok { OnOk result (string_bytes text.new ≡ string_bytes text.old ++ printed_joint rules.now number) }
{
    match rules.rule(number) {
        None => text.push_str(" + ")?,
        Some(rule) => {
            text.push_str(" (")?;
            text.push_str(print_rule(alloc, rule)?.as_str())?;
            text.push_str(") ")?;
        }
    }
    Ok(())
}

/// What stands after the last form, with this rule after it.
fn push_end(alloc: Global, text: &mut String, rules: &RuleSet, number: u32) -> Result<(), Memory>
    requires { number ≤ length rules.now.rules }
    ensures ok { OnOk result (string_bytes text.new ≡ string_bytes text.old ++ printed_end rules.now number) }
{
    if let Some(rule) = rules.rule(number) {
        text.push_str(" (")?;
        text.push_str(print_rule(alloc, rule)?.as_str())?;
        text.push_str(")")?;
    }
    Ok(())
}

/// The line of an answer with its number in the listing, counted from 1: `N: FORM[PHASE]`, then ` + FORM[PHASE]` for
/// each further form that is joined unchanged and ` (u|v>w) FORM[PHASE]` for one after a rule; a final rule stands at
/// the end as ` (u|>w)`. Words are in SLP1. The layout is our own.
pub fn print_derivation(
    alloc: Global,
    rules: &RuleSet,
    line: &Line,
    steps: &[Step],
    number: u64,
) -> Result<String, Memory>
    requires stand { StandIn rules.now line.now.letters steps.now }
    requires some { 0 < length steps.now }
    ensures ok { IfOk result (λ text. string_bytes text ≡ printed_answer rules.now number (steps_of rules.now line.now.letters steps.now)) }
{
    let mut text = format!(in alloc; "{number}: ")?;
    let mut before = 0;
    for (j, step) in steps.iter().enumerate() {
        push_form(alloc, &mut text, rules, line, before, step)?;
        if j + 1 < steps.len() {
            push_joint(alloc, &mut text, rules, step.rule)?;
        } else {
            push_end(alloc, &mut text, rules, step.rule)?;
        }
        before = step.rule;
    }
    Ok(text)
}
