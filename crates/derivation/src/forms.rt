ghost use Rattle.std.specs.Prelude.{◌≡◌, ◌+◌, ◌<◌, ◌≤◌, length, map, slice_get, Some, IfOk};
ghost use Rattle.lexicon_definitions.specs.Lexicons.{rule_of};
ghost use Rattle.derivation.specs.Steps.{StandIn, steps_of, form_with};

use super::Step;
use phoneme::{Line, Memory, Word};
use sandhi_rules::RuleSet;
use std::alloc::Global;

/// The form of a step after the rule with the number `before`, where 0 stands for no rule: the letters that this rule supplies
/// (its `v`), the letters of the line that the step takes, and the `u` of the step's rule (Huet 2005).
pub fn form_after(
    alloc: Global,
    rules: &RuleSet,
    line: &Line,
    before: u32,
    step: &Step,
) -> Result<Word, Memory>
    requires before { before ≤ length rules.now.rules }
    requires rule { step.now.rule ≤ length rules.now.rules }
    requires within { step.now.at + step.now.taken ≤ length line.now.letters }
    ensures ok { IfOk result (λ word. word ≡ form_with rules.now line.now.letters (rule_of rules.now before).v step.now) }
{
    let mut form = Word::new(alloc);
    if let Some(rule) = rules.rule(before) {
        form.extend_from_slice(rule.v.as_slice())?;
    }
    let at = step.at as usize;
    let end = at + step.taken as usize;
    form.extend_from_slice(&line.letters.as_slice()[at..end])?;
    if let Some(rule) = rules.rule(step.rule) {
        form.extend_from_slice(rule.u.as_slice())?;
    }
    Ok(form)
}

/// The form of the step at place `j`, counted from 0, after the rule of the step before it, if there is one (Huet 2005).
pub fn form_of(
    alloc: Global,
    rules: &RuleSet,
    line: &Line,
    steps: &[Step],
    j: u32,
) -> Result<Word, Memory>
    requires stand { StandIn rules.now line.now.letters steps.now }
    requires place { j < length steps.now }
    ensures ok { IfOk result (λ word. slice_get (map (λ step. step.form) (steps_of rules.now line.now.letters steps.now)) j ≡ Some word) }
{
    let place = j as usize;
    let before = if place == 0 { 0 } else { steps[place - 1].rule };
    form_after(alloc, rules, line, before, &steps[place])
}
