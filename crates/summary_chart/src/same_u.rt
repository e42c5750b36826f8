ghost use Rattle.std.specs.Prelude.{◌≡◌, ◌+◌, length, IfOk};
ghost use Rattle.lexicon_definitions.specs.Lexicons.{rule_of};
ghost use Rattle.summary_chart.specs.Summaries.{AreRuleNumbers, HaveSameU};

use phoneme::{Letter, Memory, compare_letters};
use sandhi_rules::RuleSet;
use std::alloc::Global;

/// The `u` of the rule with this number, counted from 1; empty for 0, which stands for no change, and for a number past the last rule.
pub(crate) fn u_of(rules: &RuleSet, number: u32) -> &[Letter]
    ensures { result.now ≡ (rule_of rules.now number).u }
{
    if number == 0 {
        return &[];
    }
    match rules.rules().get(number as usize - 1) {
        Some(rule) => rule.u.as_slice(),
        None => &[],
    }
}

/// For each rule, by its number, its own number. No change counts as a rule with the number 0. Refused only for want of memory.
pub(crate) fn rule_numbers(alloc: Global, rules: &RuleSet) -> Result<Vec<u32>, Memory>
    ensures { IfOk result (λ numbers. AreRuleNumbers rules.now numbers.items) }
{
    let count = rules.rules().len() + 1;
    let mut numbers = Vec::with_capacity(alloc, count)?;
    for number in 0..count {
        numbers.push(number as u32)?;
    }
    Ok(numbers)
}

/// For each rule, by its number, the number of a rule with the same `u`: for all that have one `u` this is the same. No change counts
/// as a rule with the number 0. Refused only for want of memory.
pub(crate) fn rules_with_same_u(alloc: Global, rules: &RuleSet) -> Result<Vec<u32>, Memory>
    ensures { IfOk result (λ same. HaveSameU rules.now same.items) }
{
    let mut numbers = rule_numbers(alloc, rules)?;
    let mut same = Vec::from_slice(alloc, numbers.as_slice())?;
    numbers.sort_unstable_by(|left, right| {
        compare_letters(u_of(rules, *left), u_of(rules, *right))
    });
    let mut last = 0;
    for number in numbers.as_slice() {
        if compare_letters(u_of(rules, last), u_of(rules, *number)).is_eq() {
            same[*number as usize] = last;
        } else {
            last = *number;
        }
    }
    Ok(same)
}
