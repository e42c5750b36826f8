ghost use Rattle.std.specs.Prelude.{◌≡◌, ◌+◌, ◌-◌, ◌<◌, ◌^◌, length, All, IfOk};
ghost use Rattle.annotated_trie.specs.RuleGroups.{HaveNumbersUpTo, IsNumberUpTo};
ghost use Rattle.annotated_trie.specs.RuleParts.{ArePartRules, group_from};
ghost use Rattle.annotated_trie.specs.Views.{begins_with, parts_in, parts_of_lists};

use super::rule_lists::RuleLists;
use phoneme::Memory;
use std::alloc::Global;

/// Lists of rules in parts. The rules with one and the same `u` are a part, whose number is that of its first rule; a list has all
/// rules of a part or none.
#[derive(Drop)]
pub(crate) struct RuleParts {
    /// For each rule, by its number, the rules of its part where it is the first of them, and else none. Rules are counted from 1.
    pub rules: RuleLists,
    /// For each list the numbers of its parts, rising.
    pub lists: RuleLists,
}

/// For each rule its group where the rule is the first of it, and else none. The group of a rule is the one with the rule's number
/// here; rules are counted from 1, and there is nothing at 0.
pub(crate) fn part_rules(
    alloc: Global,
    groups: &[Vec<u32>],
    numbers: &[u32],
) -> Result<RuleLists, Memory>
    requires within { All (λ number. number < length groups.now) numbers.now }
    requires few { length numbers.now < 2 ^ 32 }
    ensures ok { IfOk result (λ parts. ArePartRules groups.now numbers.now parts) }
{
    let mut parts = RuleLists::new(alloc)?;
    parts.push(&[])?;
    let mut rule = 0;
    for number in numbers {
        rule += 1;
        parts.push(group_from(groups[*number as usize].as_slice(), rule))?;
    }
    Ok(parts)
}

/// The group where it begins with the rule, and else nothing.
fn group_from(group: &[u32], rule: u32) -> &[u32]
    requires { 0 < rule }
    ensures { result.now ≡ group_from group.now rule }
{
    if begins_with(group, rule) { group } else { &[] }
}

/// Whether the list begins with the rule.
fn begins_with(list: &[u32], rule: u32) -> bool
    requires { 0 < rule }
    ensures { result ≡ begins_with list.now rule }
{
    match list {
        [first, ..] => *first == rule,
        [] => false,
    }
}

/// The parts of each list.
pub(crate) fn cut_lists(
    alloc: Global,
    lists: &[Vec<u32>],
    rules: &RuleLists,
) -> Result<RuleLists, Memory>
    requires { HaveNumbersUpTo (length rules.now - 1) lists.now }
    ensures ok { IfOk result (λ parts. parts ≡ parts_of_lists rules.now lists.now) }
{
    let mut parts = RuleLists::new(alloc)?;
    for list in lists {
        let heads = cut_list(alloc, list.as_slice(), rules)?;
        parts.push(heads.as_slice())?;
    }
    Ok(parts)
}

/// The parts of the list: the rules of it that are the first of their part.
fn cut_list(alloc: Global, list: &[u32], rules: &RuleLists) -> Result<Vec<u32>, Memory>
    requires { All (IsNumberUpTo (length rules.now - 1)) list.now }
    ensures ok { IfOk result (λ heads. heads.items ≡ parts_in rules.now list.now) }
{
    let mut heads = Vec::new(alloc);
    for rule in list {
        if begins_with(rules.get(*rule as usize), *rule) {
            heads.push(*rule)?;
        }
    }
    Ok(heads)
}
