ghost use Rattle.std.specs.Prelude.{◌≡◌, ◌≢◌, ◌≤◌, length, map, All, IfOk, OnOk, []};
ghost use Rattle.lexicon_definitions.specs.Rules.{Rule as RuleValue};
ghost use Rattle.annotated_trie.specs.Choices.{first_letter, with_first};
ghost use Rattle.annotated_trie.specs.RuleGroups.{AddsGroups, AreGroupedBy, HaveNumbersUpTo, IsNumberUpTo};

use super::rule_lists::RuleLists;
use phoneme::{Letter, Memory};
use sandhi_rules::Rule;
use std::alloc::Global;
use std::snapshot::Snapshot;

/// The codes of letters lie below this number.
pub(crate) const CODES: usize = 51;

/// The rules of lists in groups by the first letter of their `w`: for each list a group for each code of a letter.
#[derive(Drop)]
pub(crate) struct RuleGroups {
    pub lists: RuleLists,
    /// What contracts see of the first letters. It takes no bytes.
    pub firsts: Snapshot<Vec<Letter>>,
}

/// The rules of these lists in groups.
pub(crate) fn group_lists(
    alloc: Global,
    lists: &[Vec<u32>],
    rules: &[Rule],
) -> Result<RuleGroups, Memory>
    requires strict { All (λ (rule : RuleValue). rule.w ≢ []) rules.now }
    requires numbers { HaveNumbersUpTo (length rules.now) lists.now }
    ensures firsts { IfOk result (λ groups. groups.firsts.value.items ≡ map first_letter rules.now) }
    ensures groups { IfOk result (λ groups. AreGroupedBy groups.firsts.value.items lists.now groups.lists) }
{
    let firsts = first_letters(alloc, rules)?;
    let letters = firsts.as_slice();
    let mut groups = RuleLists::new(alloc)?;
    for list in lists {
        push_groups(alloc, &mut groups, list.as_slice(), letters)?;
    }
    Ok(RuleGroups {
        lists: groups,
        firsts: Snapshot::of(&firsts),
    })
}

/// The first letter of each rule's `w`.
fn first_letters(alloc: Global, rules: &[Rule]) -> Result<Vec<Letter>, Memory>
    requires { All (λ (rule : RuleValue). rule.w ≢ []) rules.now }
    ensures ok { IfOk result (λ firsts. firsts.items ≡ map first_letter rules.now) }
{
    let mut firsts = Vec::with_capacity(alloc, rules.len())?;
    for rule in rules {
        firsts.push(rule.w.as_slice()[0])?;
    }
    Ok(firsts)
}

/// Adds the groups of the list, one for each code.
fn push_groups(
    alloc: Global,
    groups: &mut RuleLists,
    list: &[u32],
    firsts: &[Letter],
) -> Result<(), Memory>
    requires { All (IsNumberUpTo (length firsts.now)) list.now }
    ensures ok { OnOk result (AddsGroups firsts.now list.now groups.old groups.new 51) }
{
    for code in 0..CODES {
        let group = rules_with(alloc, list, firsts, code as u8)?;
        groups.push(group.as_slice())?;
    }
    Ok(())
}

/// The rules of the list whose first letter has the code.
fn rules_with(alloc: Global, list: &[u32], firsts: &[Letter], code: u8) -> Result<Vec<u32>, Memory>
    requires { All (IsNumberUpTo (length firsts.now)) list.now }
    ensures ok { IfOk result (λ rules. rules.items ≡ with_first firsts.now code list.now) }
{
    let mut rules = Vec::new(alloc);
    for number in list {
        if firsts[*number as usize - 1].code() == code {
            rules.push(*number)?;
        }
    }
    Ok(rules)
}
