ghost use Rattle.std.specs.Prelude.{◌≡◌, ◌<◌, ◌≤◌, ◌^◌, ◌+◌, length, IfOk};
ghost use Rattle.lexicon_definitions.specs.Tries.{IsTrie};
ghost use Rattle.annotated_trie.specs.Choices.{HaveOneU, IsAnnotatedTrie};
ghost use Rattle.annotated_trie.specs.RuleGroups.{HaveNumbersUpTo};
ghost use Rattle.annotated_trie.specs.RuleParts.{HaveParts};
ghost use Rattle.annotated_trie.specs.Views.{AreChosen};

use super::Annotated;
use super::groups::group_places;
use super::node_choices::{join_each, longest_at};
use super::node_suffixes::number_nodes;
use super::rule_groups::group_lists;
use super::rule_lists::RuleLists;
use super::rule_parts::{RuleParts, cut_lists, part_rules};
use super::suffixes::number_rules;
use indexmap::IndexSet;
use lexicon_definitions::MOST_RULES;
use phoneme::Memory;
use sandhi_rules::RuleSet;
use shared_trie::Store;
use std::alloc::Global;

/// The trie with the choices of each node (Huet 2005). It goes once over the nodes, by the suffixes of the rules' `u` that lead
/// from their children to an end, and puts a list of choices together once for all nodes with the same such suffixes.
pub fn annotate(alloc: Global, store: Store, rules: &RuleSet) -> Result<Annotated, Memory>
    ensures ok { IfOk result (λ annotated. (annotated.trie ≡ store) × IsAnnotatedTrie rules.now annotated) }
{
    let (lists, places, part_rules) = choose(alloc, &store, rules)?;
    let groups = group_lists(alloc, lists.as_slice(), rules.rules())?;
    let part_lists = cut_lists(alloc, lists.as_slice(), &part_rules)?;
    let most = longest_at(lists.as_slice(), places.as_slice());
    let parts = RuleParts {
        rules: part_rules,
        lists: part_lists,
    };
    Ok(Annotated::new(store, lists, places, most, groups, parts))
}

/// Lists of choices, for each node the place of its list, and for each rule that is the first of a part the rules of the part.
fn choose(
    alloc: Global,
    store: &Store,
    rules: &RuleSet,
) -> Result<(Vec<Vec<u32>>, Vec<u32>, RuleLists), Memory>
    ensures trie { IfOk result (λ _. IsTrie store.now) }
    ensures size { IfOk result (λ _. length store.now.rows < 2 ^ 32) }
    ensures rules { IfOk result (λ _. length rules.now.rules ≤ MOST_RULES) }
    ensures numbers { IfOk result (λ chosen. HaveNumbersUpTo (length rules.now.rules) chosen.0.items) }
    ensures ok { IfOk result (λ chosen. AreChosen rules.now store.now.rows chosen.0.items chosen.1.items) }
    ensures count { IfOk result (λ chosen. length chosen.2 ≡ length rules.now.rules + 1) }
    ensures parts { IfOk result (λ chosen. HaveParts chosen.2 chosen.0.items) }
    ensures one_u { IfOk result (λ chosen. HaveOneU rules.now chosen.2) }
{
    let mut suffixes = IndexSet::new(alloc);
    let numbers = number_rules(alloc, &mut suffixes, rules.rules())?;
    let groups = group_places(alloc, suffixes.len() + 1, numbers.as_slice())?;
    let nodes = number_nodes(alloc, store, &suffixes)?;
    let lists = join_each(alloc, groups.as_slice(), nodes.sets.as_slice())?;
    let part_rules = part_rules(alloc, groups.as_slice(), numbers.as_slice())?;
    Ok((lists, nodes.places, part_rules))
}
