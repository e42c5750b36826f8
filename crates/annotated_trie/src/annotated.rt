ghost use Rattle.std.specs.Prelude.{◌≡◌, ◌+◌, ◌≤◌, ◌<◌, ◌^◌, ◌⊎◌, ℕ, length, slice_get};
ghost use Rattle.std.specs.Bool.{OnTrue};
ghost use Rattle.annotated_trie.specs.Choices.{choices_of, choices_with, list_number_of, parts_of, rules_of_part};
ghost use Rattle.annotated_trie.specs.RuleGroups.{AreGroupedBy};
ghost use Rattle.annotated_trie.specs.Views.{annotated_with, ArePlaces, parts_of_lists};

use super::rule_groups::{CODES, RuleGroups};
use super::rule_parts::RuleParts;
use outside::Steps;
use phoneme::Letter;
use shared_trie::{Node, Store};
use std::marker::Model;
use std::snapshot::Snapshot;

/// A trie with the choices of each node: the rules whose `u` leads from the node to a form's end (Huet 2005), by their numbers,
/// which are counted from 1, rising. Nodes from which the same suffixes of `u`s lead to an end share one list. The rules of each list
/// stand besides in groups by the first letter of their `w`. Each list is told besides by its parts: the rules with one and the same `u`
/// are a part.
#[derive(Drop)]
pub struct Annotated {
    store: Store,
    lists: Vec<Vec<u32>>,
    /// For each node, by its number, the place of its list.
    places: Vec<u32>,
    most: u32,
    groups: RuleGroups,
    parts: RuleParts,
}

impl Model for Annotated {
    ghost use Rattle.std.specs.Prelude.{◌≡◌, length};
    ghost use Rattle.annotated_trie.specs.Choices.{AnnotatedTrie};
    ghost use Rattle.annotated_trie.specs.RuleGroups.{AreGroupedBy};
    ghost use Rattle.annotated_trie.specs.Views.{annotated_with, ArePlaces, parts_of_lists};

    ghost Value = { AnnotatedTrie };

    ghost view = { λ a. annotated_with a.store a.lists.items a.places.items a.groups.firsts.value.items a.parts.rules };

    ghost invariant = { λ a. ArePlaces a.lists.items (length a.store.rows) a.places.items a.most
        × AreGroupedBy a.groups.firsts.value.items a.lists.items a.groups.lists
        × (a.parts.lists ≡ parts_of_lists a.parts.rules a.lists.items) };
}

impl Annotated {
    /// The trie whose nodes have the lists at these places; `most` is the greatest length of their lists.
    pub(crate) fn new(
        store: Store,
        lists: Vec<Vec<u32>>,
        places: Vec<u32>,
        most: u32,
        groups: RuleGroups,
        parts: RuleParts,
    ) -> Annotated
        requires places { ArePlaces lists.items (length store.rows) places.items most }
        requires groups { AreGroupedBy groups.firsts.value.items lists.items groups.lists }
        requires parts { parts.lists ≡ parts_of_lists parts.rules lists.items }
        ensures { result ≡ annotated_with store lists.items places.items groups.firsts.value.items parts.rules }
    {
        Annotated {
            store,
            lists,
            places,
            most,
            groups,
            parts,
        }
    }

    /// The trie.
    pub fn store(&self) -> &Store
        ensures { result.now ≡ self.now.trie }
    {
        &self.store
    }

    /// The number of the node's choices.
    pub fn choice_count(&self, node: Node) -> u32
        requires { node < length self.now.trie.rows }
        ensures value { result ≡ length (choices_of self.now node) }
    {
        self.choices(node).len() as u32
    }

    /// The choice of the node at this place, counted from 0: a rule's number, counted from 1. `None` exactly where the place
    /// is not below `choice_count`. Takes one step.
    pub fn choice<L>(&self, node: Node, i: u32, steps: &mut Steps<L>) -> Option<u32>
        requires { node < length self.now.trie.rows }
        ensures value { result ≡ slice_get (choices_of self.now node) i }
        ensures steps { steps.new ≡ steps.old + 1 }
    {
        steps.tick();
        self.choices(node).get(i as usize).copied()
    }

    /// The choices of the node whose `w` begins with the letter: rules' numbers, counted from 1, rising. Takes one step.
    pub fn choices_with<L>(&self, node: Node, letter: Letter, steps: &mut Steps<L>) -> &[u32]
        requires { node < length self.now.trie.rows }
        ensures value { result.now ≡ choices_with self.now node letter }
        ensures steps { steps.new ≡ steps.old + 1 }
    {
        steps.tick();
        let place = self.places[node.number() as usize] as usize;
        self.groups
            .lists
            .get(CODES * place + letter.code() as usize)
    }

    /// The parts of the node's choices, by their numbers, rising: the choices are just the rules of these parts. The rules with one and
    /// the same `u` are a part, whose number is that of its first rule. Nodes may have parts in common.
    pub fn parts(&self, node: Node) -> &[u32]
        requires { node < length self.now.trie.rows }
        ensures value { result.now ≡ parts_of self.now node }
    {
        self.parts
            .lists
            .get(self.places[node.number() as usize] as usize)
    }

    /// The rules of the part, by their numbers, rising.
    pub fn rules_of_part(&self, part: u32) -> &[u32]
        requires { part < length self.now.part_rules }
        ensures value { result.now ≡ rules_of_part self.now part }
    {
        self.parts.rules.get(part as usize)
    }

    /// The number of the list that has the node's choices. Nodes with the same number have the same choices.
    pub fn list_number(&self, node: Node) -> u32
        requires { node < length self.now.trie.rows }
        ensures value { result ≡ list_number_of self.now node }
        ensures same { (other : ℕ) → other < length self.now.trie.rows → list_number_of self.now other ≡ result → choices_of self.now other ≡ choices_of self.now node }
    {
        self.places[node.number() as usize]
    }

    /// Whether the nodes are known to have the same choices, since they share one list.
    pub fn have_same_choices(&self, one: Node, other: Node) -> bool
        requires one { one < length self.now.trie.rows }
        requires other { other < length self.now.trie.rows }
        ensures { OnTrue result (choices_of self.now one ≡ choices_of self.now other) }
    {
        self.list_number(one) == self.list_number(other)
    }

    /// The greatest number of choices that a node has: 0 where there are no nodes.
    pub fn most_choices(&self) -> u32
        ensures above { (node : ℕ) → node < length self.now.trie.rows → length (choices_of self.now node) ≤ result }
        ensures greatest { (result ≡ 0) ⊎ ((node : ℕ) × (node < length self.now.trie.rows) × (length (choices_of self.now node) ≡ result)) }
    {
        self.most
    }

    /// The choices of the node, rising.
    fn choices(&self, node: Node) -> &[u32]
        requires { node < length self.now.trie.rows }
        ensures value { result.now ≡ choices_of self.now node }
        ensures few { length result.now < 2 ^ 32 }
    {
        let place = self.places[node.number() as usize];
        self.lists[place as usize].as_slice()
    }
}
