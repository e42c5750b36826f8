ghost use Rattle.std.specs.Prelude.{◌≡◌, ◌≢◌, ℕ, ◌+◌, ◌*◌, ◌<◌, ◌≤◌, ◌^◌, ◌↔◌, [], ◌∷◌, ◌++◌, length, map, IsTrue, IfOk, OnOk, OnErr, MatchOption};
ghost use Rattle.form_tags.specs.Analyses.{text_delta};
ghost use Rattle.lexicon_definitions.specs.declared.limits.TheConstants.{MOST_FORM_LINES};
ghost use Rattle.lexicon_definitions.specs.Tries.{IsRow, IsTrie, row_of};
ghost use Rattle.shared_trie.specs.Growth.{Grows, HasRow};
ghost use Rattle.shared_trie.specs.Hashes.{hash_of};
ghost use Rattle.shared_trie.specs.Interned.{AddsList, list_of, row_of_list, trie_of};

use super::chains::Chains;
use super::delta_lists::number_list;
use super::hashes::hash_row;
use super::heights::height_above;
use super::node_table::NodeTable;
use super::packed_node::{PackedNode, letters_of};
use super::shortcuts::Shortcuts;
use super::{Node, Store};
use form_tags::Delta;
use indexmap::IndexSet;
use phoneme::{Letter, Memory};
use std::alloc::Global;
use std::marker::Model;

/// A trie that grows: its rows, packed, no two of them the same, each with its height, and the roots so far.
#[derive(Drop)]
pub(crate) struct Interned {
    nodes: Vec<PackedNode>,
    children: Vec<(Letter, Node)>,
    lists: IndexSet<Vec<Delta>>,
    chains: Chains,
    heights: Vec<u32>,
    roots: Vec<Node>,
    /// Nodes without children by the numbers of their lists. That a list's node stands here is not promised, and is looked at.
    leaves: Shortcuts,
}

impl Model for Interned {
    ghost use Rattle.std.specs.Prelude.{map};
    ghost use Rattle.shared_trie.specs.Packed.{row_with};
    ghost use Rattle.shared_trie.specs.Interned.{AreInterned, GrowingTrie, lists_with};

    ghost Value = { GrowingTrie };

    ghost view = { λ i. record { lists = lists_with i.lists.keys; rows = map (row_with i.children.items i.lists.keys) i.nodes.items; roots = i.roots.items } };

    ghost invariant = { λ i. AreInterned i.children.items i.lists.keys i.nodes.items i.chains i.heights.items i.roots.items };
}

impl Interned {
    /// A trie without rows, whose only list of deltas is the empty one. Takes no memory.
    pub(crate) fn new(alloc: Global) -> Interned
        ensures value { result ≡ record { lists = [] ∷ []; rows = []; roots = [] } }
    {
        Interned {
            nodes: Vec::new(alloc),
            children: Vec::new(alloc),
            lists: IndexSet::new(alloc),
            chains: Chains::new(alloc),
            heights: Vec::new(alloc),
            roots: Vec::new(alloc),
            leaves: Shortcuts::new(alloc),
        }
    }

    /// The number of the list of deltas, which is added where it is not there.
    pub(crate) fn number_list(&mut self, deltas: Vec<Delta>) -> Result<u32, Memory>
        requires { length self.old.lists ≤ length self.old.rows + MOST_FORM_LINES }
        ensures lists { AddsList self.old.lists self.new.lists }
        ensures rows { self.new.rows ≡ self.old.rows }
        ensures roots { self.new.roots ≡ self.old.roots }
        ensures ok { IfOk result (λ number. (number < length self.new.lists) × (list_of self.new.lists number ≡ map text_delta deltas.items)) }
    {
        number_list(&mut self.lists, deltas)
    }

    /// The node with this row, which is added where no node has it.
    pub(crate) fn intern(&mut self, list: u32, children: &[(Letter, Node)]) -> Result<Node, Memory>
        requires room { 64 * (length self.old.rows + 1) < 2 ^ 32 }
        requires list { list < length self.old.lists }
        requires row { IsRow self.old.rows (length self.old.rows) (row_of_list self.old.lists list children.now) }
        ensures trie { IsTrie (trie_of self.new) }
        ensures lists { self.new.lists ≡ self.old.lists }
        ensures roots { self.new.roots ≡ self.old.roots }
        ensures grown { Grows 1 self.old.rows self.new.rows }
        ensures ok { IfOk result (HasRow self.new.rows (row_of_list self.old.lists list children.now)) }
    {
        if children.is_empty() {
            return self.intern_leaf(list);
        }
        self.intern_hashed(list, children)
    }

    /// The node with this list of deltas and no child, which is added where no node has it.
    fn intern_leaf(&mut self, list: u32) -> Result<Node, Memory>
        requires room { 64 * (length self.old.rows + 1) < 2 ^ 32 }
        requires list { list < length self.old.lists }
        requires row { IsRow self.old.rows (length self.old.rows) (row_of_list self.old.lists list []) }
        ensures trie { IsTrie (trie_of self.new) }
        ensures lists { self.new.lists ≡ self.old.lists }
        ensures roots { self.new.roots ≡ self.old.roots }
        ensures grown { Grows 1 self.old.rows self.new.rows }
        ensures ok { IfOk result (HasRow self.new.rows (row_of_list self.old.lists list [])) }
    {
        if let Some(number) = self.leaves.get(list) {
            if (number as usize) < self.nodes.len() && self.has_row(number, list, &[]) {
                return Ok(Node::new(number));
            }
        }
        let node = self.intern_hashed(list, &[])?;
        self.leaves.make_room(list)?;
        self.leaves.set(list, node.number());
        Ok(node)
    }

    /// The node with this row, which is sought by its hash, and added where no node has it.
    fn intern_hashed(&mut self, list: u32, children: &[(Letter, Node)]) -> Result<Node, Memory>
        requires room { 64 * (length self.old.rows + 1) < 2 ^ 32 }
        requires list { list < length self.old.lists }
        requires row { IsRow self.old.rows (length self.old.rows) (row_of_list self.old.lists list children.now) }
        ensures trie { IsTrie (trie_of self.new) }
        ensures lists { self.new.lists ≡ self.old.lists }
        ensures roots { self.new.roots ≡ self.old.roots }
        ensures grown { Grows 1 self.old.rows self.new.rows }
        ensures ok { IfOk result (HasRow self.new.rows (row_of_list self.old.lists list children.now)) }
    {
        let hash = hash_row(list, children);
        match self.find(hash, list, children) {
            Some(node) => Ok(node),
            None => self.add(hash, list, children),
        }
    }

    /// The node with this row, which has this hash. `None` where no node has it.
    fn find(&self, hash: u32, list: u32, children: &[(Letter, Node)]) -> Option<Node>
        requires hash { hash ≡ hash_of list children.now }
        requires list { list < length self.now.lists }
        ensures trie { IsTrie (trie_of self.now) }
        ensures found { MatchOption result ((node : ℕ) → node < length self.now.rows → row_of self.now.rows node ≢ row_of_list self.now.lists list children.now)
            (HasRow self.now.rows (row_of_list self.now.lists list children.now)) }
    {
        let mut found = self.chains.last_with(hash, None);
        while let Some(number) = found {
            if self.has_row(number, list, children) {
                return Some(Node::new(number));
            }
            found = self.chains.last_with(hash, Some(number));
        }
        None
    }

    /// Whether the node with the number has this row.
    fn has_row(&self, number: u32, list: u32, children: &[(Letter, Node)]) -> bool
        requires node { number < length self.now.rows }
        requires list { list < length self.now.lists }
        ensures { IsTrue result ↔ (row_of self.now.rows number ≡ row_of_list self.now.lists list children.now) }
    {
        let packed = &self.nodes[number as usize];
        let first = packed.first as usize;
        packed.list == list
            && &self.children[first..first + packed.letters.len() as usize] == children
    }

    /// Adds a node with this row, which has this hash.
    fn add(&mut self, hash: u32, list: u32, children: &[(Letter, Node)]) -> Result<Node, Memory>
        requires room { 64 * (length self.old.rows + 1) < 2 ^ 32 }
        requires hash { hash ≡ hash_of list children.now }
        requires list { list < length self.old.lists }
        requires row { IsRow self.old.rows (length self.old.rows) (row_of_list self.old.lists list children.now) }
        requires is_new { (node : ℕ) → node < length self.old.rows → row_of self.old.rows node ≢ row_of_list self.old.lists list children.now }
        ensures trie { IsTrie (trie_of self.new) }
        ensures lists { self.new.lists ≡ self.old.lists }
        ensures roots { self.new.roots ≡ self.old.roots }
        ensures grown { Grows 1 self.old.rows self.new.rows }
        ensures ok { IfOk result (HasRow self.new.rows (row_of_list self.old.lists list children.now)) }
    {
        self.nodes.reserve(1)?;
        self.children.reserve(children.len())?;
        self.heights.reserve(1)?;
        let node = PackedNode {
            letters: letters_of(children),
            first: self.children.len() as u32,
            list,
        };
        let height = height_above(self.heights.as_slice(), children);
        self.chains.push(hash)?;
        // There is room for all, so that no want of memory comes between them.
        let Ok(()) = self.children.extend_from_slice(children) else {
            unreachable!();
        };
        let Ok(()) = self.heights.push(height) else {
            unreachable!();
        };
        let number = self.nodes.len() as u32;
        let Ok(()) = self.nodes.push(node) else {
            unreachable!();
        };
        Ok(Node::new(number))
    }

    /// Makes the node the root of the next phase.
    pub(crate) fn push_root(&mut self, root: Node) -> Result<(), Memory>
        requires { root < length self.old.rows }
        ensures trie { IsTrie (trie_of self.new) }
        ensures lists { self.new.lists ≡ self.old.lists }
        ensures rows { self.new.rows ≡ self.old.rows }
        ensures roots { OnOk result (self.new.roots ≡ self.old.roots ++ root ∷ []) }
        ensures unchanged { OnErr result (self.new.roots ≡ self.old.roots) }
    {
        self.roots.push(root)?;
        Ok(())
    }

    /// The number of roots.
    pub(crate) fn roots(&self) -> usize
        ensures { result ≡ length self.now.roots }
    {
        self.roots.len()
    }

    /// The same trie.
    pub(crate) fn into_store(self, alloc: Global) -> Result<Store, Memory>
        ensures { IfOk result (λ store. store ≡ trie_of self) }
    {
        let Interned {
            nodes,
            children,
            lists,
            chains: _,
            heights,
            roots,
            leaves: _,
        } = self;
        let table = NodeTable::with_parts(alloc, nodes, children, lists)?;
        Ok(Store::new(table, heights, roots))
    }
}
