ghost use Rattle.std.specs.Prelude.{◌≡◌, ◌≢◌, ◌+◌, ◌*◌, ◌<◌, ◌^◌, ◌↔◌, [], ◌∷◌, ◌++◌, length, map, All, IsTrue, OnOk, OnErr};
ghost use Rattle.form_tags.specs.Analyses.{text_delta};
ghost use Rattle.lexicon_definitions.specs.Tries.{IsHeight, IsRow, IsTrie, empty_row, row_of};

use super::node_table::NodeTable;
use super::{Node, Store};
use form_tags::Delta;
use phoneme::{Letter, Memory};
use std::alloc::Global;
use std::marker::Model;

/// A trie whose rows are told one after another, each after those of its children, and then the roots (Huet 2005).
#[derive(Drop)]
pub struct TrieSoFar {
    store: Store,
}

impl Model for TrieSoFar {
    ghost use Rattle.lexicon_definitions.specs.Tries.{Trie};

    ghost Value = { Trie };

    ghost view = { λ t. t.store };
}

impl TrieSoFar {
    /// A trie without nodes and roots. Takes no memory.
    pub fn new(alloc: Global) -> TrieSoFar
        ensures { result ≡ record { rows = []; roots = [] } }
    {
        TrieSoFar {
            store: Store::new(NodeTable::new(alloc), Vec::new(alloc), Vec::new(alloc)),
        }
    }

    /// Adds a node with these deltas and children after all others. Where memory is wanting, the trie is as it was.
    pub fn push(&mut self, deltas: Vec<Delta>, children: &[(Letter, Node)]) -> Result<(), Memory>
        requires row { IsRow self.old.rows (length self.old.rows) (record { deltas = map text_delta deltas.items; children = children.now }) }
        requires other { All (λ row. row ≢ record { deltas = map text_delta deltas.items; children = children.now }) self.old.rows }
        requires room { 64 * (length self.old.rows + 1) < 2 ^ 32 }
        ensures rows { OnOk result (self.new.rows ≡ self.old.rows ++ record { deltas = map text_delta deltas.items; children = children.now } ∷ []) }
        ensures roots { OnOk result (self.new.roots ≡ self.old.roots) }
        ensures unchanged { OnErr result (self.new ≡ self.old) }
    {
        self.store.push(deltas, children)
    }

    /// Makes the node the root of the next phase. Where memory is wanting, the trie is as it was.
    pub fn push_root(&mut self, root: Node) -> Result<(), Memory>
        requires { root < length self.old.rows }
        ensures rows { self.new.rows ≡ self.old.rows }
        ensures roots { OnOk result (self.new.roots ≡ self.old.roots ++ root ∷ []) }
        ensures unchanged { OnErr result (self.new.roots ≡ self.old.roots) }
    {
        self.store.push_root(root)
    }

    /// The number of nodes.
    pub fn len(&self) -> u32
        ensures value { result ≡ length self.now.rows }
        ensures trie { IsTrie self.now }
    {
        self.store.len()
    }

    /// Whether there are no nodes.
    pub fn is_empty(&self) -> bool
        ensures { IsTrue result ↔ (self.now.rows ≡ []) }
    {
        self.store.len() == 0
    }

    /// Whether the node has deltas.
    pub fn accepts(&self, node: Node) -> bool
        requires { node < length self.now.rows }
        ensures { IsTrue result ↔ ((row_of self.now.rows node).deltas ≢ []) }
    {
        self.store.accepts(node)
    }

    /// Whether the node has neither deltas nor children.
    pub fn is_empty_row(&self, node: Node) -> bool
        requires { node < length self.now.rows }
        ensures { IsTrue result ↔ (row_of self.now.rows node ≡ empty_row) }
    {
        self.store.is_empty_row(node)
    }

    /// The number of roots.
    pub fn roots(&self) -> usize
        ensures { result ≡ length self.now.roots }
    {
        self.store.root_count()
    }

    /// The length of the longest word that can be walked from the node.
    pub fn height(&self, node: Node) -> u32
        requires { node < length self.now.rows }
        ensures { IsHeight self.now.rows node result }
    {
        self.store.height(node)
    }

    /// The trie so far, to be asked.
    pub fn store(&self) -> &Store
        ensures { result.now ≡ self.now }
    {
        &self.store
    }

    /// The trie as it was told.
    pub fn finish(self) -> Store
        ensures { result ≡ self }
    {
        let TrieSoFar { store } = self;
        store
    }
}
