ghost use Rattle.std.specs.Prelude.{◌≡◌, ◌≢◌, ℕ, ◌+◌, ◌*◌, ◌<◌, ◌^◌, ◌↔◌, [], ◌∷◌, ◌++◌, length, map, slice_index, All, IsTrue, IfSome, OnOk, OnErr};
ghost use Rattle.form_tags.specs.Analyses.{text_delta};
ghost use Rattle.lexicon_definitions.specs.Tries.{IsHeight, IsRow, IsTrie, child_in, empty_row, row_of};
ghost use Rattle.shared_trie.specs.Heights.{AreHeights};

use super::Node;
use super::heights::height_above;
use super::node_table::NodeTable;
use form_tags::Delta;
use outside::Steps;
use phoneme::{Letter, Memory};
use std::marker::Model;

/// The nodes of a trie with shared subtrees, each a row, and a root for each phase (Huet 2005). No two rows are the same,
/// so no two nodes stand for the same suffixes, and each child has a smaller number than its parent.
#[derive(Drop)]
pub struct Store {
    table: NodeTable,
    heights: Vec<u32>,
    roots: Vec<Node>,
}

impl Model for Store {
    ghost use Rattle.std.specs.Prelude.{◌<◌, ◌^◌, length};
    ghost use Rattle.lexicon_definitions.specs.Tries.{Trie, IsTrie};
    ghost use Rattle.shared_trie.specs.Heights.{AreHeights};

    ghost Value = { Trie };

    ghost view = { λ s. record { rows = s.table; roots = s.roots.items } };

    ghost invariant = { λ s. IsTrie (record { rows = s.table; roots = s.roots.items })
        × (length s.table < 2 ^ 32)
        × AreHeights s.table s.heights.items };
}

impl Store {
    /// The node from which the forms of the phase, counted from 0, are walked.
    pub fn root(&self, phase: u32) -> Node
        requires { phase < length self.now.roots }
        ensures value { result ≡ slice_index self.now.roots phase }
        ensures node { result < length self.now.rows }
    {
        self.roots[phase as usize]
    }

    /// The roots of all phases, in their order.
    pub fn roots(&self) -> &[Node]
        ensures value { result.now ≡ self.now.roots }
        ensures nodes { All (λ root. root < length self.now.rows) self.now.roots }
        ensures trie { IsTrie self.now }
    {
        self.roots.as_slice()
    }

    /// Where the letter leads from the node. `None` where no suffix of the node begins with it. Takes one step.
    pub fn child<L>(&self, node: Node, letter: Letter, steps: &mut Steps<L>) -> Option<Node>
        requires { node < length self.now.rows }
        ensures value { result ≡ child_in self.now.rows node letter }
        ensures before { IfSome result (λ child. child < node) }
        ensures steps { steps.new ≡ steps.old + 1 }
    {
        steps.tick();
        self.table.child(node, letter)
    }

    /// Whether a form ends at the node.
    pub fn accepts(&self, node: Node) -> bool
        requires { node < length self.now.rows }
        ensures { IsTrue result ↔ ((row_of self.now.rows node).deltas ≢ []) }
    {
        self.table.accepts(node)
    }

    /// The deltas of the forms that end at the node, rising. There are no deltas where no form ends there.
    pub fn deltas(&self, node: Node) -> &[Delta]
        requires { node < length self.now.rows }
        ensures { map text_delta result.now ≡ (row_of self.now.rows node).deltas }
    {
        self.table.deltas(node)
    }

    /// The letters that lead on from the node, rising, each with the node to which it leads. Takes one step for each, and one
    /// more.
    pub fn children<L>(&self, node: Node, steps: &mut Steps<L>) -> &[(Letter, Node)]
        requires { node < length self.now.rows }
        ensures value { result.now ≡ (row_of self.now.rows node).children }
        ensures steps { steps.new ≡ steps.old + length result.now + 1 }
    {
        let children = self.table.children(node);
        steps.tick();
        for _child in children {
            steps.tick();
        }
        children
    }

    /// The letters that lead on from the node, rising, each with the node to which it leads.
    pub fn children_of(&self, node: Node) -> &[(Letter, Node)]
        requires { node < length self.now.rows }
        ensures value { result.now ≡ (row_of self.now.rows node).children }
        ensures trie { IsTrie self.now }
    {
        self.table.children(node)
    }

    /// The length of the longest suffix of the node: 0 without children, else 1 more than the greatest height of a child.
    pub fn height(&self, node: Node) -> u32
        requires { node < length self.now.rows }
        ensures { IsHeight self.now.rows node result }
    {
        self.heights[node.number() as usize]
    }

    /// The number of nodes.
    pub fn len(&self) -> u32
        ensures value { result ≡ length self.now.rows }
        ensures trie { IsTrie self.now }
    {
        self.table.len()
    }

    /// The node with this number, counted from 0.
    pub fn node(&self, number: u32) -> Node
        requires { number < length self.now.rows }
        ensures { result ≡ number }
    {
        Node::new(number)
    }

    /// Whether the node has neither deltas nor children.
    pub(crate) fn is_empty_row(&self, node: Node) -> bool
        requires { node < length self.now.rows }
        ensures { IsTrue result ↔ (row_of self.now.rows node ≡ empty_row) }
    {
        self.table.deltas(node).is_empty() && self.table.children(node).is_empty()
    }

    /// The number of roots.
    pub(crate) fn root_count(&self) -> usize
        ensures { result ≡ length self.now.roots }
    {
        self.roots.len()
    }

    /// Adds a node with these deltas and children after all others. Where memory is wanting, the store is as it was.
    pub(crate) fn push(
        &mut self,
        deltas: Vec<Delta>,
        children: &[(Letter, Node)],
    ) -> Result<(), Memory>
        requires row { IsRow self.old.rows (length self.old.rows) (record { deltas = map text_delta deltas.items; children = children.now }) }
        requires other { All (λ row. row ≢ record { deltas = map text_delta deltas.items; children = children.now }) self.old.rows }
        requires room { 64 * (length self.old.rows + 1) < 2 ^ 32 }
        ensures rows { OnOk result (self.new.rows ≡ self.old.rows ++ record { deltas = map text_delta deltas.items; children = children.now } ∷ []) }
        ensures roots { OnOk result (self.new.roots ≡ self.old.roots) }
        ensures unchanged { OnErr result (self.new ≡ self.old) }
    {
        let height = height_above(self.heights.as_slice(), children);
        self.heights.reserve(1)?;
        self.table.push(deltas, children)?;
        let Ok(()) = self.heights.push(height) else {
            unreachable!();
        };
        Ok(())
    }

    /// Makes the node the root of the next phase. Where memory is wanting, the store is as it was.
    pub(crate) fn push_root(&mut self, root: Node) -> Result<(), Memory>
        requires { root < length self.old.rows }
        ensures rows { self.new.rows ≡ self.old.rows }
        ensures roots { OnOk result (self.new.roots ≡ self.old.roots ++ root ∷ []) }
        ensures unchanged { OnErr result (self.new.roots ≡ self.old.roots) }
    {
        self.roots.push(root)?;
        Ok(())
    }

    /// The store with these parts.
    pub(crate) fn new(table: NodeTable, heights: Vec<u32>, roots: Vec<Node>) -> Store
        requires trie { IsTrie (record { rows = table; roots = roots.items }) }
        requires size { length table < 2 ^ 32 }
        requires heights { AreHeights table heights.items }
        ensures { result ≡ record { rows = table; roots = roots.items } }
    {
        Store {
            table,
            heights,
            roots,
        }
    }
}
