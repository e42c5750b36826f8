ghost use Rattle.std.specs.Prelude.{◌≡◌, ◌≢◌, ◌+◌, ◌*◌, ◌<◌, ◌≤◌, ◌^◌, ◌↔◌, ℕ, [], ◌∷◌, ◌++◌, length, map, vec_len, vec_capacity, IsTrue, IfOk, OnOk, OnErr};
ghost use Rattle.std.specs.Ordering.{nat_cmp, on};
ghost use Rattle.std.specs.List.Sorted.{IsStrictlySortedBy};
ghost use Rattle.form_tags.specs.Analyses.{text_delta};
ghost use Rattle.lexicon_definitions.specs.Tries.{child_in, row_of};
ghost use Rattle.shared_trie.specs.Packed.{ArePacked, row_with};

use super::Node;
use super::delta_lists::number_list;
use super::letter_set::LetterSet;
use super::packed_node::{PackedNode, letters_of};
use form_tags::Delta;
use indexmap::IndexSet;
use phoneme::{Letter, Memory};
use std::alloc::Global;
use std::marker::Model;

/// The rows of nodes, packed: small nodes in one array, the children of all in another, and each list of deltas once.
#[derive(Drop)]
pub(crate) struct NodeTable {
    nodes: Vec<PackedNode>,
    children: Vec<(Letter, Node)>,
    /// The nodes of `children`, in the same order, which a walk looks at alone, since they take half the memory.
    targets: Vec<Node>,
    lists: IndexSet<Vec<Delta>>,
}

impl Model for NodeTable {
    ghost use Rattle.std.specs.Prelude.{List, map};
    ghost use Rattle.lexicon_definitions.specs.Tries.{Row};
    ghost use Rattle.shared_trie.specs.Packed.{IsTable, row_with};

    ghost Value = { List Row };

    ghost view = { λ t. map (row_with t.children.items t.lists.keys) t.nodes.items };

    ghost invariant = { λ t. IsTable t.children.items t.targets.items t.lists.keys t.nodes.items };
}

/// Adds the nodes of these children after all others, for which there is room.
fn push_targets(targets: &mut Vec<Node>, children: &[(Letter, Node)])
    requires room { vec_len targets.old + length children.now ≤ vec_capacity targets.old }
    ensures { targets.new.items ≡ targets.old.items ++ map (λ (child : ℕ × ℕ). child.1) children.now }
{
    for child in children {
        let Ok(()) = targets.push(child.1) else {
            unreachable!();
        };
    }
}

/// The nodes of these children, in their order.
fn targets_of(alloc: Global, children: &[(Letter, Node)]) -> Result<Vec<Node>, Memory>
    ensures { IfOk result (λ targets. targets.items ≡ map (λ (child : ℕ × ℕ). child.1) children.now) }
{
    let mut targets = Vec::with_capacity(alloc, children.len())?;
    push_targets(&mut targets, children);
    Ok(targets)
}

impl NodeTable {
    /// A table without nodes. Takes no memory.
    pub(crate) fn new(alloc: Global) -> NodeTable
        ensures { result ≡ [] }
    {
        NodeTable {
            nodes: Vec::new(alloc),
            children: Vec::new(alloc),
            targets: Vec::new(alloc),
            lists: IndexSet::new(alloc),
        }
    }

    /// The table of these nodes, whose children stand one after another, and whose lists of deltas have numbers from 1 on.
    pub(crate) fn with_parts(
        alloc: Global,
        nodes: Vec<PackedNode>,
        children: Vec<(Letter, Node)>,
        lists: IndexSet<Vec<Delta>>,
    ) -> Result<NodeTable, Memory>
        requires { ArePacked children.items lists.keys nodes.items }
        ensures { IfOk result (λ table. table ≡ map (row_with children.items lists.keys) nodes.items) }
    {
        let targets = targets_of(alloc, children.as_slice())?;
        Ok(NodeTable {
            nodes,
            children,
            targets,
            lists,
        })
    }

    /// Adds a node with these deltas and children after all others. Where memory is wanting, the rows are as they were.
    pub(crate) fn push(
        &mut self,
        deltas: Vec<Delta>,
        children: &[(Letter, Node)],
    ) -> Result<(), Memory>
        requires rising { IsStrictlySortedBy (on (λ (child : ℕ × ℕ). child.0) nat_cmp) children.now }
        requires room { 64 * (length self.old + 1) < 2 ^ 32 }
        ensures ok { OnOk result (self.new ≡ self.old ++ record { deltas = map text_delta deltas.items; children = children.now } ∷ []) }
        ensures unchanged { OnErr result (self.new ≡ self.old) }
    {
        self.nodes.reserve(1)?;
        self.children.reserve(children.len())?;
        self.targets.reserve(children.len())?;
        let node = PackedNode {
            letters: letters_of(children),
            first: self.children.len() as u32,
            list: number_list(&mut self.lists, deltas)?,
        };
        // There is room for all, so that no want of memory comes between them.
        let Ok(()) = self.children.extend_from_slice(children) else {
            unreachable!();
        };
        push_targets(&mut self.targets, children);
        let Ok(()) = self.nodes.push(node) else {
            unreachable!();
        };
        Ok(())
    }

    /// The number of nodes.
    pub(crate) fn len(&self) -> u32
        requires { length self.now < 2 ^ 32 }
        ensures { result ≡ length self.now }
    {
        self.nodes.len() as u32
    }

    /// The children of the node, rising by their letters.
    pub(crate) fn children(&self, node: Node) -> &[(Letter, Node)]
        requires { node < length self.now }
        ensures { result.now ≡ (row_of self.now node).children }
    {
        let packed = &self.nodes[node.number() as usize];
        let first = packed.first as usize;
        &self.children[first..first + packed.letters.len() as usize]
    }

    /// Where the letter leads from the node.
    pub(crate) fn child(&self, node: Node, letter: Letter) -> Option<Node>
        requires { node < length self.now }
        ensures { result ≡ child_in self.now node letter }
    {
        let packed = &self.nodes[node.number() as usize];
        let place = packed.letters.place_of(letter)?;
        Some(self.targets[packed.first as usize + place as usize])
    }

    /// The deltas of the node, rising.
    pub(crate) fn deltas(&self, node: Node) -> &[Delta]
        requires { node < length self.now }
        ensures { map text_delta result.now ≡ (row_of self.now node).deltas }
    {
        let list = self.nodes[node.number() as usize].list;
        if list == 0 {
            return &[];
        }
        self.lists.as_slice()[list as usize - 1].as_slice()
    }

    /// Whether the node has deltas.
    pub(crate) fn accepts(&self, node: Node) -> bool
        requires { node < length self.now }
        ensures { IsTrue result ↔ ((row_of self.now node).deltas ≢ []) }
    {
        self.nodes[node.number() as usize].list != 0
    }
}
