ghost use Rattle.std.specs.Prelude.{◌≡◌, ◌<◌, [], ◌∷◌, ◌++◌, Contains, IfOk, OnOk};
ghost use Rattle.shared_trie.specs.CanonicalNodes.{number_in};

use super::Node;
use phoneme::Memory;
use std::alloc::Global;
use std::marker::Model;

/// Nodes in an order, and the place of each among them, which is its number in a lexicon file.
#[derive(Drop)]
pub struct NodeNumbers {
    nodes: Vec<Node>,
    /// The number of each node that has one, by the node's number in the store.
    numbers: Vec<usize>,
}

impl Model for NodeNumbers {
    ghost use Rattle.std.specs.Prelude.{length};
    ghost use Rattle.shared_trie.specs.CanonicalNodes.{AreNumbered, Numbered};

    ghost Value = { Numbered };

    ghost view = { λ n. record { count = length n.numbers.items; nodes = n.nodes.items } };

    ghost invariant = { λ n. AreNumbered n.nodes.items n.numbers.items };
}

impl NodeNumbers {
    /// No nodes, of a store with so many.
    pub(crate) fn new(alloc: Global, count: u32) -> Result<NodeNumbers, Memory>
        ensures ok { IfOk result (λ numbers. numbers ≡ record { count = count; nodes = [] }) }
    {
        Ok(NodeNumbers {
            nodes: Vec::new(alloc),
            numbers: Vec::from_elem(alloc, 0, count as usize)?,
        })
    }

    /// Gives the node the next number.
    pub(crate) fn push(&mut self, node: Node) -> Result<(), Memory>
        requires there { node < self.old.count }
        requires new { Contains self.old.nodes node → ⊥ }
        ensures count { self.new.count ≡ self.old.count }
        ensures ok { OnOk result (self.new.nodes ≡ self.old.nodes ++ node ∷ []) }
    {
        let number = self.nodes.len();
        self.nodes.push(node)?;
        self.numbers[node.number() as usize] = number;
        Ok(())
    }

    /// The number of the node, counted from 0.
    pub fn number_of(&self, node: Node) -> usize
        requires { Contains self.now.nodes node }
        ensures { result ≡ number_in self.now.nodes node }
    {
        self.numbers[node.number() as usize]
    }

    /// The nodes, by their numbers.
    pub fn nodes(&self) -> &[Node]
        ensures { result.now ≡ self.now.nodes }
    {
        self.nodes.as_slice()
    }

    /// The nodes, by their numbers.
    pub(crate) fn into_nodes(self) -> Vec<Node>
        ensures { result.items ≡ self.nodes }
    {
        let NodeNumbers { nodes, numbers: _ } = self;
        nodes
    }
}
