ghost use Rattle.std.specs.Prelude.{◌≡◌, IsPermutation, IsSortedByKey};
ghost use Rattle.std.specs.Ordering.{nat_cmp};
ghost use Rattle.std.specs.Cmp.Lexicographic.{slice_cmp};
ghost use Rattle.shared_trie.specs.CanonicalNodes.{NodeText};

use super::Node;
use std::cmp::Ordering;
use std::marker::Model;

/// A node with its line in a lexicon file.
#[derive(Drop)]
pub(crate) struct PlacedLine {
    node: Node,
    bytes: Vec<u8>,
}

impl Model for PlacedLine {
    ghost use Rattle.shared_trie.specs.CanonicalNodes.{NodeText};

    ghost Value = { NodeText };

    ghost view = { λ l. record { node = l.node; bytes = l.bytes.items } };
}

impl PlacedLine {
    pub(crate) fn new(node: Node, bytes: Vec<u8>) -> PlacedLine
        ensures { result ≡ record { node = node; bytes = bytes.items } }
    {
        PlacedLine { node, bytes }
    }

    pub(crate) fn node(&self) -> Node
        ensures { result ≡ self.now.node }
    {
        self.node
    }

    /// The order of lines, byte by byte.
    fn compare(&self, other: &PlacedLine) -> Ordering
        ensures { result ≡ slice_cmp nat_cmp self.now.bytes other.now.bytes }
    {
        self.bytes.as_slice().cmp(&other.bytes.as_slice())
    }
}

pub(crate) fn sort_lines(lines: &mut [PlacedLine])
    ensures permutation { IsPermutation lines.old lines.new }
    ensures sorted { IsSortedByKey (λ (line : NodeText). line.bytes) (slice_cmp nat_cmp) lines.new }
{
    lines.sort_unstable_by(|left, right| left.compare(right));
}
