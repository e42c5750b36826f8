ghost use Rattle.std.specs.Prelude.{◌≡◌, ℕ, map};
ghost use Rattle.std.specs.Ordering.{nat_cmp, on};
ghost use Rattle.std.specs.List.Sorted.{IsStrictlySortedBy};
ghost use Rattle.shared_trie.specs.LetterSets.{letters_in};

use super::Node;
use super::letter_set::LetterSet;
use phoneme::Letter;

/// A node as it is stored. Its children stand one after another among those of all nodes.
#[derive(Clone, Copy)]
pub(crate) struct PackedNode {
    /// The letters of its children, which tell how many it has.
    pub letters: LetterSet,
    /// The place of its first child among those of all nodes.
    pub first: u32,
    /// The number of its list of deltas, counted from 1; 0 where it has none.
    pub list: u32,
}

/// The letters of these children.
pub(crate) fn letters_of(children: &[(Letter, Node)]) -> LetterSet
    requires { IsStrictlySortedBy (on (λ (child : ℕ × ℕ). child.0) nat_cmp) children.now }
    ensures { letters_in result ≡ map (λ (child : ℕ × ℕ). child.0) children.now }
{
    let mut letters = LetterSet::new();
    for child in children {
        letters = letters.with(child.0);
    }
    letters
}
