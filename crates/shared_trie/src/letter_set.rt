ghost use Rattle.std.specs.Prelude.{◌≡◌, ◌≤◌, ◌↔◌, ◌⊎◌, ℕ, [], Some, length, slice_get, Contains, MatchOption};
ghost use Rattle.shared_trie.specs.LetterSets.{letters_in};

use phoneme::Letter;

/// A set of letters. Contracts see it as the rising list of its letters (`letters_in`).
#[derive(Clone, Copy)]
pub(crate) struct LetterSet {
    bits: u64,
}

impl LetterSet {
    /// The set without letters.
    pub(crate) fn new() -> LetterSet
        ensures { letters_in result ≡ [] }
    {
        LetterSet { bits: 0 }
    }

    /// The set with this letter besides.
    pub(crate) fn with(self, letter: Letter) -> LetterSet
        ensures { (other : ℕ) → Contains (letters_in result) other ↔ (Contains (letters_in self) other ⊎ (other ≡ letter)) }
    {
        LetterSet {
            bits: self.bits | (1 << letter.code()),
        }
    }

    /// The place of the letter among the letters of the set, counted from 0. `None` where the set has not the letter.
    pub(crate) fn place_of(self, letter: Letter) -> Option<u32>
        ensures { MatchOption result (Contains (letters_in self) letter → ⊥) (λ place. slice_get (letters_in self) place ≡ Some letter) }
    {
        let bit = 1u64 << letter.code();
        if self.bits & bit == 0 {
            return None;
        }
        Some((self.bits & (bit - 1)).count_ones())
    }

    /// The number of letters.
    pub(crate) fn len(self) -> u32
        ensures value { result ≡ length (letters_in self) }
        ensures few { result ≤ 64 }
    {
        self.bits.count_ones()
    }
}
