ghost use Rattle.std.specs.Prelude.{◌≡◌, ◌+◌, ◌<◌, ◌↔◌, ◌⊎◌, ℕ, IsTrue};
ghost use Rattle.trie_checks.specs.NumberSets.{HasNumber};

use std::marker::Model;

/// A set of numbers below 64. Contracts see it as the number of its bits, and ask which numbers are in it (`HasNumber`).
#[derive(Clone, Copy)]
pub(crate) struct NumberSet {
    bits: u64,
}

impl Model for NumberSet {
    ghost use Rattle.std.specs.Prelude.{ℕ};

    ghost Value = { ℕ };

    ghost view = { λ s. s.bits };

    ghost inverse = { λ n. record { bits = n } };
}

impl NumberSet {
    /// The set without numbers.
    pub(crate) fn new() -> NumberSet
        ensures { (n : ℕ) → HasNumber result n → ⊥ }
    {
        NumberSet { bits: 0 }
    }

    /// The set of all numbers below 64.
    pub(crate) fn all() -> NumberSet
        ensures { (n : ℕ) → n < 64 → HasNumber result n }
    {
        NumberSet { bits: u64::MAX }
    }

    /// The set with this number besides.
    pub(crate) fn with(self, number: u32) -> NumberSet
        requires { number < 64 }
        ensures { (n : ℕ) → HasNumber result n ↔ (HasNumber self n ⊎ (number ≡ n)) }
    {
        NumberSet {
            bits: self.bits | (1 << number),
        }
    }

    /// The numbers of either set.
    pub(crate) fn or(self, other: NumberSet) -> NumberSet
        ensures { (n : ℕ) → HasNumber result n ↔ (HasNumber self n ⊎ HasNumber other n) }
    {
        NumberSet {
            bits: self.bits | other.bits,
        }
    }

    /// The set of the numbers that are one less than those of this set.
    pub(crate) fn lowered(self) -> NumberSet
        ensures { (n : ℕ) → HasNumber result n ↔ HasNumber self (n + 1) }
    {
        NumberSet {
            bits: self.bits >> 1,
        }
    }

    /// Whether the number is in the set.
    pub(crate) fn has(self, number: u32) -> bool
        requires { number < 64 }
        ensures { IsTrue result ↔ HasNumber self number }
    {
        self.bits & (1 << number) != 0
    }
}
