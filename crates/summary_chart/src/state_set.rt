ghost use Rattle.std.specs.Prelude.{◌≡◌, ◌<◌, ◌↔◌, ◌⊎◌, ℕ, IsTrue, MatchBool, MatchOption};
ghost use Rattle.std.specs.Bool.{OnTrue};
ghost use Rattle.summary_chart.specs.StateSets.{HasState, IsSplitInto};

/// A set of numbered states of an automaton, of which there are at most 32.
#[derive(Clone, Copy, PartialEq, Eq)]
pub(crate) struct StateSet {
    bits: u32,
}

/// A set has a bit for each state, so that numbers of states are below this one.
pub(crate) const SET_BITS: u8 = 32;

impl StateSet {
    pub(crate) const fn empty() -> StateSet
        ensures none { (number : ℕ) → HasState result number → ⊥ }
        ensures bits { result.bits ≡ 0 }
    {
        StateSet { bits: 0 }
    }

    pub(crate) fn has(self, number: u8) -> bool
        requires { number < SET_BITS }
        ensures { IsTrue result ↔ HasState self number }
    {
        (self.bits >> number) & 1 == 1
    }

    /// The set with this state besides.
    pub(crate) fn with(self, number: u8) -> StateSet
        requires { number < SET_BITS }
        ensures { (other : ℕ) → HasState result other ↔ (HasState self other ⊎ (other ≡ number)) }
    {
        StateSet {
            bits: self.bits | (1 << number),
        }
    }

    /// The states of either.
    pub(crate) fn union(self, other: StateSet) -> StateSet
        ensures { (number : ℕ) → HasState result number ↔ (HasState self number ⊎ HasState other number) }
    {
        StateSet {
            bits: self.bits | other.bits,
        }
    }

    /// The states of both.
    pub(crate) fn intersection(self, other: StateSet) -> StateSet
        ensures { (number : ℕ) → HasState result number ↔ (HasState self number × HasState other number) }
    {
        StateSet {
            bits: self.bits & other.bits,
        }
    }

    pub(crate) fn is_empty(self) -> bool
        ensures { MatchBool result ((number : ℕ) → HasState self number → ⊥) ((number : ℕ) × HasState self number) }
    {
        self.bits == 0
    }

    /// Whether the set has no two states, and is not empty.
    pub(crate) fn has_one(self) -> bool
        ensures { OnTrue result ((one other : ℕ) → HasState self one → HasState self other → one ≡ other) }
    {
        match self.split_first() {
            Some((_, others)) => others.is_empty(),
            None => false,
        }
    }

    /// The state with the least number, and the set without it; `None` where the set is empty.
    pub(crate) fn split_first(self) -> Option<(u8, StateSet)>
        ensures { MatchOption result ((number : ℕ) → HasState self number → ⊥) (λ split. IsSplitInto self split.0 split.1) }
    {
        if self.bits == 0 {
            return None;
        }
        let first = self.bits.trailing_zeros();
        let others = StateSet {
            bits: self.bits & !(1 << first),
        };
        Some((first as u8, others))
    }
}
