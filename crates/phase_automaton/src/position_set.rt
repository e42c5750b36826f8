ghost use Rattle.std.specs.Prelude.{◌≡◌, ℕ, ◌<◌, ◌↔◌, ◌⊎◌, IsTrue, MatchBool};
ghost use Rattle.phase_automaton.specs.PositionSets.{HasPosition};

/// A set has a bit for each position, so that positions are below this number.
pub(crate) const SET_BITS: usize = 64;

/// A set of positions of a grammar, each below the number of a set's bits.
#[derive(Clone, Copy)]
pub(crate) struct PositionSet {
    bits: u64,
}

impl PositionSet {
    pub(crate) const fn empty() -> PositionSet
        ensures none { (position : ℕ) → HasPosition result position → ⊥ }
        ensures bits { result.bits ≡ 0 }
    {
        PositionSet { bits: 0 }
    }

    /// The set of one position.
    pub(crate) fn only(position: usize) -> PositionSet
        requires { position < SET_BITS }
        ensures { (other : ℕ) → HasPosition result other ↔ (other ≡ position) }
    {
        PositionSet {
            bits: 1 << position,
        }
    }

    pub(crate) fn has(self, position: usize) -> bool
        requires { position < SET_BITS }
        ensures { IsTrue result ↔ HasPosition self position }
    {
        (self.bits >> position) & 1 == 1
    }

    pub(crate) fn is_empty(self) -> bool
        ensures { MatchBool result ((position : ℕ) → HasPosition self position → ⊥)
            ((position : ℕ) × HasPosition self position) }
    {
        self.bits == 0
    }

    /// The positions of either.
    pub(crate) fn union(self, other: PositionSet) -> PositionSet
        ensures { (position : ℕ) → HasPosition result position ↔ (HasPosition self position ⊎ HasPosition other position) }
    {
        PositionSet {
            bits: self.bits | other.bits,
        }
    }

    /// The positions of this set, and where the condition holds those of the other.
    pub(crate) fn union_if(self, condition: bool, other: PositionSet) -> PositionSet
        ensures { (position : ℕ) → HasPosition result position
            ↔ (HasPosition self position ⊎ (IsTrue condition × HasPosition other position)) }
    {
        if condition { self.union(other) } else { self }
    }

    /// Whether the two have a position in common.
    pub(crate) fn meets(self, other: PositionSet) -> bool
        ensures { IsTrue result ↔ ((position : ℕ) × HasPosition self position × HasPosition other position) }
    {
        self.bits & other.bits != 0
    }

    /// Whether the two have the same positions.
    pub(crate) fn same(self, other: PositionSet) -> bool
        ensures { IsTrue result ↔ (self ≡ other) }
    {
        self.bits == other.bits
    }
}
