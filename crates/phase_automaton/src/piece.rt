ghost use Rattle.std.specs.Prelude.{ℕ, ◌+◌, ◌<◌, ◌≤◌, List, length};
ghost use Rattle.lexicon_definitions.specs.Grammars.{Grammar, Name, Sequence, Either, AnyTimes, OnceOrMore, AtMostOnce, count_names};
ghost use Rattle.phase_automaton.specs.PositionSets.{HasPosition};
ghost use Rattle.phase_automaton.specs.Pieces.{position_at, IsPiece, IsLinked};
ghost use Rattle.phase_automaton.specs.declared.position.Position.{Position};

use super::position::{Position, link};
use super::position_set::{PositionSet, SET_BITS};

/// A part of a grammar that was read: whether it can be empty, and the positions at which it can begin and end. What follows
/// each position stands in the positions themselves.
#[derive(Clone, Copy)]
pub(crate) struct Piece {
    pub(crate) optional: bool,
    pub(crate) first: PositionSet,
    pub(crate) last: PositionSet,
}

impl Piece {
    /// The name at a position.
    pub(crate) fn name(position: usize) -> Piece
        requires { position < SET_BITS }
        ensures { (positions : List Position) → position < length positions
            → ((other : ℕ) → HasPosition (position_at positions position).follow other → ⊥)
            → IsPiece positions result (Name (position_at positions position).phase) position }
    {
        Piece {
            optional: false,
            first: PositionSet::only(position),
            last: PositionSet::only(position),
        }
    }

    /// This piece, and the next one after it.
    pub(crate) fn then(self, next: Piece, positions: &mut [Position]) -> Piece
        requires { length positions.old ≤ SET_BITS }
        ensures linked { IsLinked positions.old positions.new self.last next.first }
        ensures piece { (first second : Grammar) (from : ℕ) → IsPiece positions.old self first from
            → IsPiece positions.old next second (from + count_names first)
            → IsPiece positions.new result (Sequence first second) from }
    {
        link(positions, self.last, next.first);
        Piece {
            optional: self.optional && next.optional,
            first: self.first.union_if(self.optional, next.first),
            last: next.last.union_if(next.optional, self.last),
        }
    }

    /// Either piece.
    pub(crate) fn or(self, other: Piece) -> Piece
        ensures { (positions : List Position) (left right : Grammar) (from : ℕ) → IsPiece positions self left from
            → IsPiece positions other right (from + count_names left) → IsPiece positions result (Either left right) from }
    {
        Piece {
            optional: self.optional || other.optional,
            first: self.first.union(other.first),
            last: self.last.union(other.last),
        }
    }

    /// This piece any number of times.
    pub(crate) fn any_times(self, positions: &mut [Position]) -> Piece
        requires { length positions.old ≤ SET_BITS }
        ensures linked { IsLinked positions.old positions.new self.last self.first }
        ensures piece { (inner : Grammar) (from : ℕ) → IsPiece positions.old self inner from
            → IsPiece positions.new result (AnyTimes inner) from }
    {
        link(positions, self.last, self.first);
        Piece {
            optional: true,
            first: self.first,
            last: self.last,
        }
    }

    /// This piece at least once.
    pub(crate) fn once_or_more(self, positions: &mut [Position]) -> Piece
        requires { length positions.old ≤ SET_BITS }
        ensures linked { IsLinked positions.old positions.new self.last self.first }
        ensures piece { (inner : Grammar) (from : ℕ) → IsPiece positions.old self inner from
            → IsPiece positions.new result (OnceOrMore inner) from }
    {
        link(positions, self.last, self.first);
        self
    }

    /// This piece, or nothing.
    pub(crate) fn at_most_once(self) -> Piece
        ensures { (positions : List Position) (inner : Grammar) (from : ℕ) → IsPiece positions self inner from
            → IsPiece positions result (AtMostOnce inner) from }
    {
        Piece {
            optional: true,
            first: self.first,
            last: self.last,
        }
    }
}
