ghost use Rattle.std.specs.Prelude.{◌≡◌, ◌≤◌, length};
ghost use Rattle.phase_automaton.specs.Names.{opening_position};
ghost use Rattle.phase_automaton.specs.Pieces.{IsLinked};

use super::position_set::{PositionSet, SET_BITS};

/// A position of a grammar: the phase of the name that stands there, and the positions that may come right after it.
/// Position 0 stands before all names, and its phase says nothing.
#[derive(Clone, Copy)]
pub(crate) struct Position {
    pub(crate) phase: u32,
    pub(crate) follow: PositionSet,
}

impl Position {
    /// The position before all names.
    pub(crate) const fn opening() -> Position
        ensures { result ≡ opening_position }
    {
        Position::of_phase(0)
    }

    /// A position with nothing that follows yet.
    pub(crate) const fn of_phase(phase: u32) -> Position
        ensures { result ≡ record { phase = phase; follow = record { bits = 0 } } }
    {
        Position {
            phase,
            follow: PositionSet::empty(),
        }
    }
}

/// Lets each position of the one set be followed by those of the other, besides what follows it already.
pub(crate) fn link(positions: &mut [Position], from: PositionSet, to: PositionSet)
    requires { length positions.old ≤ SET_BITS }
    ensures { IsLinked positions.old positions.new from to }
{
    for (number, position) in positions.iter_mut().enumerate() {
        if from.has(number) {
            position.follow = position.follow.union(to);
        }
    }
}
