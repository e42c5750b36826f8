ghost use Rattle.std.specs.Prelude.{◌≡◌};

use std::marker::Model;

/// A state of an automaton: one of its numbered states, counted from 0, or the dead state, which is apart from these and the
/// same in every automaton.
#[derive(Clone, Copy)]
pub struct State {
    number: Option<u8>,
}

impl Model for State {
    ghost use Rattle.std.specs.Prelude.{ℕ, Option};

    ghost Value = { Option ℕ };

    ghost view = { λ s. s.number };

    ghost inverse = { λ n. record { number = n } };
}

impl State {
    pub(crate) const fn numbered(number: u8) -> State
        ensures { result ≡ Some number }
    {
        State {
            number: Some(number),
        }
    }

    /// The state from which no phases lead to a word of the grammar. It is a state of every automaton.
    pub const fn dead() -> State
        ensures { result ≡ None }
    {
        State { number: None }
    }

    /// The state's number, or `None` for the dead state.
    pub const fn number(self) -> Option<u8>
        ensures { result ≡ self }
    {
        self.number
    }
}
