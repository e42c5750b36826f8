ghost use Rattle.std.specs.Prelude.{◌≡◌, ℕ, ◌+◌, Bool, true, Option};

use super::Entrance;
use outside::Steps;
use phase_automaton::State;

/// What keeps a search from going on in vain (own). A configuration is how many letters of the line are derived, how the next
/// form is entered, and the state of the grammar; a guide says of each configuration that it covers whether a search is to go
/// on from there. A trait knows no lexicon: the calls that take a guide ask that it is one for their lexicon, line and choices.
/// Such a guide covers every configuration within these, and never says false of one that stands in an answer.
pub trait Guide {
    ghost use Rattle.derivation.specs.declared.entrance.Entrance.{Entrance};

    /// The configurations of which it may be asked.
    ghost covers: { Self → ℕ → Entrance → Option ℕ → Type 0 };

    /// What it says of each.
    ghost says: { Self → ℕ → Entrance → Option ℕ → Bool };

    /// Whether a search is to go on from the configuration. Counts one step.
    fn live<L>(&self, at: u32, entrance: Entrance, state: State, steps: &mut Steps<L>) -> bool
        requires { covers self.now at entrance state }
        ensures ok { result ≡ says self.now at entrance state }
        ensures steps { steps.new ≡ steps.old + 1 };
}

/// The guide that always says true.
#[derive(Clone, Copy)]
pub struct OpenGuide;

impl Guide for OpenGuide {
    ghost covers = { λ _ at entrance state. Unit {0} };

    ghost says = { λ _ at entrance state. true };

    fn live<L>(&self, _at: u32, _entrance: Entrance, _state: State, steps: &mut Steps<L>) -> bool {
        steps.tick();
        true
    }
}
