ghost use Rattle.std.specs.Prelude.{◌≡◌, ◌+◌, ◌<◌, ◌≤◌, ◌↔◌, ◌⊎◌, length, slice_index, IsTrue};
ghost use Rattle.morphology_definitions.specs.InternalSandhi.{FollowsTurningNasal, LetsNasalTurn, TurnsLaterNasal, TurnsNasals, letter_n};

use super::letters::{
    LINGUAL_N, N, follows_turning_nasal, lets_nasal_turn, letter, turns_later_nasal,
};
use phoneme::Letter;

/// What the letters before a place do to an n there.
#[derive(Clone, Copy)]
struct Before {
    /// The letter before is an n that turned.
    turned: bool,
    /// A letter that turns n stands before, and across all letters since then n turns.
    reached: bool,
}

impl Before {
    /// Whether the letter at a place is an n of the ending that turns.
    fn turns(self, letters: &[Letter], start: usize, place: usize) -> bool
        requires { place < length letters.now }
        ensures { IsTrue result
            ↔ ((start ≤ place) × (slice_index letters.now place ≡ letter_n)
            × (IsTrue self.turned ⊎ (IsTrue self.reached × FollowsTurningNasal (slice_index letters.now (place + 1))))) }
    {
        place >= start
            && letters[place].code() == N
            && (self.turned || self.reached && is_before_follower(letters, place))
    }

    /// Whether an n after this letter is reached.
    fn reaches_past(self, letter: Letter) -> bool
        ensures { IsTrue result ↔ (TurnsLaterNasal letter ⊎ (IsTrue self.reached × LetsNasalTurn letter)) }
    {
        turns_later_nasal(letter) || self.reached && lets_nasal_turn(letter)
    }
}

/// The third step: each n of the ending that turns becomes R. `start` is the ending's first place.
pub fn turn_nasals(letters: &mut [Letter], start: usize)
    requires { start ≤ length letters.old }
    ensures { TurnsNasals start letters.old letters.new }
{
    let mut before = Before {
        turned: false,
        reached: false,
    };
    for place in 0..letters.len() {
        let turned = before.turns(letters, start, place);
        if turned {
            letters[place] = letter(LINGUAL_N);
        }
        let reached = before.reaches_past(letters[place]);
        before = Before { turned, reached };
    }
}

fn is_before_follower(letters: &[Letter], place: usize) -> bool
    requires { place < length letters.now }
    ensures { IsTrue result ↔ FollowsTurningNasal (slice_index letters.now (place + 1)) }
{
    letters
        .get(place + 1)
        .is_some_and(|next| follows_turning_nasal(*next))
}
