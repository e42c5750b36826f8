ghost use Rattle.std.specs.Prelude.{◌<◌, ◌≤◌, ◌↔◌, length, IsTrue};
ghost use Rattle.morphology_definitions.specs.InternalSandhi.{IsAfterTurner, IsTurningSibilant, TurnsSibilants};

use super::letters::{
    LINGUAL_S, S, keeps_sibilant, lets_sibilant_turn, letter, turns_next_sibilant,
};
use phoneme::Letter;

/// The first step: each s of the ending that turns becomes z. `start` is the ending's first place.
pub fn turn_sibilants(letters: &mut [Letter], start: usize)
    requires { start ≤ length letters.old }
    ensures { TurnsSibilants start letters.old letters.new }
{
    // From right to left, so that what decides at a place has not been changed yet.
    for place in (start..letters.len()).rev() {
        if is_turning_sibilant(letters, place) {
            letters[place] = letter(LINGUAL_S);
        }
    }
}

fn is_turning_sibilant(letters: &[Letter], place: usize) -> bool
    requires { place < length letters.now }
    ensures { IsTrue result ↔ IsTurningSibilant letters.now place }
{
    letters[place].code() == S
        && place + 1 < letters.len()
        && !keeps_sibilant(letters[place + 1])
        && is_after_turner(letters, place)
}

fn is_after_turner(letters: &[Letter], place: usize) -> bool
    requires { place < length letters.now }
    ensures { IsTrue result ↔ IsAfterTurner letters.now place }
{
    match &letters[..place] {
        [.., left] if turns_next_sibilant(*left) => true,
        [.., left, mark] => lets_sibilant_turn(*mark) && turns_next_sibilant(*left),
        _ => false,
    }
}
