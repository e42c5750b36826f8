ghost use Rattle.std.specs.Prelude.{◌≡◌, ◌<◌, ◌≤◌, ◌↔◌, ◌⊎◌, ◌==◌, if◌then◌else◌, length, IsTrue};
ghost use Rattle.morphology_definitions.specs.InternalSandhi.{IsTurningStop, TurnsStops, letter_t, letter_T, letter_w, letter_W};

use super::letters::{LINGUAL_S, LINGUAL_T, LINGUAL_TH, T, TH, letter};
use phoneme::Letter;

/// The second step: each t and T of the ending with z before it becomes w and W. `start` is the ending's first place.
pub fn turn_stops(letters: &mut [Letter], start: usize)
    requires { start ≤ length letters.old }
    ensures { TurnsStops start letters.old letters.new }
{
    for place in start..letters.len() {
        if is_turning_stop(letters, place) {
            letters[place] = lingual_stop(letters[place]);
        }
    }
}

fn is_turning_stop(letters: &[Letter], place: usize) -> bool
    requires { place < length letters.now }
    ensures { IsTrue result ↔ IsTurningStop letters.now place }
{
    matches!(letters[place].code(), T | TH) && place > 0 && letters[place - 1].code() == LINGUAL_S
}

fn lingual_stop(stop: Letter) -> Letter
    requires { (stop ≡ letter_t) ⊎ (stop ≡ letter_T) }
    ensures { result ≡ (if stop == letter_t then letter_w else letter_W) }
{
    if stop.code() == T {
        letter(LINGUAL_T)
    } else {
        letter(LINGUAL_TH)
    }
}
