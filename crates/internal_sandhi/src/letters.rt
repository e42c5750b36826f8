ghost use Rattle.std.specs.Prelude.{◌≡◌, ◌↔◌, IsTrue};
ghost use Rattle.text_definitions.specs.Letters.{IsLetter};
ghost use Rattle.morphology_definitions.specs.InternalSandhi.{TurnsNextSibilant, LetsSibilantTurn, KeepsSibilant, TurnsLaterNasal, LetsNasalTurn, FollowsTurningNasal};

use phoneme::{Group, Letter};

// Letters by their codes; the comment beside each has SLP1's letter.
const A: u8 = 1; // a

const LONG_A: u8 = 2; // A

pub const VOCALIC_R: u8 = 7; // f

pub const LONG_VOCALIC_R: u8 = 8; // F

pub const ANUSVARA: u8 = 14; // M

pub const VISARGA: u8 = 16; // H

pub const K: u8 = 17; // k

pub const LINGUAL_T: u8 = 27; // w

pub const LINGUAL_TH: u8 = 28; // W

pub const LINGUAL_N: u8 = 31; // R

pub const T: u8 = 32; // t

pub const TH: u8 = 33; // T

pub const N: u8 = 36; // n

pub const M: u8 = 41; // m

pub const Y: u8 = 42; // y

pub const R: u8 = 43; // r

pub const V: u8 = 45; // v

pub const LINGUAL_S: u8 = 47; // z

pub const S: u8 = 48; // s

/// The letter with this code, which is from 1 to 50.
pub fn letter(code: u8) -> Letter
    requires { IsLetter code }
    ensures { result ≡ code }
{
    Letter::new(code).unwrap()
}

/// Whether an s after this letter turns.
pub fn turns_next_sibilant(letter: Letter) -> bool
    ensures { IsTrue result ↔ TurnsNextSibilant letter }
{
    letter.is_vowel() && !matches!(letter.code(), A | LONG_A) || matches!(letter.code(), K | R)
}

/// Whether an s still turns across this letter.
pub fn lets_sibilant_turn(letter: Letter) -> bool
    ensures { IsTrue result ↔ LetsSibilantTurn letter }
{
    matches!(letter.code(), ANUSVARA | VISARGA)
}

/// Whether an s before this letter stays.
pub fn keeps_sibilant(letter: Letter) -> bool
    ensures { IsTrue result ↔ KeepsSibilant letter }
{
    matches!(letter.code(), VOCALIC_R | LONG_VOCALIC_R | R)
}

/// Whether a later n turns through this letter.
pub fn turns_later_nasal(letter: Letter) -> bool
    ensures { IsTrue result ↔ TurnsLaterNasal letter }
{
    matches!(letter.code(), VOCALIC_R | LONG_VOCALIC_R | R | LINGUAL_S)
}

/// Whether an n still turns across this letter.
pub fn lets_nasal_turn(letter: Letter) -> bool
    ensures { IsTrue result ↔ LetsNasalTurn letter }
{
    matches!(
        letter.group(),
        Group::Vowel | Group::Mark | Group::Guttural | Group::Labial | Group::Breath
    ) || matches!(letter.code(), Y | V)
}

/// Whether an n before this letter turns.
pub fn follows_turning_nasal(letter: Letter) -> bool
    ensures { IsTrue result ↔ FollowsTurningNasal letter }
{
    letter.is_vowel() || matches!(letter.code(), N | M | Y | V)
}
