ghost use Rattle.std.specs.Prelude.{◌≡◌, ◌<◌, ◌≤◌, [], ◌∷◌, ◌++◌, length, is_some, IfSome};
ghost use Rattle.latin_schemes.specs.Codes.{letter_with_code};
ghost use Rattle.more_scheme_definitions.specs.HarvardKyoto.{harvard_kyoto_letter, harvard_kyoto_front};

use phoneme::Letter;

/// The letter that the longest spelling at the front of the text spells, and the length of this spelling in bytes.
#[tactic(auto, unfolding(more_scheme_definitions::specs::HarvardKyoto::harvard_kyoto_front))]
pub fn front(text: &[u8]) -> Option<(Letter, usize)>
    ensures value { result ≡ harvard_kyoto_front text.now }
    ensures length { IfSome result (λ found. (0 < found.1) × (found.1 ≤ length text.now)) }
{
    let [first, ..] = text else {
        return None;
    };
    if let [_, second, ..] = text
        && let Some(letter) = Letter::new(pair(*first, *second))
    {
        return Some((letter, 2));
    }
    let letter = Letter::new(single(*first))?;
    Some((letter, 1))
}

/// Whether the bytes with one more after them are a spelling.
#[tactic(auto, using(more_scheme_definitions::proofs::HarvardKyotoTable::harvard_kyoto_not_lengthened))]
pub fn is_lengthened(spelling: &[u8], next: u8) -> bool
    requires { 0 < length spelling.now }
    ensures value { result ≡ is_some (harvard_kyoto_letter (spelling.now ++ next ∷ [])) }
{
    match spelling {
        [first] => Letter::new(pair(*first, next)).is_some(),
        _ => false,
    }
}

/// The code of the letter that the byte spells alone, or 0 where it spells no letter.
#[tactic(auto, unfolding(more_scheme_definitions::specs::HarvardKyoto::harvard_kyoto_letter, more_scheme_definitions::specs::HarvardKyoto::harvard_kyoto_table))]
fn single(byte: u8) -> u8
    ensures value { letter_with_code result ≡ harvard_kyoto_letter (byte ∷ []) }
{
    match byte {
        b'a' => 1,
        b'A' => 2,
        b'i' => 3,
        b'I' => 4,
        b'u' => 5,
        b'U' => 6,
        b'R' => 7,
        b'e' => 10,
        b'o' => 12,
        b'M' => 14,
        b'~' => 15,
        b'H' => 16,
        b'k' => 17,
        b'g' => 19,
        b'G' => 21,
        b'c' => 22,
        b'j' => 24,
        b'J' => 26,
        b'T' => 27,
        b'D' => 29,
        b'N' => 31,
        b't' => 32,
        b'd' => 34,
        b'n' => 36,
        b'p' => 37,
        b'b' => 39,
        b'm' => 41,
        b'y' => 42,
        b'r' => 43,
        b'l' => 44,
        b'v' => 45,
        b'z' => 46,
        b'S' => 47,
        b's' => 48,
        b'h' => 49,
        b'\'' => 50,
        _ => 0,
    }
}

/// The code of the letter that two bytes spell, or 0 where they spell no letter.
#[tactic(auto, unfolding(more_scheme_definitions::specs::HarvardKyoto::harvard_kyoto_letter, more_scheme_definitions::specs::HarvardKyoto::harvard_kyoto_table))]
fn pair(first: u8, second: u8) -> u8
    ensures value { letter_with_code result ≡ harvard_kyoto_letter (first ∷ second ∷ []) }
{
    match (first, second) {
        (b'R', b'R') => 8,
        (b'l', b'R') => 9,
        (b'a', b'i') => 11,
        (b'a', b'u') => 13,
        (b'k', b'h') => 18,
        (b'g', b'h') => 20,
        (b'c', b'h') => 23,
        (b'j', b'h') => 25,
        (b'T', b'h') => 28,
        (b'D', b'h') => 30,
        (b't', b'h') => 33,
        (b'd', b'h') => 35,
        (b'p', b'h') => 38,
        (b'b', b'h') => 40,
        _ => 0,
    }
}
