ghost use Rattle.std.specs.Prelude.{◌≡◌, ◌<◌, ◌≤◌, [], ◌∷◌, ◌++◌, length, is_some, IfSome};
ghost use Rattle.text_definitions.specs.Velthuis.{velthuis_letter, velthuis_front};
ghost use Rattle.latin_schemes.specs.Codes.{letter_with_code};

use phoneme::Letter;

/// The letter that the longest spelling at the front of the text spells, and the length of this spelling in bytes.
#[tactic(auto, unfolding(text_definitions::specs::Velthuis::velthuis_front))]
pub fn front(text: &[u8]) -> Option<(Letter, usize)>
    ensures value { result ≡ velthuis_front text.now }
    ensures length { IfSome result (λ found. (0 < found.1) × (found.1 ≤ length text.now)) }
{
    let [first, ..] = text else {
        return None;
    };
    if let [_, second, third, ..] = text
        && let Some(letter) = Letter::new(triple(*first, *second, *third))
    {
        return Some((letter, 3));
    }
    if let [_, second, ..] = text
        && let Some(letter) = Letter::new(pair(*first, *second))
    {
        return Some((letter, 2));
    }
    let letter = Letter::new(single(*first))?;
    Some((letter, 1))
}

/// Whether the bytes with one more after them are a spelling.
#[tactic(auto, using(text_definitions::proofs::VelthuisTable::not_lengthened))]
pub fn is_lengthened(spelling: &[u8], next: u8) -> bool
    requires { 0 < length spelling.now }
    ensures value { result ≡ is_some (velthuis_letter (spelling.now ++ next ∷ [])) }
{
    match spelling {
        [first] => Letter::new(pair(*first, next)).is_some(),
        [first, second] => Letter::new(triple(*first, *second, next)).is_some(),
        _ => false,
    }
}

/// The code of the letter that the byte spells alone, or 0 where it spells no letter.
#[tactic(auto, unfolding(text_definitions::specs::Velthuis::velthuis_letter, text_definitions::specs::Velthuis::velthuis_table, text_definitions::specs::Velthuis::velthuis_capital))]
fn single(byte: u8) -> u8
    ensures value { letter_with_code result ≡ velthuis_letter (byte ∷ []) }
{
    match byte {
        b'a' => 1,
        b'A' => 2,
        b'i' => 3,
        b'I' => 4,
        b'u' => 5,
        b'U' => 6,
        b'e' => 10,
        b'o' => 12,
        b'k' => 17,
        b'g' => 19,
        b'c' => 22,
        b'j' => 24,
        b't' => 32,
        b'd' => 34,
        b'n' => 36,
        b'p' => 37,
        b'b' => 39,
        b'm' => 41,
        b'y' => 42,
        b'r' => 43,
        b'l' => 44,
        b'v' => 45,
        b's' => 48,
        b'h' => 49,
        _ => 0,
    }
}

/// The code of the letter that two bytes spell, or 0 where they spell no letter.
#[tactic(auto, unfolding(text_definitions::specs::Velthuis::velthuis_letter, text_definitions::specs::Velthuis::velthuis_table, text_definitions::specs::Velthuis::velthuis_capital))]
fn pair(first: u8, second: u8) -> u8
    ensures value { letter_with_code result ≡ velthuis_letter (first ∷ second ∷ []) }
{
    match (first, second) {
        (b'a', b'a') => 2,
        (b'i', b'i') => 4,
        (b'u', b'u') => 6,
        (b'.', b'r') => 7,
        (b'.', b'l') => 9,
        (b'a', b'i') => 11,
        (b'a', b'u') => 13,
        (b'.', b'm') => 14,
        (b'~', b'm') => 15,
        (b'.', b'h') => 16,
        (b'k', b'h') => 18,
        (b'g', b'h') => 20,
        (b'"', b'n') => 21,
        (b'c', b'h') => 23,
        (b'j', b'h') => 25,
        (b'~', b'n') => 26,
        (b'.', b't') => 27,
        (b'.', b'd') => 29,
        (b'.', b'n') => 31,
        (b't', b'h') => 33,
        (b'd', b'h') => 35,
        (b'p', b'h') => 38,
        (b'b', b'h') => 40,
        (b'"', b's') => 46,
        (b'.', b's') => 47,
        (b'.', b'a') => 50,
        _ => 0,
    }
}

/// The code of the letter that three bytes spell, or 0 where they spell no letter.
#[tactic(auto, unfolding(text_definitions::specs::Velthuis::velthuis_letter, text_definitions::specs::Velthuis::velthuis_table, text_definitions::specs::Velthuis::velthuis_capital))]
fn triple(first: u8, second: u8, third: u8) -> u8
    ensures value { letter_with_code result ≡ velthuis_letter (first ∷ second ∷ third ∷ []) }
{
    match (first, second, third) {
        (b'.', b'r', b'r') => 8,
        (b'.', b't', b'h') => 28,
        (b'.', b'd', b'h') => 30,
        _ => 0,
    }
}
