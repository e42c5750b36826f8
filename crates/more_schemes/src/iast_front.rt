ghost use Rattle.std.specs.Prelude.{◌≡◌, ◌<◌, ◌≤◌, [], ◌∷◌, ◌++◌, length, is_some, IfSome};
ghost use Rattle.latin_schemes.specs.Codes.{letter_with_code};
ghost use Rattle.more_scheme_definitions.specs.Iast.{iast_letter, iast_front};

use phoneme::Letter;

/// The letter that the longest spelling at the front of the text spells, and the length of this spelling in bytes.
#[tactic(auto, unfolding(more_scheme_definitions::specs::Iast::iast_front))]
pub fn front(text: &[u8]) -> Option<(Letter, usize)>
    ensures value { result ≡ iast_front text.now }
    ensures length { IfSome result (λ found. (0 < found.1) × (found.1 ≤ length text.now)) }
{
    let [first, ..] = text else {
        return None;
    };
    if let [_, second, third, fourth, ..] = text
        && let Some(letter) = Letter::new(quadruple(*first, *second, *third, *fourth))
    {
        return Some((letter, 4));
    }
    if let [_, second, third, ..] = text
        && let Some(letter) = Letter::new(triple(*first, *second, *third))
    {
        return Some((letter, 3));
    }
    if let [_, second, ..] = text
        && let Some(letter) = Letter::new(pair(*first, *second))
    {
        return Some((letter, 2));
    }
    let letter = Letter::new(single(*first))?;
    Some((letter, 1))
}

/// Whether the bytes with one more after them are a spelling.
#[tactic(auto, using(more_scheme_definitions::proofs::IastTable::iast_not_lengthened))]
pub fn is_lengthened(spelling: &[u8], next: u8) -> bool
    requires { 0 < length spelling.now }
    ensures value { result ≡ is_some (iast_letter (spelling.now ++ next ∷ [])) }
{
    match spelling {
        [first] => Letter::new(pair(*first, next)).is_some(),
        [first, second] => Letter::new(triple(*first, *second, next)).is_some(),
        [first, second, third] => {
            Letter::new(quadruple(*first, *second, *third, next)).is_some()
        }
        _ => false,
    }
}

/// The code of the letter that the byte spells alone, or 0 where it spells no letter.
#[tactic(auto, unfolding(more_scheme_definitions::proofs::IastTable::iast_bytes))]
fn single(byte: u8) -> u8
    ensures value { letter_with_code result ≡ iast_letter (byte ∷ []) }
{
    match byte {
        b'a' => 1,
        b'i' => 3,
        b'u' => 5,
        b'e' => 10,
        b'o' => 12,
        b'~' => 15,
        b'k' => 17,
        b'g' => 19,
        b'c' => 22,
        b'j' => 24,
        b't' => 32,
        b'd' => 34,
        b'n' => 36,
        b'p' => 37,
        b'b' => 39,
        b'm' => 41,
        b'y' => 42,
        b'r' => 43,
        b'l' => 44,
        b'v' => 45,
        b's' => 48,
        b'h' => 49,
        b'\'' => 50,
        _ => 0,
    }
}

/// The code of the letter that two bytes spell, or 0 where they spell no letter.
#[tactic(auto, unfolding(more_scheme_definitions::proofs::IastTable::iast_bytes))]
fn pair(first: u8, second: u8) -> u8
    ensures value { letter_with_code result ≡ iast_letter (first ∷ second ∷ []) }
{
    match (first, second) {
        (0xC4, 0x81) => 2, // ā
        (0xC4, 0xAB) => 4, // ī
        (0xC5, 0xAB) => 6, // ū
        (b'a', b'i') => 11,
        (b'a', b'u') => 13,
        (b'k', b'h') => 18,
        (b'g', b'h') => 20,
        (b'c', b'h') => 23,
        (b'j', b'h') => 25,
        (0xC3, 0xB1) => 26, // ñ
        (b't', b'h') => 33,
        (b'd', b'h') => 35,
        (b'p', b'h') => 38,
        (b'b', b'h') => 40,
        (0xC5, 0x9B) => 46, // ś
        _ => 0,
    }
}

/// The code of the letter that three bytes spell, or 0 where they spell no letter.
#[tactic(auto, unfolding(more_scheme_definitions::proofs::IastTable::iast_bytes))]
fn triple(first: u8, second: u8, third: u8) -> u8
    ensures value { letter_with_code result ≡ iast_letter (first ∷ second ∷ third ∷ []) }
{
    match (first, second, third) {
        (0xE1, 0xB9, 0x9B) => 7, // ṛ
        (0xE1, 0xB9, 0x9D) => 8, // ṝ
        (0xE1, 0xB8, 0xB7) => 9, // ḷ
        (0xE1, 0xB9, 0x83) => 14, // ṃ
        (0xE1, 0xB8, 0xA5) => 16, // ḥ
        (0xE1, 0xB9, 0x85) => 21, // ṅ
        (0xE1, 0xB9, 0xAD) => 27, // ṭ
        (0xE1, 0xB8, 0x8D) => 29, // ḍ
        (0xE1, 0xB9, 0x87) => 31, // ṇ
        (0xE1, 0xB9, 0xA3) => 47, // ṣ
        _ => 0,
    }
}

/// The code of the letter that four bytes spell, or 0 where they spell no letter.
#[tactic(auto, unfolding(more_scheme_definitions::proofs::IastTable::iast_bytes))]
fn quadruple(first: u8, second: u8, third: u8, fourth: u8) -> u8
    ensures value { letter_with_code result ≡ iast_letter (first ∷ second ∷ third ∷ fourth ∷ []) }
{
    match (first, second, third, fourth) {
        (0xE1, 0xB9, 0xAD, b'h') => 28, // ṭh
        (0xE1, 0xB8, 0x8D, b'h') => 30, // ḍh
        _ => 0,
    }
}
