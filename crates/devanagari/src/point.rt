ghost use Rattle.std.specs.Prelude.{◌≡◌, ◌≤◌};
ghost use Rattle.text_definitions.specs.Spellings.{entry_from};
ghost use Rattle.text_definitions.specs.Devanagari.{devanagari_table, devanagari_signs, letter_or_sign, kind_of_point};
ghost use Rattle.devanagari.specs.Points.{kind_of};

use phoneme::Letter;

/// What a code point is in Devanagari.
#[derive(Clone, Copy)]
pub enum Point {
    /// U+200C or U+200D, which are passed over.
    Joiner,
    /// The sign that a consonant has no vowel.
    Virama,
    /// A vowel that stands alone, a mark, a consonant or the avagraha.
    Letter(Letter),
    /// The sign of a vowel after a consonant.
    Sign(Letter),
    /// Anything else.
    Foreign,
}

/// The code of the letter of each code point from U+0900 on, or 0 where it is no letter.
static LETTERS: [u8; 128] = [
    0, 15, 14, 16, 0, 1, 2, 3, 4, 5, 6, 7, 9, 0, 0, 10, 11, 0, 0, 12, 13, 17, 18, 19, 20, 21, 22,
    23, 24, 25, 26, 27, 28, 29, 30, 31, 32, 33, 34, 35, 36, 0, 37, 38, 39, 40, 41, 42, 43, 0, 44,
    0, 0, 45, 46, 47, 48, 49, 0, 0, 0, 50, 0, 0, 0, 0, 0, 0, 0, 0, 0, 0, 0, 0, 0, 0, 0, 0, 0, 0, 0,
    0, 0, 0, 0, 0, 0, 0, 0, 0, 0, 0, 0, 0, 0, 0, 8, 0, 0, 0, 0, 0, 0, 0, 0, 0, 0, 0, 0, 0, 0, 0, 0,
    0, 0, 0, 0, 0, 0, 0, 0, 0, 0, 0, 0, 0, 0, 0,
];

/// The code of the vowel whose sign each code point from U+0900 on is, or 0 where it is no vowel's sign.
static SIGNS: [u8; 128] = [
    0, 0, 0, 0, 0, 0, 0, 0, 0, 0, 0, 0, 0, 0, 0, 0, 0, 0, 0, 0, 0, 0, 0, 0, 0, 0, 0, 0, 0, 0, 0, 0,
    0, 0, 0, 0, 0, 0, 0, 0, 0, 0, 0, 0, 0, 0, 0, 0, 0, 0, 0, 0, 0, 0, 0, 0, 0, 0, 0, 0, 0, 0, 2, 3,
    4, 5, 6, 7, 8, 0, 0, 10, 11, 0, 0, 12, 13, 0, 0, 0, 0, 0, 0, 0, 0, 0, 0, 0, 0, 0, 0, 0, 0, 0,
    0, 0, 0, 0, 9, 0, 0, 0, 0, 0, 0, 0, 0, 0, 0, 0, 0, 0, 0, 0, 0, 0, 0, 0, 0, 0, 0, 0, 0, 0, 0, 0,
    0, 0,
];

/// What the code point is, by the tables.
#[tactic(auto, unfolding(text_definitions::specs::Devanagari::kind_of_point), using(crate::proofs::Points::foreign_below, crate::proofs::Points::foreign_above))]
pub fn point_of(point: char) -> Point
    ensures value { kind_of result ≡ kind_of_point point }
{
    match point {
        '\u{200C}' | '\u{200D}' => Point::Joiner,
        '\u{094D}' => Point::Virama,
        '\u{0900}'..='\u{097F}' => letter_or_sign(point),
        _ => Point::Foreign,
    }
}

/// What a code point of the block Devanagari is (U+0900 to U+097F), other than the virama.
#[tactic(auto, using(crate::proofs::Points::letter_in_block, crate::proofs::Points::sign_in_block))]
fn letter_or_sign(point: char) -> Point
    requires low { 0x0900 ≤ point }
    requires high { point ≤ 0x097F }
    ensures value { kind_of result
        ≡ letter_or_sign (entry_from 1 devanagari_table point) (entry_from 2 devanagari_signs point) }
{
    let place = (point as u32 - 0x0900) as usize;
    if let Some(letter) = Letter::new(LETTERS[place]) {
        Point::Letter(letter)
    } else if let Some(vowel) = Letter::new(SIGNS[place]) {
        Point::Sign(vowel)
    } else {
        Point::Foreign
    }
}
