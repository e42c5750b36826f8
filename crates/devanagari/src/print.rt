ghost use Rattle.std.specs.Prelude.{◌≡◌, ◌++◌, encode_utf8_all, OnOk, IfOk, string_bytes};
ghost use Rattle.text_definitions.specs.Devanagari.{points_of_letter, devanagari_of_word};

use super::reader::is_consonant;
use phoneme::{Letter, Memory, Word};
use std::alloc::Global;

/// The code point of each letter, by code from 1; a vowel's is the one that stands alone.
static LETTERS: [char; 50] = [
    '\u{0905}', '\u{0906}', '\u{0907}', '\u{0908}', '\u{0909}', '\u{090A}', '\u{090B}', '\u{0960}',
    '\u{090C}', '\u{090F}', '\u{0910}', '\u{0913}', '\u{0914}', '\u{0902}', '\u{0901}', '\u{0903}',
    '\u{0915}', '\u{0916}', '\u{0917}', '\u{0918}', '\u{0919}', '\u{091A}', '\u{091B}', '\u{091C}',
    '\u{091D}', '\u{091E}', '\u{091F}', '\u{0920}', '\u{0921}', '\u{0922}', '\u{0923}', '\u{0924}',
    '\u{0925}', '\u{0926}', '\u{0927}', '\u{0928}', '\u{092A}', '\u{092B}', '\u{092C}', '\u{092D}',
    '\u{092E}', '\u{092F}', '\u{0930}', '\u{0932}', '\u{0935}', '\u{0936}', '\u{0937}', '\u{0938}',
    '\u{0939}', '\u{093D}',
];

/// The sign of each vowel after a consonant, by code from 2.
static SIGNS: [char; 12] = [
    '\u{093E}', '\u{093F}', '\u{0940}', '\u{0941}', '\u{0942}', '\u{0943}', '\u{0944}', '\u{0962}',
    '\u{0947}', '\u{0948}', '\u{094B}', '\u{094C}',
];

/// The sign that a consonant has no vowel.
const VIRAMA: char = '\u{094D}';

/// The spelling of a word in Devanagari, as UTF-8. A vowel after a consonant is its sign, and a consonant with no
/// vowel after it has the virama.
#[tactic(auto, unfolding(text_definitions::specs::Devanagari::devanagari_of_word), using(crate::proofs::Letters::points_more))]
pub fn print_devanagari(alloc: Global, word: &Word) -> Result<String, Memory>
    ensures ok { IfOk result (λ text. string_bytes text ≡ devanagari_of_word word.now) }
{
    let mut text = String::new(alloc);
    let mut bare = false;
    for letter in word.as_slice() {
        push_letter(&mut text, bare, *letter)?;
        bare = is_consonant(*letter);
    }
    if bare {
        text.push(VIRAMA)?;
    }
    Ok(text)
}

/// Appends the letter, after a consonant that has no vowel yet or not.
#[tactic(auto, unfolding(text_definitions::specs::Devanagari::devanagari_table, text_definitions::specs::Devanagari::devanagari_signs))]
fn push_letter(text: &mut String, bare: bool, letter: Letter) -> Result<(), Memory>
    ensures ok { OnOk result (string_bytes text.new
        ≡ string_bytes text.old ++ encode_utf8_all (points_of_letter bare letter)) }
{
    let code = letter.code() as usize;
    if bare && letter.is_vowel() {
        if code > 1 {
            text.push(SIGNS[code - 2])?;
        }
    } else {
        if bare {
            text.push(VIRAMA)?;
        }
        text.push(LETTERS[code - 1])?;
    }
    Ok(())
}
