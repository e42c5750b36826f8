ghost use Rattle.std.specs.Prelude.{◌≡◌, ◌^◌, ◌<◌, Ok, false, length, IfOk, IfErr};
ghost use Rattle.std.specs.Str.{chars};
ghost use Rattle.text_definitions.specs.Devanagari.{word_of_devanagari, word_of_points};
ghost use Rattle.latin_schemes.specs.Faults.{IsFaultOf};

use super::reader::Reader;
use latin_schemes::{SpellError, SpellFault};
use phoneme::Word;
use std::alloc::Global;

/// The word that a text in Devanagari spells, by the Unicode block Devanagari; U+200C and U+200D are passed over.
/// `NotUtf8` where the text is not UTF-8, and else `NotLetter` or `LoneSign` at the first code point that is at fault,
/// places counted in bytes from 0.
pub fn read_devanagari(alloc: Global, text: &[u8]) -> Result<Word, SpellError>
    requires { length text.now < 2 ^ 32 }
    ensures ok { IfOk result (λ word. word_of_devanagari text.now ≡ Ok word) }
    ensures fault { IfErr result (λ error. IsFaultOf error (word_of_devanagari text.now)) }
{
    match std::str::from_utf8(text) {
        Ok(text) => read_text(alloc, text),
        Err(error) => Err(SpellFault::NotUtf8 {
            at: error.valid_up_to() as u32,
        }
        .into()),
    }
}

/// The same of a text that is UTF-8.
fn read_text(alloc: Global, text: &str) -> Result<Word, SpellError>
    requires { length text.now < 2 ^ 32 }
    ensures ok { IfOk result (λ word. word_of_points 0 false (chars text.now) ≡ Ok word) }
    ensures fault { IfErr result (λ error. IsFaultOf error (word_of_points 0 false (chars text.now))) }
{
    let mut reader = Reader::new(alloc);
    for (at, point) in text.char_indices() {
        reader.take(at as u32, point)?;
    }
    Ok(reader.finish()?)
}
