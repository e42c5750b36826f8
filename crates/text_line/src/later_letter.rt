ghost use Rattle.std.specs.Prelude.{◌≡◌, ◌^◌, ◌<◌, length, IfOk};
ghost use Rattle.text_definitions.specs.Schemes.{word_of_text};
ghost use Rattle.text_definitions.specs.LineTexts.{is_some_word, letter_begins, has_letter};
ghost use Rattle.text_line.specs.Values.{scheme_of};

use super::Scheme;
use latin_schemes::SpellError;
use phoneme::Memory;
use std::alloc::Global;

/// Whether there is a letter in the text, also where faults stand beside it.
pub fn has_letter(alloc: Global, scheme: Scheme, text: &[u8]) -> Result<bool, Memory>
    requires { length text.now < 2 ^ 32 }
    ensures ok { IfOk result (λ found. found ≡ has_letter (scheme_of scheme) text.now) }
{
    for at in 0..text.len() {
        if letter_begins(alloc, scheme, &text[at..])? {
            return Ok(true);
        }
    }
    Ok(false)
}

/// Whether a letter's spelling begins the text. No spelling has more than three bytes.
fn letter_begins(alloc: Global, scheme: Scheme, text: &[u8]) -> Result<bool, Memory>
    requires { length text.now < 2 ^ 32 }
    ensures ok { IfOk result (λ found. found ≡ letter_begins (scheme_of scheme) text.now) }
{
    let one = is_some_word(alloc, scheme, &text[..text.len().min(1)])?;
    let two = one || is_some_word(alloc, scheme, &text[..text.len().min(2)])?;
    Ok(two || is_some_word(alloc, scheme, &text[..text.len().min(3)])?)
}

/// Whether the text spells a word that has a letter.
fn is_some_word(alloc: Global, scheme: Scheme, text: &[u8]) -> Result<bool, Memory>
    requires { length text.now < 2 ^ 32 }
    ensures ok { IfOk result (λ found. found ≡ is_some_word (word_of_text (scheme_of scheme) text.now)) }
{
    match scheme.read_word(alloc, text) {
        Ok(word) => Ok(!word.as_slice().is_empty()),
        Err(SpellError::Fault(_)) => Ok(false),
        Err(SpellError::Memory) => Err(Memory),
    }
}
