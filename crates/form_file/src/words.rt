ghost use Rattle.std.specs.Prelude.{◌≡◌, ◌<◌, ◌^◌, length, Some, Ok, IfOk, IfSome};
ghost use Rattle.text_definitions.specs.Slp1.{word_of_slp1};
ghost use Rattle.lexicon_text_definitions.specs.FileSteps.{one_letter, some_word};
ghost use Rattle.form_file.specs.Words.{IsRead, IsSpelled, BeginsWithWord};

use crate::FileWhy;
use crate::take_error::TakeError;
use latin_schemes::{SpellError, read_slp1_front_over, read_slp1_over};
use phoneme::{Letter, Memory, Word};
use std::alloc::Global;
use std::mem;

/// The word that the bytes spell in SLP1.
pub fn read_word(alloc: Global, text: &[u8]) -> Result<Word, TakeError>
    requires { length text.now < 2 ^ 32 }
    ensures { IsSpelled (word_of_slp1 text.now) result }
{
    read_word_over(Word::new(alloc), text)
}

/// The same, in the memory of another word.
fn read_word_over(word: Word, text: &[u8]) -> Result<Word, TakeError>
    requires { length text.now < 2 ^ 32 }
    ensures { IsSpelled (word_of_slp1 text.now) result }
{
    match read_slp1_over(word, text) {
        Ok(word) => Ok(word),
        Err(SpellError::Fault(_)) => Err(FileWhy::Spelling.into()),
        Err(SpellError::Memory) => Err(TakeError::Memory),
    }
}

/// The word that the bytes spell in SLP1, which has some letter, in the memory of another word.
pub(crate) fn read_some_word_over(word: Word, text: &[u8]) -> Result<Word, TakeError>
    requires { length text.now < 2 ^ 32 }
    ensures { IsRead (some_word (word_of_slp1 text.now)) result }
{
    let word = read_word_over(word, text)?;
    if word.is_empty() {
        return Err(FileWhy::Spelling.into());
    }
    Ok(word)
}

/// Reads into the word, in its memory, the letters with which the text begins in SLP1, and gives what comes after the blank that ends them.
/// `None` where the text begins with no letter, or no blank comes after its letters; then nothing is known of the word.
pub(crate) fn read_word_before_blank<'a>(
    alloc: Global,
    word: &mut Word,
    text: &'a [u8],
) -> Result<Option<&'a [u8]>, Memory>
    ensures { IfOk result (λ found. IfSome found (λ rest. BeginsWithWord text.now word.new rest.now)) }
{
    let room = mem::replace(word, Word::new(alloc));
    let (front, count) = read_slp1_front_over(room, text)?;
    *word = front;
    if word.is_empty() || count >= text.len() || text[count] != b' ' {
        return Ok(None);
    }
    Ok(Some(&text[count + 1..]))
}

/// The one letter that the bytes spell in SLP1.
pub(crate) fn read_letter(alloc: Global, text: &[u8]) -> Result<Letter, TakeError>
    requires { length text.now < 2 ^ 32 }
    ensures { IsRead (one_letter (word_of_slp1 text.now)) result }
{
    let word = read_word(alloc, text)?;
    match word.as_slice() {
        [letter] => Ok(*letter),
        _ => Err(FileWhy::Spelling.into()),
    }
}
