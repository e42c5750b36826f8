ghost use Rattle.std.specs.Prelude.{◌≡◌, ◌<◌, ◌^◌, ◌++◌, OnOk, string_bytes};
ghost use Rattle.text_definitions.specs.Slp1.{word_of_slp1, slp1_of_word};
ghost use Rattle.bookmark_definitions.specs.BookmarkReadings.{word_up_to};
ghost use Rattle.bookmarks.specs.Answers.{IsRead};

use crate::BookmarkError;
use latin_schemes::{SpellError, print_slp1, read_slp1};
use phoneme::{Letter, Memory, Word};
use std::alloc::Global;

/// The word that the text spells in SLP1, which has 1 letter at least and `most` at most.
pub(crate) fn read_word(alloc: Global, text: &[u8], most: usize) -> Result<Word, BookmarkError>
    requires { most < 2 ^ 32 }
    ensures { IsRead result (word_up_to most (word_of_slp1 text.now)) }
{
    if text.is_empty() || text.len() > most {
        return Err(BookmarkError::Form);
    }
    match read_slp1(alloc, text) {
        Ok(word) => Ok(word),
        Err(SpellError::Fault(_)) => Err(BookmarkError::Form),
        Err(SpellError::Memory) => Err(BookmarkError::Memory),
    }
}

/// Appends the letters in SLP1.
pub(crate) fn push_letters(
    alloc: Global,
    text: &mut String,
    letters: &[Letter],
) -> Result<(), Memory>
    ensures ok { OnOk result (string_bytes text.new ≡ string_bytes text.old ++ slp1_of_word letters.now) }
{
    let word = Word::from_slice(alloc, letters)?;
    text.push_str(print_slp1(alloc, &word)?.as_str())?;
    Ok(())
}
