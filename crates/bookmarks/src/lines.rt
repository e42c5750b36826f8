ghost use Rattle.std.specs.Prelude.{◌≡◌, ◌≤◌, ◌++◌, length, IfOk, OnOk, string_bytes};
ghost use Rattle.bookmark_definitions.specs.BookmarkReadings.{line_of};
ghost use Rattle.bookmark_definitions.specs.BookmarkTexts.{text_of_line};
ghost use Rattle.bookmarks.specs.Answers.{IsRead};
ghost use Rattle.bookmarks.specs.Parts.{blank_after};

use crate::BookmarkError;
use crate::words::{push_letters, read_word};
use phoneme::{Line, Memory, Word};
use std::alloc::Global;
use text_definitions::MOST_LINE_LETTERS;

/// Appends the blank before the word that comes after these letters, where it is not the first word.
fn push_blank(blanks: &mut Vec<u32>, letters: &Word) -> Result<(), Memory>
    requires { length letters.now ≤ MOST_LINE_LETTERS }
    ensures ok { OnOk result (blanks.new.items ≡ blanks.old.items ++ blank_after letters.now) }
{
    if !letters.is_empty() {
        blanks.push(letters.len() as u32)?;
    }
    Ok(())
}

/// The line that a text writes: words in SLP1, with one `_` between each two (own format). Refused with `Form` where it writes none.
pub fn read_line(alloc: Global, text: &[u8]) -> Result<Line, BookmarkError>
    ensures { IsRead result (line_of text.now) }
{
    let mut letters = Word::new(alloc);
    let mut blanks = Vec::new(alloc);
    for piece in text.split(|byte| *byte == b'_') {
        let word = read_word(alloc, piece, MOST_LINE_LETTERS)?;
        push_blank(&mut blanks, &letters)?;
        letters.extend_from_slice(word.as_slice())?;
        if letters.len() > MOST_LINE_LETTERS {
            return Err(BookmarkError::Form);
        }
    }
    Ok(Line { letters, blanks })
}

/// The text of a line: its letters in SLP1, with `_` at each blank (own format). Refused only for want of memory.
pub fn print_line(alloc: Global, line: &Line) -> Result<String, Memory>
    ensures ok { IfOk result (λ text. string_bytes text ≡ text_of_line line.now) }
{
    let letters = line.letters.as_slice();
    let mut text = String::new(alloc);
    let mut start = 0;
    for blank in &line.blanks {
        let end = *blank as usize;
        push_letters(alloc, &mut text, &letters[start..end])?;
        text.push('_')?;
        start = end;
    }
    push_letters(alloc, &mut text, &letters[start..])?;
    Ok(text)
}
