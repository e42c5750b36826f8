ghost use Rattle.std.specs.Prelude.{◌≡◌, ◌++◌, IfOk, OnOk, string_bytes};
ghost use Rattle.segmentation_definitions.specs.PrintedAnswers.{output_line};
ghost use Rattle.bookmark_definitions.specs.Bookmarks.{IsBookmark};
ghost use Rattle.bookmark_definitions.specs.BookmarkTexts.{text_of_bookmark};
ghost use Rattle.derivation.specs.Steps.{keys_of as step_keys, keys_meant};
ghost use Rattle.bookmarks.specs.Values.{bookmark_of};
ghost use Rattle.session_definitions.specs.Requests.{Mark};
ghost use Rattle.session_definitions.specs.Replies.{IsReplyTo};
ghost use Rattle.reader_session.specs.Readings.{IsReadingOver, GoesOn, state_of};
ghost use Rattle.reader_session.specs.Marked.{mark_of};
ghost use Rattle.annotated_trie.specs.Searched.{IsSearchedLexicon};

use super::copying::{copy_choices, copy_line};
use super::reading::Reading;
use super::refusing::refuse;
use annotated_trie::Lexicon;
use bookmarks::{Bookmark, print_bookmark};
use derivation::{Key, Step};
use phoneme::Memory;
use std::alloc::Global;

/// The keys of the steps.
fn keys_of(alloc: Global, steps: &[Step]) -> Result<Vec<Key>, Memory>
    ensures { IfOk result (λ keys. keys_meant keys.items ≡ step_keys steps.now) }
{
    let mut keys = Vec::with_capacity(alloc, steps.len())?;
    for step in steps {
        keys.push(step.key())?;
    }
    Ok(keys)
}

/// The bookmark of what is read.
fn bookmark_with(alloc: Global, reading: &Reading) -> Result<Bookmark, Memory>
    ensures ok { IfOk result (λ mark. bookmark_of mark ≡ mark_of reading.now) }
{
    Ok(Bookmark {
        line: copy_line(alloc, &reading.line)?,
        choices: copy_choices(alloc, reading.choices.list())?,
        printed: reading.printed,
        keys: keys_of(alloc, reading.last.as_slice())?,
    })
}

/// The text of the bookmark of what is read.
fn text_of_mark(alloc: Global, reading: &Reading) -> Result<String, Memory>
    requires mark { IsBookmark (mark_of reading.now) }
    ensures ok { IfOk result (λ text. string_bytes text ≡ text_of_bookmark (mark_of reading.now)) }
{
    let mark = bookmark_with(alloc, reading)?;
    print_bookmark(alloc, &mark)
}

/// Appends the text of the bookmark of what is read.
fn push_mark(alloc: Global, reading: &Reading, output: &mut Vec<u8>) -> Result<(), Memory>
    requires mark { IsBookmark (mark_of reading.now) }
    ensures ok { OnOk result (output.new.items ≡ output.old.items ++ output_line (text_of_bookmark (mark_of reading.now))) }
{
    let text = text_of_mark(alloc, reading)?;
    output.extend_from_slice(text.as_bytes())?;
    output.extend_from_slice(b"\n")?;
    Ok(())
}

/// `mark`: the text of a bookmark.
pub(crate) fn reply_with_mark(
    alloc: Global,
    lexicon: &Lexicon,
    old: Option<Box<Reading>>,
    output: &mut Vec<u8>,
) -> Result<Option<Box<Reading>>, Memory>
    requires lexicon { IsSearchedLexicon lexicon.now }
    requires reading { IsReadingOver lexicon.now old }
    ensures ok { IfOk result (GoesOn lexicon.now
        (IsReplyTo lexicon.now.lexicon (state_of lexicon.now.lexicon.rules old) Mark) output.old.items output.new.items) }
{
    let Some(reading) = old else {
        return refuse(output, "no text", None);
    };
    push_mark(alloc, &reading, output)?;
    Ok(Some(reading))
}
