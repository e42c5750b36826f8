ghost use Rattle.std.specs.Prelude.{◌≡◌, IfOk, IfSome};
ghost use Rattle.std.specs.Option.{option_map};
ghost use Rattle.std.specs.Str.{bytes_eq};
ghost use Rattle.bookmark_definitions.specs.Bookmarks.{IsBookmark};
ghost use Rattle.bookmark_definitions.specs.BookmarkReadings.{bookmark_of_text};
ghost use Rattle.bookmarks.specs.Values.{bookmark_of};
ghost use Rattle.lexicon_text_definitions.specs.FileLines.{parts_of};
ghost use Rattle.session_definitions.specs.Requests as definitions;
ghost use Rattle.session_definitions.specs.Requests.{request_of};
ghost use Rattle.reader_session.specs.Meant.{request_meant, IsSoundRequest};
ghost use Rattle.text_line.specs.Values.{scheme_of};

use crate::cutting::word_and_rest;
use crate::item_number::item_number_of;
use bookmarks::{Bookmark, BookmarkError, read_bookmark};
use phoneme::Memory;
use session_definitions::MOST_PAGE;
use std::alloc::Global;
use text_line::{Scheme, count_up_to};

/// What a line of a session asks for. `None` stands for what could not be read: a word that is no scheme's name, a text that is no
/// number of this kind, or a text that is no bookmark.
#[derive(Drop)]
pub(crate) enum Request<'a> {
    /// `text SCHEME TEXT`: a line of text is to be read.
    Text {
        scheme: Option<Scheme>,
        text: &'a [u8],
    },
    /// `page N`: the next answers, at most so many.
    Page {
        count: Option<u32>,
    },
    /// `summary`: the items of all answers.
    Summary,
    /// `keep K` and `reject K`: the item with this number, counted from 1, is to be kept or rejected.
    Choose {
        kept: bool,
        number: Option<u32>,
    },
    /// `undo`: the newest choice is to be taken back.
    Undo,
    /// `tags K`: the analyses of the item with this number, counted from 1.
    Tags {
        number: Option<u32>,
    },
    /// `mark`: a bookmark.
    Mark,
    /// `resume B`: to go on from a bookmark.
    Resume {
        mark: Option<Box<Bookmark>>,
    },
    /// `quit`: the end.
    Quit,
    /// Any other word.
    NoWord,
}

/// The bookmark that the text writes; `None` where it is the text of no bookmark.
pub(crate) fn mark_of(alloc: Global, text: &[u8]) -> Result<Option<Bookmark>, Memory>
    ensures ok { IfOk result (λ mark. option_map bookmark_of mark ≡ bookmark_of_text text.now) }
    ensures sound { IfOk result (λ mark. IfSome mark (λ read. IsBookmark (bookmark_of read))) }
{
    match read_bookmark(alloc, text) {
        Ok(mark) => Ok(Some(mark)),
        Err(BookmarkError::Form) => Ok(None),
        Err(BookmarkError::Memory) => Err(Memory),
    }
}

/// `text SCHEME TEXT`, from what comes after `text`.
fn text_request(rest: &[u8]) -> Request<'_>
    ensures ok { request_meant result ≡ definitions.text_request (parts_of rest.now) }
    ensures sound { IsSoundRequest result }
{
    let (name, text) = word_and_rest(rest);
    Request::Text {
        scheme: Scheme::named(name),
        text,
    }
}

/// `resume B`, from what comes after `resume`. Refused only for want of memory.
fn resume_request<'a>(alloc: Global, rest: &[u8]) -> Result<Request<'a>, Memory>
    ensures ok { IfOk result (λ request. request_meant request ≡ definitions.Resume (bookmark_of_text rest.now)) }
    ensures sound { IfOk result IsSoundRequest }
{
    let mark = match mark_of(alloc, rest)? {
        Some(mark) => Some(Box::new(alloc, mark)?),
        None => None,
    };
    Ok(Request::Resume { mark })
}

/// The request, where nothing comes after its word.
fn alone<'a>(rest: &[u8], request: Request<'a>) -> Request<'a>
    ensures ok { request_meant result ≡ definitions.alone rest.now (request_meant request.entry) }
    ensures sound { IsSoundRequest request.entry → IsSoundRequest result }
{
    match rest {
        [] => request,
        [_, ..] => Request::NoWord,
    }
}

/// Whether the word has just these bytes.
fn is_word(word: &[u8], name: &[u8]) -> bool
    ensures { result ≡ bytes_eq word.now name.now }
{
    word == name
}

/// What the word asks for with this rest.
fn request_with<'a>(alloc: Global, word: &[u8], rest: &'a [u8]) -> Result<Request<'a>, Memory>
    ensures ok { IfOk result (λ request. request_meant request ≡ definitions.request_with word.now rest.now) }
    ensures sound { IfOk result IsSoundRequest }
{
    if is_word(word, b"text") {
        Ok(text_request(rest))
    } else if is_word(word, b"page") {
        let count = count_up_to(4, MOST_PAGE, rest);
        Ok(Request::Page { count })
    } else if is_word(word, b"summary") {
        Ok(alone(rest, Request::Summary))
    } else if is_word(word, b"keep") {
        let number = item_number_of(rest);
        Ok(Request::Choose { kept: true, number })
    } else if is_word(word, b"reject") {
        let number = item_number_of(rest);
        Ok(Request::Choose {
            kept: false,
            number,
        })
    } else if is_word(word, b"undo") {
        Ok(alone(rest, Request::Undo))
    } else if is_word(word, b"tags") {
        let number = item_number_of(rest);
        Ok(Request::Tags { number })
    } else if is_word(word, b"mark") {
        Ok(alone(rest, Request::Mark))
    } else if is_word(word, b"resume") {
        resume_request(alloc, rest)
    } else if is_word(word, b"quit") {
        Ok(alone(rest, Request::Quit))
    } else {
        Ok(Request::NoWord)
    }
}

/// What the line asks for: its first word, up to the first blank, and the rest after this blank (own). Refused only for want
/// of memory.
pub(crate) fn read_request<'a>(alloc: Global, line: &'a [u8]) -> Result<Request<'a>, Memory>
    ensures ok { IfOk result (λ request. request_meant request ≡ request_of line.now) }
    ensures sound { IfOk result IsSoundRequest }
{
    let (word, rest) = word_and_rest(line);
    request_with(alloc, word, rest)
}
