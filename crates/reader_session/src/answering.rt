ghost use Rattle.std.specs.Prelude.{◌≡◌, ◌^◌, ◌<◌, length, IfOk};
ghost use Rattle.annotated_trie.specs.Searched.{IsSearchedLexicon};
ghost use Rattle.reader_session.specs.Meant.{request_meant, IsSoundRequest};
ghost use Rattle.session_definitions.specs.Replies.{IsReplyTo};
ghost use Rattle.reader_session.specs.Readings.{IsReadingOver, state_of};
ghost use Rattle.reader_session.specs.Answered.{Answered, HasShortText, opened};

use super::after::After;
use super::choice_reply::{reply_to_choice, reply_to_undo};
use super::mark_reply::reply_with_mark;
use super::page_reply::reply_with_page;
use super::reading::Reading;
use super::refusing::refuse;
use super::request::Request;
use super::resume_reply::reply_to_resume;
use super::summary_reply::reply_with_summary;
use super::tags_reply::reply_with_tags;
use super::text_reply::reply_to_text;
use annotated_trie::Lexicon;
use answer_printing::RuleTexts;
use phoneme::Memory;
use std::alloc::Global;

/// After this reply the session goes on.
fn open(
    reply: Result<Option<Box<Reading>>, Memory>,
) -> Result<(Option<Box<Reading>>, After), Memory>
    ensures { result ≡ opened reply }
{
    Ok((reply?, After::Open))
}

/// Appends the reply to a request. Answers what is read after it, if a line is, and whether the session goes on.
pub(crate) fn answer(
    alloc: Global,
    lexicon: &Lexicon,
    texts: &RuleTexts<'_>,
    old: Option<Box<Reading>>,
    request: Request<'_>,
    output: &mut Vec<u8>,
) -> Result<(Option<Box<Reading>>, After), Memory>
    requires texts { texts.now ≡ lexicon.now.lexicon.rules }
    requires lexicon { IsSearchedLexicon lexicon.now }
    requires reading { IsReadingOver lexicon.now old }
    requires sound { IsSoundRequest request }
    requires short { HasShortText request }
    ensures ok { IfOk result (Answered lexicon.now
        (IsReplyTo lexicon.now.lexicon (state_of lexicon.now.lexicon.rules old) (request_meant request.entry)) output.old.items output.new.items) }
{
    match request {
        Request::Text { scheme, text } => {
            open(reply_to_text(alloc, lexicon, old, scheme, text, output))
        }
        Request::Page { count } => {
            open(reply_with_page(alloc, lexicon, texts, old, count, output))
        }
        Request::Summary => open(reply_with_summary(alloc, lexicon, old, output)),
        Request::Choose { kept, number } => {
            open(reply_to_choice(alloc, lexicon, old, kept, number, output))
        }
        Request::Undo => open(reply_to_undo(alloc, lexicon, old, output)),
        Request::Tags { number } => open(reply_with_tags(alloc, lexicon, old, number, output)),
        Request::Mark => open(reply_with_mark(alloc, lexicon, old, output)),
        Request::Resume { mark } => open(reply_to_resume(alloc, lexicon, old, mark, output)),
        Request::NoWord => open(refuse(output, "word", old)),
        Request::Quit => {
            output.extend_from_slice(b"bye\n")?;
            Ok((old, After::Over))
        }
    }
}
