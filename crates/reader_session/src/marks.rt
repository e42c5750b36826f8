ghost use Rattle.std.specs.Prelude.{IfOk};
ghost use Rattle.reader_session.specs.Marks.{IsMarkRead};

use crate::reading::Reading;
use crate::request::mark_of;
use crate::resume_reply::resume;
use annotated_trie::Lexicon;
use phoneme::{Line, Memory};
use reader_choices::Choices;
use std::alloc::Global;

/// The line of a bookmark, and its choices.
#[derive(Drop)]
pub struct MarkedLine {
    pub line: Line,
    pub choices: Choices,
}

/// The line and the choices of the bookmark that the text writes. `None` exactly where a session over the lexicon refuses to resume with
/// this text.
#[tactic(auto, using(crate::proofs::ReadMarks::not_written, crate::proofs::ReadMarks::not_resumed, crate::proofs::ReadMarks::marked))]
pub fn read_mark(
    alloc: Global,
    lexicon: &Lexicon,
    text: &[u8],
) -> Result<Option<MarkedLine>, Memory>
    ensures mark { IfOk result (IsMarkRead lexicon.now.lexicon text.now) }
{
    let Some(mark) = mark_of(alloc, text)? else {
        return Ok(None);
    };
    let Some(reading) = resume(alloc, lexicon, mark)? else {
        return Ok(None);
    };
    let Reading { line, choices, .. } = reading;
    Ok(Some(MarkedLine { line, choices }))
}
