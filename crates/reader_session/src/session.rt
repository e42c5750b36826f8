ghost use Rattle.std.specs.Prelude.{◌≡◌, ◌≤◌, length, IfOk};
ghost use Rattle.session_definitions.specs.Replies.{IsReply};
ghost use Rattle.session_definitions.specs.SessionLines.{line_text, without_return};
ghost use Rattle.session_definitions.specs.States.{opening};
ghost use Rattle.reader_session.specs.SessionValues.{HasReplied};

use super::after::After;
use super::answering::answer;
use super::reading::Reading;
use super::request::read_request;
use annotated_trie::Lexicon;
use answer_printing::{RuleTexts, push_refusal};
use phoneme::Memory;
use session_definitions::MOST_SESSION_LINE_BYTES;
use std::alloc::Global;
use std::marker::Model;

/// A reading session between two lines of its input (after the lean reader of Goyal and Huet 2016): the line that is read,
/// with the reader's choices, its chart, and how far its answers were printed.
#[derive(Drop)]
pub(crate) struct Session<'a> {
    lexicon: &'a Lexicon,
    texts: RuleTexts<'a>,
    reading: Option<Box<Reading>>,
}

impl<'a> Model for Session<'a> {
    ghost use Rattle.std.specs.Prelude.{◌≡◌};
    ghost use Rattle.annotated_trie.specs.Searched.{IsSearchedLexicon};
    ghost use Rattle.reader_session.specs.Readings.{IsReadingOver, state_of};
    ghost use Rattle.reader_session.specs.SessionValues.{SessionValue};

    ghost Value = { SessionValue };

    ghost view = { λ s. record { searched = s.lexicon.now; state = state_of s.lexicon.now.lexicon.rules s.reading } };

    ghost invariant = { λ s. IsSearchedLexicon s.lexicon.now × (s.texts ≡ s.lexicon.now.lexicon.rules) × IsReadingOver s.lexicon.now s.reading };
}

/// The bytes without the last one, where this is a carriage return.
fn without_return(bytes: &[u8]) -> &[u8]
    ensures { result.now ≡ without_return bytes.now }
{
    let Some((last, front)) = bytes.split_last() else {
        return bytes;
    };
    if *last == b'\r' { front } else { bytes }
}

/// What is looked at of a line: a carriage return directly before its line end is dropped, and only there.
fn text_of_line(line: &[u8], ended: bool) -> &[u8]
    ensures { result.now ≡ line_text (record { bytes = line.now; ended = ended }) }
{
    if ended { without_return(line) } else { line }
}

impl<'a> Session<'a> {
    /// A session without a line of text. Refused only for want of memory.
    pub(crate) fn new(alloc: Global, lexicon: &'a Lexicon) -> Result<Session<'a>, Memory>
        ensures ok { IfOk result (λ session. session ≡ record { searched = lexicon.now; state = opening }) }
    {
        Ok(Session {
            lexicon,
            texts: RuleTexts::new(alloc, lexicon.rules())?,
            reading: None,
        })
    }

    /// Appends the reply to a line of the input, whose bytes are given without the line end; `ended` says whether a line end
    /// comes after them. Answers how the session stands then. Refused only for want of memory.
    pub(crate) fn reply(
        &mut self,
        alloc: Global,
        line: &[u8],
        ended: bool,
        output: &mut Vec<u8>,
    ) -> Result<After, Memory>
        ensures ok { IfOk result (HasReplied (IsReply self.old.searched.lexicon self.old.state (record { bytes = line.now; ended = ended }))
            self.old self.new output.old.items output.new.items) }
    {
        if line.len() > MOST_SESSION_LINE_BYTES {
            push_refusal(output, "long line")?;
            return Ok(After::Open);
        }
        let text = text_of_line(line, ended);
        if text.is_empty() {
            return Ok(After::Open);
        }
        let request = read_request(alloc, text)?;
        let old = self.reading.take();
        let (reading, after) = answer(alloc, self.lexicon, &self.texts, old, request, output)?;
        self.reading = reading;
        Ok(after)
    }
}
