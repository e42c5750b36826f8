ghost use Rattle.std.specs.Prelude.{◌≡◌, ◌^◌, ◌<◌, ◌++◌, [], length, codes, Some, IfOk, OnOk};
ghost use Rattle.std.specs.Option.{option_map};
ghost use Rattle.text_line.specs.Values.{scheme_of};
ghost use Rattle.segmentation_definitions.specs.PrintedAnswers.{output_line};
ghost use Rattle.session_definitions.specs.States.{fresh};
ghost use Rattle.session_definitions.specs.Requests.{Text};
ghost use Rattle.session_definitions.specs.Replies.{IsReplyTo};
ghost use Rattle.reader_session.specs.Readings.{IsReading, IsReadingOver, GoesOn, state_with, state_of};

use super::reading::Reading;
use super::refusing::{push_ok, refuse};
use annotated_trie::Lexicon;
use answer_printing::push_text_refusal;
use phoneme::{Line, Memory};
use reader_choices::Choices;
use std::alloc::Global;
use text_line::{Scheme, read_line};

/// Reads the line without choices, in the memory of what was read before, where something was.
fn read_on(
    alloc: Global,
    lexicon: &Lexicon,
    old: Option<Box<Reading>>,
    line: Line,
) -> Result<Box<Reading>, Memory>
    requires { IsReadingOver lexicon.now old }
    ensures reading { IfOk result (λ reading. IsReading lexicon.now reading.value) }
    ensures state { IfOk result (λ reading. state_with lexicon.now.lexicon.rules reading.value ≡ fresh (Some line) []) }
{
    let choices = Choices::new(alloc);
    match old {
        Some(mut reading) => {
            reading.line = line;
            reading.choices = choices;
            reading.begin(alloc, lexicon)?;
            Ok(reading)
        }
        None => Ok(Box::new(alloc, Reading::new(alloc, lexicon, line, choices)?)?),
    }
}

/// `text SCHEME TEXT`: reads the line, or refuses the text with its fault.
#[tactic(auto, using(text_line::proofs::FaultsTold::fault_told))]
pub(crate) fn reply_to_text(
    alloc: Global,
    lexicon: &Lexicon,
    old: Option<Box<Reading>>,
    scheme: Option<Scheme>,
    text: &[u8],
    output: &mut Vec<u8>,
) -> Result<Option<Box<Reading>>, Memory>
    requires reading { IsReadingOver lexicon.now old }
    requires short { length text.now < 2 ^ 32 }
    ensures ok { IfOk result (GoesOn lexicon.now
        (IsReplyTo lexicon.now.lexicon (state_of lexicon.now.lexicon.rules old) (Text (option_map scheme_of scheme) text.now)) output.old.items output.new.items) }
{
    let Some(scheme) = scheme else {
        return refuse(output, "scheme", old);
    };
    match read_line(alloc, scheme, text) {
        Ok(line) => {
            push_ok(output)?;
            Ok(Some(read_on(alloc, lexicon, old, line)?))
        }
        Err(error) => {
            push_text_refusal(alloc, output, error.fault()?)?;
            Ok(old)
        }
    }
}
