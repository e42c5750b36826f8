ghost use Rattle.std.specs.Prelude.{◌≡◌, IfOk, OnOk, Some};
ghost use Rattle.session_definitions.specs.Requests.{Summary};
ghost use Rattle.session_definitions.specs.Replies.{IsSummaryReply, IsReplyTo};
ghost use Rattle.reader_session.specs.Readings.{IsReading, IsReadingOver, GoesOn, GoesOnWith, state_with, state_of};

use super::reading::Reading;
use super::refusing::refuse;
use super::summary_printing::push_summary;
use annotated_trie::Lexicon;
use outside::Steps;
use phoneme::Memory;
use std::alloc::Global;

/// Appends the items of all answers, which the chart tells, and keeps them.
fn push_new_summary(
    alloc: Global,
    lexicon: &Lexicon,
    reading: &mut Reading,
    output: &mut Vec<u8>,
) -> Result<(), Memory>
    requires reading { IsReading lexicon.now reading.old }
    ensures ok { OnOk result (GoesOnWith lexicon.now
        (IsSummaryReply lexicon.now.lexicon (state_with lexicon.now.lexicon.rules reading.old) reading.old.line) output.old.items output.new.items
        reading.new) }
{
    let mut steps = Steps::<()>::new();
    let items = reading.chart.summary(alloc, lexicon, &reading.line, &reading.choices, &mut steps)?;
    push_summary(output, lexicon.rules(), items.as_slice())?;
    reading.summary = Some(items);
    Ok(())
}

/// `summary`: the items of all answers.
pub(crate) fn reply_with_summary(
    alloc: Global,
    lexicon: &Lexicon,
    old: Option<Box<Reading>>,
    output: &mut Vec<u8>,
) -> Result<Option<Box<Reading>>, Memory>
    requires reading { IsReadingOver lexicon.now old }
    ensures ok { IfOk result (GoesOn lexicon.now
        (IsReplyTo lexicon.now.lexicon (state_of lexicon.now.lexicon.rules old) Summary) output.old.items output.new.items) }
{
    let Some(mut reading) = old else {
        return refuse(output, "no text", None);
    };
    push_new_summary(alloc, lexicon, &mut reading, output)?;
    Ok(Some(reading))
}
