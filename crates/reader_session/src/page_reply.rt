ghost use Rattle.std.specs.Prelude.{◌≡◌, ◌≤◌, IfOk, OnOk, Some};
ghost use Rattle.segmentation_definitions.specs.declared.limits.TheConstants.{LAST_ANSWER_NUMBER};
ghost use Rattle.segmenter.specs.Searches.{StandsWhere};
ghost use Rattle.session_definitions.specs.Requests.{Page as PageRequest};
ghost use Rattle.session_definitions.specs.Replies.{IsPageReply, IsReplyTo};
ghost use Rattle.reader_session.specs.PageEnds.{HasToldRest, HasKeptPage};
ghost use Rattle.reader_session.specs.Readings.{IsReading, IsReadingOver, GoesOn, GoesOnWith, state_with, state_of};

use super::reading::Reading;
use super::refusing::refuse;
use annotated_trie::Lexicon;
use answer_printing::{AnswerPrinter, NextAnswers, RuleTexts, push_answers, rest_line};
use derivation::Step;
use outside::Steps;
use phoneme::Memory;
use search_frames::{Resumption, SearchGuide, new_stack};
use segmentation_definitions::LAST_ANSWER_NUMBER;
use segmenter::Search;
use std::alloc::Global;
use std::mem;

/// Appends `more` where an answer is left after the current one of the search, else `end`; and answers where the search was before.
fn push_rest<D: SearchGuide>(
    alloc: Global,
    search: &mut Search<D>,
    output: &mut Vec<u8>,
) -> Result<Resumption, Memory>
    ensures resumption { IfOk result (StandsWhere search.old) }
    ensures rest { OnOk result (HasToldRest search.old output.old.items output.new.items) }
{
    let resumption = search.save(alloc)?;
    let mut steps = Steps::<()>::new();
    let more = search.advance(&mut steps);
    output.extend_from_slice(rest_line(more).as_bytes())?;
    Ok(resumption)
}

/// Appends the answers that are asked for, after where the search stands, and `more` where another one is left, else `end`. Answers how
/// many these were, and where the search stood after them.
fn push_kept_page<D: SearchGuide>(
    alloc: Global,
    printer: &mut AnswerPrinter,
    search: Search<D>,
    asked: NextAnswers,
    last: &mut Vec<Step>,
    output: &mut Vec<u8>,
) -> Result<(u32, Resumption), Memory>
    requires rules { search.searched.lexicon.rules ≡ printer.old.rules }
    requires line { search.line.letters ≡ printer.old.letters }
    requires number { asked.number ≤ LAST_ANSWER_NUMBER }
    ensures ok { IfOk result (λ page. HasKeptPage search.entry asked.number asked.count output.old.items output.new.items last.old.items
        last.new.items page.0 page.1) }
{
    let mut search = search;
    let mut steps = Steps::<()>::new();
    let answers = push_answers(output, printer, &mut search, asked, last, &mut steps)?;
    let resumption = push_rest(alloc, &mut search, output)?;
    Ok((answers, resumption))
}

/// Appends the next answers, at most `count`. The search goes on from where the page before ended.
fn push_next_page(
    alloc: Global,
    lexicon: &Lexicon,
    texts: &RuleTexts<'_>,
    reading: &mut Reading,
    count: u32,
    output: &mut Vec<u8>,
) -> Result<(), Memory>
    requires texts { texts.now ≡ lexicon.now.lexicon.rules }
    requires reading { IsReading lexicon.now reading.old }
    ensures ok { OnOk result (GoesOnWith lexicon.now
        (IsPageReply lexicon.now.lexicon (state_with lexicon.now.lexicon.rules reading.old) count reading.old.line) output.old.items output.new.items
        reading.new) }
{
    let mut printer = AnswerPrinter::new(alloc, texts, &reading.line)?;
    // The search has the stack while it goes on; an empty one is in its place.
    let resumption = mem::replace(&mut reading.resumption, new_stack(alloc, lexicon, 0)?);
    let search = Search::go_on(
        lexicon,
        &reading.line,
        &reading.choices,
        &reading.chart,
        resumption,
    );
    let first = LAST_ANSWER_NUMBER.min(reading.printed + 1);
    let asked = NextAnswers {
        number: first,
        count,
    };
    let (answers, resumption) = push_kept_page(
        alloc,
        &mut printer,
        search,
        asked,
        &mut reading.last,
        output,
    )?;
    reading.resumption = resumption;
    reading.printed = LAST_ANSWER_NUMBER.min(reading.printed + answers as u64);
    Ok(())
}

/// `page N`: the next answers, at most `count`, which is `None` where the number could not be read.
pub(crate) fn reply_with_page(
    alloc: Global,
    lexicon: &Lexicon,
    texts: &RuleTexts<'_>,
    old: Option<Box<Reading>>,
    count: Option<u32>,
    output: &mut Vec<u8>,
) -> Result<Option<Box<Reading>>, Memory>
    requires texts { texts.now ≡ lexicon.now.lexicon.rules }
    requires reading { IsReadingOver lexicon.now old }
    ensures ok { IfOk result (GoesOn lexicon.now
        (IsReplyTo lexicon.now.lexicon (state_of lexicon.now.lexicon.rules old) (PageRequest count)) output.old.items output.new.items) }
{
    let Some(count) = count else {
        return refuse(output, "number", old);
    };
    let Some(mut reading) = old else {
        return refuse(output, "no text", None);
    };
    push_next_page(alloc, lexicon, texts, &mut reading, count, output)?;
    Ok(Some(reading))
}
