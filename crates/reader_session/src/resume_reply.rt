ghost use Rattle.std.specs.Prelude.{◌≡◌, ◌≤◌, ◌↔◌, length, IsTrue, IfOk, Some};
ghost use Rattle.segmentation_definitions.specs.declared.limits.TheConstants.{MOST_CHOICES};
ghost use Rattle.bookmark_definitions.specs.Bookmarks.{IsBookmark};
ghost use Rattle.bookmarks.specs.Values.{bookmark_of};
ghost use Rattle.session_definitions.specs.Requests.{Resume};
ghost use Rattle.session_definitions.specs.Replies.{IsResumeReply, IsReplyTo};
ghost use Rattle.search_frames.specs.Guided.{IsGuideOf};
ghost use Rattle.summary_chart.specs.Charts.{CoversPlace, says_of};
ghost use Rattle.summary_chart.specs.PlaceWays.{IsChartOf};
ghost use Rattle.reader_session.specs.Resumed.{IsStackAt, IsResumed, IsMark, IsLastOf, value_of_mark, mark_with, HasPhases};
ghost use Rattle.reader_session.specs.Readings.{IsReadingOver, GoesOn, state_of};

use super::adding::add_choice;
use super::reading::Reading;
use super::refusing::{push_ok, refuse};
use annotated_trie::Lexicon;
use bookmarks::Bookmark;
use derivation::{Choice, Key, Step};
use outside::Steps;
use phoneme::{Line, Memory};
use reader_choices::{ChoiceError, Choices};
use search_frames::{Resumption, SearchGuide};
use segmenter::{ResumeError, Search};
use std::alloc::Global;
use summary_chart::Chart;

/// Whether the lexicon has the phase of the item of each choice.
fn has_phases(lexicon: &Lexicon, choices: &[Choice]) -> bool
    ensures { IsTrue result ↔ HasPhases lexicon.now.lexicon choices.now }
{
    let phases = lexicon.rules().phases().len();
    choices
        .iter()
        .all(|choice| (choice.item.phase as usize) < phases)
}

/// The choices, oldest first. `None` where there are too many, which a bookmark never has.
fn choices_of(alloc: Global, list: Vec<Choice>) -> Result<Option<Choices>, Memory>
    requires few { length list.items ≤ MOST_CHOICES }
    ensures ok { IfOk result (λ choices. choices ≡ Some list.items) }
{
    let mut choices = Choices::new(alloc);
    for choice in list {
        match add_choice(&mut choices, choice.kept, choice.item) {
            Ok(()) => {}
            Err(ChoiceError::Full) => return Ok(None),
            Err(ChoiceError::Memory) => return Err(Memory),
        }
    }
    Ok(Some(choices))
}

/// The steps of the answer at which the search stands; no steps where it stands at no answer.
fn last_steps<D: SearchGuide>(alloc: Global, search: &Search<D>) -> Result<Vec<Step>, Memory>
    ensures ok { IfOk result (λ last. IsLastOf search.now last.items) }
{
    match search.current() {
        Some(steps) => Ok(Vec::from_slice(alloc, steps)?),
        None => Ok(Vec::new(alloc)),
    }
}

/// Where a search over the line with these choices stands at the answer with these keys, and the steps of this answer. `None` where no
/// answer has them.
fn stack_at(
    alloc: Global,
    lexicon: &Lexicon,
    line: &Line,
    choices: &Choices,
    chart: &Chart,
    keys: &[Key],
) -> Result<Option<(Resumption, Vec<Step>)>, Memory>
    requires guide { IsGuideOf lexicon.now line.now choices.now (CoversPlace chart.now.table) (says_of chart.now.table) }
    requires chart { IsChartOf lexicon.now line.now choices.now chart.now }
    ensures ok { IfOk result (IsStackAt lexicon.now line.now choices.now keys.now) }
{
    let search = match Search::resume(alloc, lexicon, line, choices, chart, keys) {
        Ok(search) => search,
        Err(ResumeError::NotAnAnswer) => return Ok(None),
        Err(ResumeError::Memory) => return Err(Memory),
    };
    let last = last_steps(alloc, &search)?;
    Ok(Some((search.into_resumption(), last)))
}

/// The line with these choices, read on at the answer with these keys. `None` where no answer has them.
fn resume_at(
    alloc: Global,
    lexicon: &Lexicon,
    line: Line,
    choices: Choices,
    printed: u64,
    keys: &[Key],
) -> Result<Option<Reading>, Memory>
    requires mark { IsBookmark (mark_with line choices printed keys.now) }
    requires phases { HasPhases lexicon.now.lexicon choices }
    ensures ok { IfOk result (IsResumed lexicon.now (mark_with line choices printed keys.now)) }
{
    let mut steps = Steps::<()>::new();
    let chart = Chart::build(alloc, lexicon, &line, &choices, &mut steps)?;
    let Some((resumption, last)) = stack_at(alloc, lexicon, &line, &choices, &chart, keys)? else {
        return Ok(None);
    };
    Ok(Some(Reading {
        line,
        choices,
        chart,
        resumption,
        printed,
        last,
        summary: None,
    }))
}

/// The line of the bookmark with its choices, where its pages were left. `None` where the bookmark is not one over this lexicon.
pub(crate) fn resume(
    alloc: Global,
    lexicon: &Lexicon,
    mark: Bookmark,
) -> Result<Option<Reading>, Memory>
    requires mark { IsBookmark (bookmark_of mark) }
    ensures ok { IfOk result (IsResumed lexicon.now (bookmark_of mark)) }
{
    if !has_phases(lexicon, mark.choices.as_slice()) {
        return Ok(None);
    }
    let Bookmark {
        line,
        choices,
        printed,
        keys,
    } = mark;
    let Some(choices) = choices_of(alloc, choices)? else {
        return Ok(None);
    };
    resume_at(alloc, lexicon, line, choices, printed, keys.as_slice())
}

/// `resume B`: goes on from a bookmark over this lexicon, and refuses any other. `mark` is `None` where the text is no bookmark.
pub(crate) fn reply_to_resume(
    alloc: Global,
    lexicon: &Lexicon,
    old: Option<Box<Reading>>,
    mark: Option<Box<Bookmark>>,
    output: &mut Vec<u8>,
) -> Result<Option<Box<Reading>>, Memory>
    requires reading { IsReadingOver lexicon.now old }
    requires mark { IsMark mark }
    ensures ok { IfOk result (GoesOn lexicon.now
        (IsReplyTo lexicon.now.lexicon (state_of lexicon.now.lexicon.rules old) (Resume (value_of_mark mark))) output.old.items output.new.items) }
{
    let Some(mark) = mark else {
        return refuse(output, "bookmark", old);
    };
    match resume(alloc, lexicon, Box::into_inner(mark))? {
        Some(reading) => {
            let reading = Box::new(alloc, reading)?;
            push_ok(output)?;
            Ok(Some(reading))
        }
        None => refuse(output, "bookmark", old),
    }
}
