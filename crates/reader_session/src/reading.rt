ghost use Rattle.std.specs.Prelude.{◌≡◌, ◌≤◌, [], length, IfOk, OnOk, All, Some};
ghost use Rattle.segmentation_definitions.specs.declared.limits.TheConstants.{MOST_CHOICES};
ghost use Rattle.segmentation_definitions.specs.Listings.{BeforeFirst};
ghost use Rattle.search_frames.specs.Guided.{IsGuideOf, IsExactOf};
ghost use Rattle.search_frames.specs.Stacks.{IsStack};
ghost use Rattle.segmenter.specs.Searches.{StandsWhere};
ghost use Rattle.summary_chart.specs.Charts.{CoversPlace, says_of};
ghost use Rattle.summary_chart.specs.PlaceWays.{IsChartOf};
ghost use Rattle.bookmark_definitions.specs.Bookmarks.{IsItemWithinBounds};
ghost use Rattle.session_definitions.specs.States.{fresh};
ghost use Rattle.reader_session.specs.Readings.{IsReading, state_with};

use annotated_trie::Lexicon;
use derivation::{Item, Step};
use outside::Steps;
use phoneme::{Line, Memory};
use reader_choices::Choices;
use search_frames::{Resumption, new_stack};
use segmenter::Search;
use std::alloc::Global;
use std::mem;
use summary_chart::Chart;

/// A line that is read, with the reader's choices and its chart, which is made once for them. `resumption` is where its
/// pages were left; `printed` answers were printed, the last of them with the steps `last`; and there is a summary where one
/// was asked for.
#[derive(Drop)]
pub(crate) struct Reading {
    pub line: Line,
    pub choices: Choices,
    pub chart: Chart,
    pub resumption: Resumption,
    pub printed: u64,
    pub last: Vec<Step>,
    pub summary: Option<Vec<Item>>,
}

/// The chart of the line with these choices, and where a search over it stands before the first answer, in the memory of a chart and a stack,
/// whatever these were of. Refused only for want of memory.
fn open_chart(
    alloc: Global,
    lexicon: &Lexicon,
    line: &Line,
    choices: &Choices,
    chart: Chart,
    stack: Resumption,
) -> Result<(Chart, Resumption), Memory>
    requires stack { IsStack stack }
    ensures chart { IfOk result (λ opened. IsChartOf lexicon.now line.now choices.now opened.0) }
    ensures guide { IfOk result (λ opened. IsGuideOf lexicon.now line.now choices.now (CoversPlace opened.0.table) (says_of opened.0.table)) }
    ensures exact { IfOk result (λ opened. IsExactOf lexicon.now line.now choices.now (says_of opened.0.table)) }
    ensures search { IfOk result (λ opened. StandsWhere
        (record { searched = lexicon.now; line = line.now; choices = choices.now; cursor = BeforeFirst }) opened.1) }
{
    let mut steps = Steps::<()>::new();
    let chart = chart.rebuilt(alloc, lexicon, line, choices, &mut steps)?;
    let resumption = Search::over(lexicon, line, choices, &chart, stack)?.into_resumption();
    Ok((chart, resumption))
}

impl Reading {
    /// The line with these choices, of which nothing was printed. Refused only for want of memory.
    pub(crate) fn new(
        alloc: Global,
        lexicon: &Lexicon,
        line: Line,
        choices: Choices,
    ) -> Result<Reading, Memory>
        requires { All (λ choice. IsItemWithinBounds choice.item) choices }
        ensures reading { IfOk result (IsReading lexicon.now) }
        ensures state { IfOk result (λ reading. state_with lexicon.now.lexicon.rules reading ≡ fresh (Some line) choices) }
    {
        let stack = new_stack(alloc, lexicon, 0)?;
        let (chart, resumption) = open_chart(
            alloc,
            lexicon,
            &line,
            &choices,
            Chart::new(alloc),
            stack,
        )?;
        Ok(Reading {
            line,
            choices,
            chart,
            resumption,
            printed: 0,
            last: Vec::new(alloc),
            summary: None,
        })
    }

    /// Begins to read its line anew, with its choices, once either was changed: no answer of it is printed yet. The memory of what was kept
    /// before serves again. Refused only for want of memory.
    pub(crate) fn begin(&mut self, alloc: Global, lexicon: &Lexicon) -> Result<(), Memory>
        requires stack { IsStack self.old.resumption }
        requires few { length self.old.choices ≤ MOST_CHOICES }
        requires items { All (λ choice. IsItemWithinBounds choice.item) self.old.choices }
        ensures reading { OnOk result (IsReading lexicon.now self.new) }
        ensures state { OnOk result (state_with lexicon.now.lexicon.rules self.new ≡ fresh (Some self.old.line) self.old.choices) }
    {
        let chart = mem::replace(&mut self.chart, Chart::new(alloc));
        let no_frames = new_stack(alloc, lexicon, 0)?;
        let stack = mem::replace(&mut self.resumption, no_frames);
        let (chart, resumption) = open_chart(
            alloc,
            lexicon,
            &self.line,
            &self.choices,
            chart,
            stack,
        )?;
        self.chart = chart;
        self.resumption = resumption;
        self.printed = 0;
        self.last.clear();
        self.summary = None;
        Ok(())
    }
}
