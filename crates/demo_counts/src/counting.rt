ghost use Rattle.std.specs.Prelude.{IfOk};
ghost use Rattle.demo_counts.specs.Pages.{HasPassed, IsCounted, IsPageCount};

use annotated_trie::Lexicon;
use demo_definitions::DEMO_PAGE;
use outside::Steps;
use phoneme::{Line, Memory};
use reader_choices::Choices;
use search_frames::SearchGuide;
use segmenter::Search;
use std::alloc::Global;
use summary_chart::Chart;

/// How many answers a page has, and whether one is left after them.
#[derive(Clone, Copy)]
pub(crate) struct PageCount {
    pub answers: u32,
    pub more: bool,
}

/// Moves past at most `count` answers after where the search stands, and tells how many these are.
fn pass_answers<D: SearchGuide, L>(search: &mut Search<D>, count: u32, steps: &mut Steps<L>) -> u32
    ensures { HasPassed search.old search.new count result }
{
    for passed in 0..count {
        if !search.advance(steps) {
            return passed;
        }
    }
    count
}

/// The page of at most `count` answers after where the search stands.
fn count_page<D: SearchGuide, L>(
    search: &mut Search<D>,
    count: u32,
    steps: &mut Steps<L>,
) -> PageCount
    ensures { IsCounted search.old count result }
{
    let answers = pass_answers(search, count, steps);
    if answers < count {
        return PageCount {
            answers,
            more: false,
        };
    }
    PageCount {
        answers,
        more: search.advance(steps),
    }
}

/// The line's page before the first answer, found under its chart.
pub(crate) fn count_answers(
    alloc: Global,
    lexicon: &Lexicon,
    line: &Line,
) -> Result<PageCount, Memory>
    ensures ok { IfOk result (IsPageCount lexicon.now.lexicon line.now) }
{
    let choices = Choices::new(alloc);
    let mut steps = Steps::<()>::new();
    let chart = Chart::build(alloc, lexicon, line, &choices, &mut steps)?;
    let mut search = Search::new(alloc, lexicon, line, &choices, &chart)?;
    Ok(count_page(&mut search, DEMO_PAGE, &mut steps))
}
