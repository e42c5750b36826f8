ghost use Rattle.std.specs.Prelude.{◌≡◌, ◌≤◌, List, MatchOption, IfOk};
ghost use Rattle.std.specs.Option.{option_map};
ghost use Rattle.segmentation_definitions.specs.Derivations.{Step};
ghost use Rattle.segmentation_definitions.specs.Listings.{Cursor, BeforeFirst, AtAnswer};
ghost use Rattle.front_definitions.specs.Fronts.{front_of};
ghost use Rattle.search_frames.specs.Guided.{IsGuideOf};
ghost use Rattle.segmenter.specs.Searches.{IsStackOf, StandsWhere, cursor_of};
ghost use Rattle.summary_chart.specs.Charts.{CoversPlace, says_of};
ghost use Rattle.summary_chart.specs.PlaceWays.{IsChartOf};
ghost use Rattle.search_split.specs.Parts.{IsPart, AreNextParts, front_in, cursor_of_part};

use super::fronts::{front_at, go_to_next_front};
use super::part::{Part, Parts};
use annotated_trie::Lexicon;
use outside::Steps;
use phoneme::{Line, Memory};
use reader_choices::Choices;
use search_frames::SearchGuide;
use segmenter::Search;
use std::alloc::Global;
use summary_chart::Chart;

/// The part that begins with the answer at which the search stands.
fn part_at<D: SearchGuide>(alloc: Global, search: &Search<D>, depth: u32) -> Result<Part, Memory>
    ensures from { IfOk result (λ part. StandsWhere search.now part.from) }
    ensures front { IfOk result (λ part. (answer : List Step) → search.now.cursor ≡ AtAnswer answer
        → front_in part ≡ front_of search.now.searched.lexicon.rules depth answer) }
{
    Ok(Part {
        front: front_at(alloc, search, depth)?,
        from: search.save(alloc)?,
    })
}

/// A search that stands at the first answer of the part.
#[tactic(auto, using(crate::proofs::CopiedStacks::copy_is_stack, crate::proofs::CopiedStacks::copy_stands_there))]
pub(crate) fn search_from<'a>(
    alloc: Global,
    lexicon: &'a Lexicon,
    line: &'a Line,
    choices: &'a Choices,
    chart: &'a Chart,
    part: &Part,
) -> Result<Search<'a, Chart>, Memory>
    requires guide { IsGuideOf lexicon.now line.now choices.now (CoversPlace chart.now.table) (says_of chart.now.table) }
    requires chart { IsChartOf lexicon.now line.now choices.now chart.now }
    requires stack { IsStackOf lexicon.now line.now choices.now part.now.from }
    ensures ok { IfOk result (λ search. search ≡ record { searched = lexicon.now; line = line.now; choices = choices.now; cursor = cursor_of lexicon.now line.now part.now.from }) }
{
    let from = part.from.copy(alloc)?;
    Ok(Search::go_on(lexicon, line, choices, chart, from))
}

/// A search that stands at the first answer of the part, or before the first answer where no part is given.
fn search_after<'a>(
    alloc: Global,
    lexicon: &'a Lexicon,
    line: &'a Line,
    choices: &'a Choices,
    chart: &'a Chart,
    after: Option<&Part>,
) -> Result<Search<'a, Chart>, Memory>
    requires guide { IsGuideOf lexicon.now line.now choices.now (CoversPlace chart.now.table) (says_of chart.now.table) }
    requires chart { IsChartOf lexicon.now line.now choices.now chart.now }
    requires after { MatchOption after (Unit {0}) (λ part. IsStackOf lexicon.now line.now choices.now part.now.from) }
    ensures ok { IfOk result (λ search. search ≡ record { searched = lexicon.now; line = line.now; choices = choices.now; cursor = cursor_of_part lexicon.now line.now (option_map (λ part. part.now) after.entry) }) }
{
    match after {
        None => Search::new(alloc, lexicon, line, choices, chart),
        Some(part) => search_from(alloc, lexicon, line, choices, chart, part),
    }
}

/// The parts of the first `most` fronts after that of `after`, or from the first on, in the order of their answers (own). The chart is
/// that of the lexicon, the line and the choices. Refused only for want of memory.
pub fn split(
    alloc: Global,
    lexicon: &Lexicon,
    line: &Line,
    choices: &Choices,
    chart: &Chart,
    after: Option<&Part>,
    depth: u32,
    most: u32,
) -> Result<Parts, Memory>
    requires guide { IsGuideOf lexicon.now line.now choices.now (CoversPlace chart.now.table) (says_of chart.now.table) }
    requires chart { IsChartOf lexicon.now line.now choices.now chart.now }
    requires after { MatchOption after (Unit {0}) (λ part. IsPart lexicon.now line.now choices.now depth part.now) }
    requires some_keys { 1 ≤ depth }
    requires few_keys { depth ≤ 8 }
    requires some_parts { 1 ≤ most }
    requires few_parts { most ≤ 256 }
    ensures ok { IfOk result (λ parts. AreNextParts lexicon.now line.now choices.now depth (option_map (λ part. front_in part.now) after.entry) most parts) }
{
    let mut steps = Steps::<()>::new();
    let mut search = search_after(alloc, lexicon, line, choices, chart, after)?;
    let mut list = Vec::new(alloc);
    let mut found = go_to_next_front(&mut search, depth, &mut steps);
    for _ in 0..most {
        if !found {
            return Ok(Parts { list, more: false });
        }
        let part = part_at(alloc, &search, depth)?;
        list.push(part)?;
        found = go_to_next_front(&mut search, depth, &mut steps);
    }
    Ok(Parts { list, more: found })
}
