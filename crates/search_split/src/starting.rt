ghost use Rattle.std.specs.Prelude.{◌≡◌, ◌+◌, ◌<◌, ◌≤◌, ℕ, Option, List, IfOk};
ghost use Rattle.text_definitions.specs.Lines.{Line as LineValue};
ghost use Rattle.segmentation_definitions.specs.Items.{Choice};
ghost use Rattle.segmentation_definitions.specs.Listings.{Key};
ghost use Rattle.annotated_trie.specs.Searched.{SearchedLexicon};
ghost use Rattle.search_split.specs.NextFronts.{StandsAfter};
ghost use Rattle.search_split.specs.Parts.{IsChartFor};
ghost use Rattle.search_split.specs.Starts.{IsStart, HasTaken, StandsAtStart};

use super::fronts::{go_to_next_front, keys_at};
use super::start::{Start, Starts};
use annotated_trie::Lexicon;
use outside::Steps;
use phoneme::{Line, Memory};
use reader_choices::Choices;
use search_frames::SearchGuide;
use segmenter::{ResumeError, Search};
use std::alloc::Global;
use summary_chart::Chart;

/// Where the next parts begin, at most `most` of them. The search stands at the first answer of the first of them, and then at that of
/// the front after them, or past the last answer where none is left.
pub(crate) fn next_starts<D: SearchGuide, L>(
    alloc: Global,
    search: &mut Search<D>,
    depth: u32,
    most: u32,
    steps: &mut Steps<L>,
) -> Result<Starts, Memory>
    requires depth { 1 ≤ depth }
    ensures ok { IfOk result (λ starts. (searched : SearchedLexicon) (line : LineValue) (choices : List Choice) (earlier : Option (List Key)) (fronts : List (List Key))
        → StandsAfter searched line choices depth earlier fronts search.old → HasTaken searched line choices depth earlier fronts most starts search.new) }
{
    let mut list = Vec::new(alloc);
    for _ in 0..most {
        let start = Start {
            keys: keys_at(alloc, search)?,
        };
        list.push(start)?;
        if !go_to_next_front(search, depth, steps) {
            return Ok(Starts { list, more: false });
        }
    }
    Ok(Starts { list, more: true })
}

/// A search that stands at the first answer of the part that begins there.
pub(crate) fn search_at<'a>(
    alloc: Global,
    lexicon: &'a Lexicon,
    line: &'a Line,
    choices: &'a Choices,
    chart: &'a Chart,
    start: &Start,
) -> Result<Search<'a, Chart>, Memory>
    requires chart { IsChartFor lexicon.now line.now choices.now chart.now }
    requires start { (depth : ℕ) × IsStart lexicon.now line.now choices.now depth start.now }
    ensures ok { IfOk result (λ search. (depth : ℕ) → IsStart lexicon.now line.now choices.now depth start.now → StandsAtStart lexicon.now line.now choices.now depth start.now search) }
{
    match Search::resume(alloc, lexicon, line, choices, chart, start.keys.as_slice()) {
        Ok(search) => Ok(search),
        Err(ResumeError::Memory) => Err(Memory),
        Err(ResumeError::NotAnAnswer) => unreachable!(),
    }
}
