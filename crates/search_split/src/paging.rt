ghost use Rattle.std.specs.Prelude.{◌≡◌, ◌⊎◌, ◌+◌, ◌-◌, ◌^◌, ◌<◌, ◌≤◌, [], ◌∷◌, ◌++◌, true, List, length, map, All, IfOk, OnOk, IsTrue, string_bytes};
ghost use Rattle.std.specs.Fmt.{decimal};
ghost use Rattle.std.specs.List.Sorted.{IsStrictlySortedBy};
ghost use Rattle.segmentation_definitions.specs.Listings.{Key, compare_key_lists};
ghost use Rattle.list_laws.specs.Firsts.{ComesAfter};
ghost use Rattle.search_frames.specs.Guided.{IsGuideOf};
ghost use Rattle.summary_chart.specs.Charts.{CoversPlace, says_of};
ghost use Rattle.summary_chart.specs.PlaceWays.{IsChartOf};
ghost use Rattle.search_split.specs.Parts.{IsChartFor};
ghost use Rattle.search_split.specs.Starts.{IsStart, front_from};
ghost use Rattle.search_split.specs.Listing.{IsListed, IsFoundFor, AreFound, HasPut, IsPageOfFronts, IsListedPage};
ghost use Rattle.search_split.specs.PrintedPages.{IsPrintedPage, texts_with_numbers};

use super::block::Block;
use super::fronts::go_to_next_front;
use super::lister::Lister;
use super::listing::{Listed, list_part};
use super::page::Page;
use super::progress::Progress;
use super::start::Start;
use super::starting::next_starts;
use super::workers::{count_of_workers, list_by_workers};
use annotated_trie::Lexicon;
use answer_printing::RuleTexts;
use outside::{Gate, Steps};
use phoneme::{Line, Memory};
use reader_choices::Choices;
use segmenter::Search;
use std::alloc::Global;
use std::thread::Threads;
use summary_chart::Chart;

/// A block has at most this many parts, which are listed at once.
const BLOCK_PARTS: u32 = 16;

/// All answers of the part that begins there, or as many as there is room for: what a worker listed, where that is enough; else they
/// are listed here. A worker leaves answers out only where the page is full without them, but that is not proved, and nothing rests on it.
fn enough_of<G: Gate>(
    alloc: Global,
    lister: &Lister<'_, G>,
    start: &Start,
    found: Option<Listed>,
    room: usize,
) -> Result<Listed, Memory>
    requires chart { IsChartFor lister.now.lexicon.now lister.now.line.now lister.now.choices.now lister.now.chart.now }
    requires start { IsStart lister.now.lexicon.now lister.now.line.now lister.now.choices.now lister.now.depth start.now }
    requires found { IsFoundFor lister.now.lexicon.now lister.now.line.now lister.now.choices.now lister.now.depth start.now found }
    ensures ok { IfOk result (IsListed lister.now.lexicon.now lister.now.line.now lister.now.choices.now lister.now.depth (front_from lister.now.depth start.now)) }
    ensures enough { IfOk result (λ listed. IsTrue listed.more → room ≤ length listed.texts.items) }
{
    if let Some(listed) = found {
        if !listed.more || room <= listed.texts.len() {
            return Ok(listed);
        }
    }
    let progress = Progress::new(alloc, 0, room)?;
    list_part(alloc, lister, start, &progress, 0)
}

/// Puts as many of the listed answers after those of the page as there is room for.
fn put_listed(page: &mut Listed, listed: Listed, room: usize) -> Result<(), Memory>
    ensures ok { OnOk result (HasPut room listed page.old page.new) }
{
    let fits = room.min(listed.texts.len());
    let more = page.more || listed.more || fits < listed.texts.len();
    let mut texts = listed.texts;
    texts.truncate(fits);
    page.texts.append(&mut texts)?;
    page.more = more;
    Ok(())
}

/// Puts the answers of the part that begins there after those of the page, as many as there is room for.
fn put_part<G: Gate>(
    alloc: Global,
    lister: &Lister<'_, G>,
    page: &mut Listed,
    start: &Start,
    found: Option<Listed>,
) -> Result<(), Memory>
    requires chart { IsChartFor lister.now.lexicon.now lister.now.line.now lister.now.choices.now lister.now.chart.now }
    requires start { IsStart lister.now.lexicon.now lister.now.line.now lister.now.choices.now lister.now.depth start.now }
    requires found { IsFoundFor lister.now.lexicon.now lister.now.line.now lister.now.choices.now lister.now.depth start.now found }
    requires room { length page.old.texts.items ≤ lister.now.limit }
    ensures room { OnOk result (length page.new.texts.items ≤ lister.now.limit) }
    ensures grows { OnOk result ((length page.new.texts.items ≡ lister.now.limit) ⊎ (length page.old.texts.items + 1 ≤ length page.new.texts.items)) }
    ensures ok { OnOk result ((fronts : List (List Key)) → ComesAfter compare_key_lists fronts (front_from lister.now.depth start.now)
        → IsPageOfFronts lister.now.lexicon.now lister.now.line.now lister.now.choices.now lister.now.depth lister.now.limit fronts page.old
        → IsPageOfFronts lister.now.lexicon.now lister.now.line.now lister.now.choices.now lister.now.depth lister.now.limit (fronts ++ front_from lister.now.depth start.now ∷ []) page.new) }
{
    let room = lister.limit as usize - page.texts.len();
    let listed = enough_of(alloc, lister, start, found, room)?;
    put_listed(page, listed, room)
}

/// Puts the answers of the parts that begin there after those of the page, as far as there is room.
fn put_all<G: Gate>(
    alloc: Global,
    lister: &Lister<'_, G>,
    page: &mut Listed,
    starts: &[Start],
    found: &mut Vec<Option<Listed>>,
) -> Result<(), Memory>
    requires chart { IsChartFor lister.now.lexicon.now lister.now.line.now lister.now.choices.now lister.now.chart.now }
    requires starts { All (IsStart lister.now.lexicon.now lister.now.line.now lister.now.choices.now lister.now.depth) starts.now }
    requires found { AreFound lister.now.lexicon.now lister.now.line.now lister.now.choices.now lister.now.depth starts.now found.old.items }
    requires room { length page.old.texts.items ≤ lister.now.limit }
    ensures room { OnOk result (length page.new.texts.items ≤ lister.now.limit) }
    ensures grows { OnOk result ((length page.new.texts.items ≡ lister.now.limit) ⊎ (length page.old.texts.items + length starts.now ≤ length page.new.texts.items)) }
    ensures ok { OnOk result ((fronts : List (List Key)) → IsStrictlySortedBy compare_key_lists (fronts ++ map (front_from lister.now.depth) starts.now)
        → IsPageOfFronts lister.now.lexicon.now lister.now.line.now lister.now.choices.now lister.now.depth lister.now.limit fronts page.old
        → IsPageOfFronts lister.now.lexicon.now lister.now.line.now lister.now.choices.now lister.now.depth lister.now.limit (fronts ++ map (front_from lister.now.depth) starts.now) page.new) }
{
    for place in 0..starts.len() {
        let listed = found[place].take();
        put_part(alloc, lister, page, &starts[place], listed)?;
    }
    Ok(())
}

/// Lists the parts that begin there side by side, and puts their answers after those of the page. The first of them is the part with the
/// number `first`.
fn add_block<R: Threads + Sync, G: Gate + Sync>(
    rt: &R,
    alloc: Global,
    lister: &Lister<'_, G>,
    page: &mut Listed,
    starts: Vec<Start>,
    first: u64,
) -> Result<(), Memory>
    requires chart { IsChartFor lister.now.lexicon.now lister.now.line.now lister.now.choices.now lister.now.chart.now }
    requires starts { All (IsStart lister.now.lexicon.now lister.now.line.now lister.now.choices.now lister.now.depth) starts.items }
    requires numbers { first + length starts.items < 2 ^ 64 }
    requires room { length page.old.texts.items ≤ lister.now.limit }
    ensures room { OnOk result (length page.new.texts.items ≤ lister.now.limit) }
    ensures grows { OnOk result ((length page.new.texts.items ≡ lister.now.limit) ⊎ (length page.old.texts.items + length starts.items ≤ length page.new.texts.items)) }
    ensures ok { OnOk result ((fronts : List (List Key)) → IsStrictlySortedBy compare_key_lists (fronts ++ map (front_from lister.now.depth) starts.items)
        → IsPageOfFronts lister.now.lexicon.now lister.now.line.now lister.now.choices.now lister.now.depth lister.now.limit fronts page.old
        → IsPageOfFronts lister.now.lexicon.now lister.now.line.now lister.now.choices.now lister.now.depth lister.now.limit (fronts ++ map (front_from lister.now.depth) starts.items) page.new) }
{
    let room = lister.limit as usize - page.texts.len();
    let progress = Progress::new(alloc, starts.len(), room)?;
    let block = Block {
        starts,
        first,
        progress,
    };
    let workers = lister.workers.min(block.starts.len());
    let mut found = list_by_workers(rt, alloc, lister, &block, workers)?;
    put_all(alloc, lister, page, block.starts.as_slice(), &mut found)
}

/// The page, where answers may be left besides those that it knows of.
fn with_rest(page: Listed, more: bool) -> Listed
    ensures texts { result.texts ≡ page.texts }
    ensures told { (page.more ≡ true) ⊎ (more ≡ true) → result.more ≡ true }
    ensures says { result.more ≡ true → (page.more ≡ true) ⊎ (more ≡ true) }
{
    Listed {
        texts: page.texts,
        more: page.more || more,
    }
}

/// The page of the first answers, block by block: those of the next 16 fronts are listed at once, until the page is full or no front
/// is left.
fn list_page<R: Threads + Sync, G: Gate + Sync>(
    rt: &R,
    alloc: Global,
    lister: &Lister<'_, G>,
) -> Result<Listed, Memory>
    requires chart { IsChartFor lister.now.lexicon.now lister.now.line.now lister.now.choices.now lister.now.chart.now }
    ensures ok { IfOk result (IsListedPage lister.now.lexicon.now.lexicon lister.now.line.now lister.now.choices.now lister.now.limit) }
{
    let mut steps = Steps::<()>::new();
    let mut search = Search::new(
        alloc,
        lister.lexicon,
        lister.line,
        lister.choices,
        lister.chart,
    )?;
    let mut page = Listed {
        texts: Vec::new(alloc),
        more: false,
    };
    let mut passed = 0;
    let mut more = go_to_next_front(&mut search, lister.depth, &mut steps);
    while more && page.texts.len() < lister.limit as usize {
        let starts = next_starts(alloc, &mut search, lister.depth, BLOCK_PARTS, &mut steps)?;
        let count = starts.list.len() as u64;
        add_block(rt, alloc, lister, &mut page, starts.list, passed)?;
        passed += count;
        more = starts.more;
    }
    Ok(with_rest(page, more))
}

/// Puts the number before the text.
fn put_number(alloc: Global, text: &mut String, number: u64) -> Result<(), Memory>
    ensures ok { OnOk result (string_bytes text.new ≡ decimal number ++ string_bytes text.old) }
{
    let digits = format!(in alloc; "{number}")?;
    text.insert_str(0, digits.as_str())?;
    Ok(())
}

/// Puts before each text its number, counted from 1.
fn put_numbers(alloc: Global, texts: &mut Vec<String>) -> Result<(), Memory>
    requires few { length texts.old.items ≤ 1_000 }
    ensures ok { OnOk result (map string_bytes texts.new.items ≡ texts_with_numbers 1 (map string_bytes texts.old.items)) }
{
    for place in 0..texts.len() {
        put_number(alloc, &mut texts[place], place as u64 + 1)?;
    }
    Ok(())
}

/// The page of the first `limit` answers, whose parts are listed side by side: those of the next 16 fronts of `depth` keys at once, until
/// the page is full or no part is left (own). Workers, one for each processor and at least 2, take one part after another; just before
/// a worker begins a part, it passes the gate with the number of the part, counted from 0. The chart is that of the lexicon, the line
/// and the choices. Refused only for want of memory.
pub fn page_split<R: Threads + Sync, G: Gate + Sync>(
    rt: &R,
    alloc: Global,
    lexicon: &Lexicon,
    line: &Line,
    choices: &Choices,
    chart: &Chart,
    depth: u32,
    limit: u32,
    gate: &G,
) -> Result<Page, Memory>
    requires guide { IsGuideOf lexicon.now line.now choices.now (CoversPlace chart.now.table) (says_of chart.now.table) }
    requires chart { IsChartOf lexicon.now line.now choices.now chart.now }
    requires some_keys { 1 ≤ depth }
    requires few_keys { depth ≤ 8 }
    requires some_answers { 1 ≤ limit }
    requires few_answers { limit ≤ 1_000 }
    ensures ok { IfOk result (IsPrintedPage lexicon.now.lexicon line.now choices.now limit) }
{
    let texts = RuleTexts::new(alloc, lexicon.rules())?;
    let lister = Lister {
        lexicon,
        texts: &texts,
        line,
        choices,
        chart,
        depth,
        limit,
        workers: count_of_workers(rt),
        gate,
    };
    let mut page = list_page(rt, alloc, &lister)?;
    put_numbers(alloc, &mut page.texts)?;
    Ok(Page {
        answers: page.texts,
        more: page.more,
    })
}
