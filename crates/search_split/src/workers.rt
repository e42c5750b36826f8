ghost use Rattle.std.specs.Prelude.{◌≡◌, ℕ, List, length, All, IfOk};
ghost use denote.Param.Send.{IsSync};
ghost use Rattle.text_definitions.specs.Lines.{Line as LineValue};
ghost use Rattle.segmentation_definitions.specs.Items.{Choice};
ghost use Rattle.annotated_trie.specs.Searched.{SearchedLexicon};
ghost use Rattle.search_split.specs.declared.start.Start.{Start as StartValue};
ghost use Rattle.search_split.specs.Parts.{IsChartFor};
ghost use Rattle.search_split.specs.Starts.{IsStart};
ghost use Rattle.search_split.specs.Listing.{AreFound};

use super::block::Block;
use super::lister::Lister;
use super::listing::{Listed, list_part};
use super::start::Start;
use outside::Gate;
use phoneme::Memory;
use std::alloc::Global;
use std::thread::{Threads, available_parallelism, join};

/// There are at least so many workers, so that two parts are listed at once also where there is one processor.
const FEWEST_WORKERS: usize = 2;

/// There are no more workers than a block has parts.
const MOST_WORKERS: usize = 16;

/// How many workers there are: one for each processor.
pub(crate) fn count_of_workers(rt: &impl Threads) -> usize {
    match available_parallelism(rt) {
        Ok(processors) => processors.get().clamp(FEWEST_WORKERS, MOST_WORKERS),
        Err(_unknown) => FEWEST_WORKERS,
    }
}

/// A place for what is listed of each part, with nothing in it yet.
#[tactic(auto, using(crate::proofs::FoundLists::none_more))]
fn no_lists(alloc: Global, starts: &[Start]) -> Result<Vec<Option<Listed>>, Memory>
    ensures { IfOk result (λ found. (searched : SearchedLexicon) (line : LineValue) (choices : List Choice) (depth : ℕ) → AreFound searched line choices depth starts.now found.items) }
{
    let mut found = Vec::with_capacity(alloc, starts.len())?;
    for _start in starts {
        found.push(None)?;
    }
    Ok(found)
}

/// What one worker lists: it takes the next part that no worker has taken, passes the gate with the number of the part, and goes on
/// until no part is left. What it lists of a part stands at the place of the part, whatever the count of the parts that are taken tells.
fn list_some<G: Gate>(
    alloc: Global,
    lister: &Lister<'_, G>,
    block: &Block,
) -> Result<Vec<Option<Listed>>, Memory>
    requires chart { IsChartFor lister.now.lexicon.now lister.now.line.now lister.now.choices.now lister.now.chart.now }
    requires starts { All (IsStart lister.now.lexicon.now lister.now.line.now lister.now.choices.now lister.now.depth) block.now.starts.items }
    ensures ok { IfOk result (λ found. AreFound lister.now.lexicon.now lister.now.line.now lister.now.choices.now lister.now.depth block.now.starts.items found.items) }
{
    let starts = block.starts.as_slice();
    let mut found = no_lists(alloc, starts)?;
    for _ in 0..starts.len() {
        let place = block.progress.take_next();
        if place >= starts.len() {
            break;
        }
        lister.gate.pass(block.first + place as u64);
        let listed = list_part(alloc, lister, &starts[place], &block.progress, place)?;
        found[place] = Some(listed);
    }
    Ok(found)
}

/// Puts what others listed beside these.
fn put_together(found: &mut Vec<Option<Listed>>, others: &mut Vec<Option<Listed>>)
    requires { length others.old.items ≡ length found.old.items }
    ensures { (searched : SearchedLexicon) (line : LineValue) (choices : List Choice) (depth : ℕ) (starts : List StartValue) → AreFound searched line choices depth starts found.old.items
        → AreFound searched line choices depth starts others.old.items → AreFound searched line choices depth starts found.new.items }
{
    for place in 0..found.len() {
        let own = found[place].take();
        let other = others[place].take();
        found[place] = own.or(other);
    }
}

/// What so many workers list of the block side by side. Each thread is begun from this one: the system often puts a thread that is begun
/// from a new one on the same processor as that.
#[cycle(workers)]
pub(crate) fn list_by_workers<R: Threads + Sync, G: Gate + Sync>(
    rt: &R,
    alloc: Global,
    lister: &Lister<'_, G>,
    block: &Block,
    workers: usize,
) -> Result<Vec<Option<Listed>>, Memory>
    requires chart { IsChartFor lister.now.lexicon.now lister.now.line.now lister.now.choices.now lister.now.chart.now }
    requires starts { All (IsStart lister.now.lexicon.now lister.now.line.now lister.now.choices.now lister.now.depth) block.now.starts.items }
    ensures ok { IfOk result (λ found. AreFound lister.now.lexicon.now lister.now.line.now lister.now.choices.now lister.now.depth block.now.starts.items found.items) }
{
    if workers < 2 {
        return list_some(alloc, lister, block);
    }
    let fewer = workers - 1;
    let list_first = || -> Result<Vec<Option<Listed>>, Memory>
        requires { IsChartFor lister.now.lexicon.now lister.now.line.now lister.now.choices.now lister.now.chart.now × All (IsStart lister.now.lexicon.now lister.now.line.now lister.now.choices.now lister.now.depth) block.now.starts.items }
        ensures { IfOk result (λ found. AreFound lister.entry.now.lexicon.now lister.entry.now.line.now lister.entry.now.choices.now lister.entry.now.depth block.entry.now.starts.items found.items) }
    { list_some(alloc, lister, block) };
    let list_others = || -> Result<Vec<Option<Listed>>, Memory>
        requires { IsSync R.row × IsSync G.row × IsChartFor lister.now.lexicon.now lister.now.line.now lister.now.choices.now lister.now.chart.now × All (IsStart lister.now.lexicon.now lister.now.line.now lister.now.choices.now lister.now.depth) block.now.starts.items }
        ensures { IfOk result (λ found. AreFound lister.entry.now.lexicon.now lister.entry.now.line.now lister.entry.now.choices.now lister.entry.now.depth block.entry.now.starts.items found.items) }
    { list_by_workers(rt, alloc, lister, block, fewer) };
    let (first, later) = join(rt, list_first, list_others);
    let mut found = first?;
    let mut others = later?;
    put_together(&mut found, &mut others);
    Ok(found)
}
