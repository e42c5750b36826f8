ghost use Rattle.std.specs.Prelude.{◌≡◌, ◌<◌, ◌+◌, ◌*◌, ◌≤◌, ℕ, ◌++◌, [], length, IfOk, IfSome, IsTrue, OnOk};
ghost use Rattle.text_definitions.specs.Lines.{IsLine, Line as LineValue};
ghost use Rattle.annotated_trie.specs.Searched.{IsSearchedLexicon, SearchedLexicon};
ghost use Rattle.search_frames.specs.Costs.{HasAtMostRules};
ghost use Rattle.search_frames.specs.Frames.{numbered_of};
ghost use Rattle.summary_chart.specs.declared.passes.TheConstants.{SETS_FOR_A_WAY};
ghost use Rattle.summary_chart.specs.declared.memo.Done.{Done as DoneValue};
ghost use Rattle.summary_chart.specs.Effects.{AreEffects};
ghost use Rattle.summary_chart.specs.Memos.{AreLiving, IsKnown};
ghost use Rattle.summary_chart.specs.Tables.{HaveBits, IsTable, IsIndexed, set_of};
ghost use Rattle.summary_chart.specs.StateSets.{AreLeading};
ghost use Rattle.summary_chart.specs.Spreading.{AreGoingFurther, EveryKey, leads_in};
ghost use Rattle.summary_chart.specs.Charts.{HasReached, IsChartTable, IsOpenTable, IsReachedBefore};
ghost use Rattle.summary_chart.specs.PlaceWays.{AreFew, AreFrom, AreStops, HasKeptFew, HasNoPlaceBetween, HaveAllWays, HaveLivingWays, HaveStops, HaveStopsBefore, HaveWaysBefore, AreLateStops, IsStopAt, indices_of};
ghost use Rattle.summary_chart.specs.Sites.{IsSite};
ghost use Rattle.summary_chart.specs.Summaries.{steps_of_items, steps_of_summary};
ghost use Rattle.summary_chart.specs.Walked.{IsKept, IsLater, IsLivingRoom, IsSpreadRoom};
ghost use Rattle.summary_chart.specs.declared.walk_memo.Walked.{Walked as WalkedValue};

use super::collecting::Standing;
use super::gathering::{gather, gather_ways};
use super::leading_states::LeadingStates;
use super::listing::push_ways;
use super::memo::Memo;
use super::place_ways::{PlaceWays, Stop};
use super::room::Room;
use super::site::{Passage, Site};
use super::sought::{AllWays, LivingAlone};
use super::spreading::{spread, spread_ways};
use super::state_set::StateSet;
use super::table::Table;
use annotated_trie::Lexicon;
use outside::Steps;
use phoneme::{Line, Memory};
use search_frames::Configuration;

/// A way or a stop takes 24 bytes, as much as six sets of the table. There is room for one for each seven sets, where each set is counted
/// once for each phase: so the sets, their bits, ways and stops take no more than eight bytes for each set and phase.
const SETS_FOR_A_WAY: usize = 7;

/// How many ways and stops there is room for beside the table.
fn most_kept(lexicon: &Lexicon, line: &Line, table: &Table) -> usize
    requires line { IsLine line.now }
    requires table { IsTable (leads_in lexicon.now) (length line.now.letters) table.now }
    ensures { SETS_FOR_A_WAY * result ≤ length table.now.sets.items * length lexicon.now.lexicon.rules.names }
{
    table.sets.len() * lexicon.rules().phases().len() / SETS_FOR_A_WAY
}

/// So many rules are looked at from one place at most, for its ways to be kept in the pass forward.
const MOST_LOOKED: usize = 1_024;

/// Keeps the ways from the place with the states at its index of the table, and tells their stop: if they are few, and ways and stops are
/// then no more than there is room for beside the table, and looking for them is worth it. Otherwise all ways and stops stay as they were.
/// The place's own state is not looked at. Refused only for want of memory.
fn keep_ways<L>(
    site: Site<'_>,
    index: usize,
    leading: &LeadingStates,
    table: &Table,
    kept: &mut PlaceWays,
    steps: &mut Steps<L>,
) -> Result<Option<Stop>, Memory>
    requires site { IsSite site }
    requires leading { AreLeading site.lexicon.now.machine leading.now }
    requires there { index < length table.now.sets.items }
    requires table { IsTable (leads_in site.lexicon.now) (length site.line.now.letters) table.now }
    ensures kept { IfOk result (λ stop. HasKeptFew site.entry.lexicon.now site.entry.line.now site.entry.choices.now (numbered_of site.entry.lexicon.now site.entry.place.now) table.now index kept.old kept.new stop) }
    ensures late { OnOk result (kept.new.late.items ≡ kept.old.late.items) }
    ensures steps { (most : ℕ) → HasAtMostRules site.entry.lexicon.now.tries most → steps.new ≤ steps.old + steps_of_items site.entry.lexicon.now most }
{
    let most = most_kept(site.lexicon, site.line, table);
    if !kept.is_worth_looking() || !kept.has_room(most) {
        return Ok(None);
    }
    let states = table.sets[index];
    let first = kept.ways.len();
    let mut rules_left = MOST_LOOKED;
    let ways = &mut kept.ways;
    let all = push_ways(
        site,
        states,
        leading,
        &mut rules_left,
        &AllWays,
        ways,
        steps,
    )?;
    if !all || !kept.has_room(most) {
        kept.drop_from(first);
        return Ok(None);
    }
    let stop = Stop {
        index,
        first,
        end: kept.ways.len(),
    };
    kept.push(site.place.at, stop)?;
    Ok(Some(stop))
}

/// Puts into the table where any key leads on to from the places at the index, of which this is one; and keeps the ways from there, if they
/// are few and there is room for them. Tells whether they were kept. The place's own state is not looked at. Refused only for want of
/// memory.
fn reach_from<L>(
    site: Site<'_>,
    index: usize,
    leading: &LeadingStates,
    table: &mut Table,
    kept: &mut PlaceWays,
    room: &mut Room,
    steps: &mut Steps<L>,
) -> Result<bool, Memory>
    requires site { IsSite site }
    requires leading { AreLeading site.lexicon.now.machine leading.now }
    requires there { index < length table.old.sets.items }
    requires indexed { IsIndexed (leads_in site.lexicon.now) (length site.line.now.letters) index site.place.now.at site.place.now.entrance }
    requires before { IsReachedBefore site.lexicon.now site.line.now site.choices.now index table.old }
    requires kept { HaveWaysBefore site.lexicon.now site.line.now site.choices.now index table.old kept.old.stops.items kept.old.ways.items }
    requires few { AreFew site.lexicon.now site.line.now kept.old.stops.items kept.old.ways.items }
    requires room { IsSpreadRoom site.lexicon.now site.line.now table.old room.old.walking }
    ensures room { OnOk result (IsSpreadRoom site.entry.lexicon.now site.entry.line.now table.new room.new.walking) }
    ensures before { OnOk result (IsReachedBefore site.entry.lexicon.now site.entry.line.now site.entry.choices.now (index + 1) table.new) }
    ensures kept { OnOk result (HaveWaysBefore site.entry.lexicon.now site.entry.line.now site.entry.choices.now (index + 1) table.new kept.new.stops.items kept.new.ways.items) }
    ensures stops { IfOk result (λ has_stop. IsTrue has_stop → HaveStopsBefore site.entry.lexicon.now site.entry.line.now index table.old (indices_of kept.old.stops.items) → HaveStopsBefore site.entry.lexicon.now site.entry.line.now (index + 1) table.new (indices_of kept.new.stops.items)) }
    ensures late { OnOk result (kept.new.late.items ≡ kept.old.late.items) }
    ensures few { OnOk result (AreFew site.entry.lexicon.now site.entry.line.now kept.new.stops.items kept.new.ways.items) }
    ensures steps { (most : ℕ) → HasAtMostRules site.entry.lexicon.now.tries most → steps.new ≤ steps.old + 2 * steps_of_items site.entry.lexicon.now most }
{
    let states = table.sets[index];
    let Some(stop) = keep_ways(site, index, leading, table, kept, steps)? else {
        spread(site, states, leading, table, room, steps)?;
        return Ok(false);
    };
    spread_ways(site, states, kept.of(stop), table, steps);
    Ok(true)
}

/// Puts into the table, which has the opening alone, every place that a search comes to: from each place in the order of the table,
/// wherever a key leads on to. A key leads only to places that stand later in the table. Keeps the ways from places that have few, while
/// there is room for them, and tells whether each place that it came to has its stop. Refused only for want of memory.
pub(crate) fn reach<L>(
    passage: Passage<'_>,
    leading: &LeadingStates,
    table: &mut Table,
    kept: &mut PlaceWays,
    room: &mut Room,
    steps: &mut Steps<L>,
) -> Result<bool, Memory>
    requires searched { IsSearchedLexicon passage.lexicon.now }
    requires line { IsLine passage.line.now }
    requires leading { AreLeading passage.lexicon.now.machine leading.now }
    requires opening { IsOpenTable passage.lexicon.now passage.line.now table.old }
    requires stops { kept.old.stops.items ≡ [] }
    requires ways { kept.old.ways.items ≡ [] }
    requires late { kept.old.late.items ≡ [] }
    requires memo { (done : DoneValue) → IsKnown room.old.walking.memo done → ⊥ }
    requires walks { (walked : WalkedValue) → IsKept room.old.walking.walks walked → ⊥ }
    requires effects { AreEffects passage.lexicon.now.lexicon.rules room.old.walking.memo.effects }
    ensures effects { OnOk result (AreEffects passage.entry.lexicon.now.lexicon.rules room.new.walking.memo.effects) }
    ensures reached { OnOk result (HasReached passage.entry.lexicon.now passage.entry.line.now passage.entry.choices.now table.new) }
    ensures kept { OnOk result (HaveAllWays passage.entry.lexicon.now passage.entry.line.now passage.entry.choices.now table.new kept.new.stops.items kept.new.ways.items) }
    ensures stops { IfOk result (λ each_has_stop. IsTrue each_has_stop → HaveStops passage.entry.lexicon.now passage.entry.line.now table.new (indices_of kept.new.stops.items)) }
    ensures late { OnOk result (kept.new.late.items ≡ []) }
    ensures few { OnOk result (AreFew passage.entry.lexicon.now passage.entry.line.now kept.new.stops.items kept.new.ways.items) }
    ensures steps { (most : ℕ) → HasAtMostRules passage.entry.lexicon.now.tries most → steps.new ≤ steps.old + 2 * steps_of_summary passage.entry.lexicon.now passage.entry.line.now most }
{
    let state = passage.lexicon.automaton().start();
    let mut each_has_stop = true;
    let mut index = table.next_filled(0);
    while index < table.sets.len() {
        let (at, entrance) = table.place(index);
        let place = Configuration {
            at,
            entrance,
            state,
        };
        let site = Site {
            lexicon: passage.lexicon,
            line: passage.line,
            choices: passage.choices,
            place: &place,
        };
        each_has_stop &= reach_from(site, index, leading, table, kept, room, steps)?;
        index = table.next_filled(index + 1);
    }
    Ok(each_has_stop)
}

/// Keeps the ways from the place by which some state at its index of the table goes further, and puts in their late stop: if they are few,
/// and ways and stops are then no more than there is room for beside the table, and no more rules are looked at than may be for one line.
/// Otherwise all ways and stops stay as they were. There is no stop at the index. The place's own state is not looked at. Refused only for
/// want of memory.
fn keep_late<L>(
    site: Site<'_>,
    index: usize,
    leading: &LeadingStates,
    table: &Table,
    kept: &mut PlaceWays,
    memo: &Memo,
    steps: &mut Steps<L>,
) -> Result<(), Memory>
    requires site { IsSite site }
    requires leading { AreLeading site.lexicon.now.machine leading.now }
    requires there { index < length table.now.sets.items }
    requires indexed { IsIndexed (leads_in site.lexicon.now) (length site.line.now.letters) index site.place.now.at site.place.now.entrance }
    requires table { IsTable (leads_in site.lexicon.now) (length site.line.now.letters) table.now }
    requires kept { HaveLivingWays site.lexicon.now site.line.now site.choices.now table.now kept.old.stops.items kept.old.ways.items }
    requires late { AreLateStops site.lexicon.now site.line.now site.choices.now table.now kept.old.late.items kept.old.ways.items }
    requires few { AreFew site.lexicon.now site.line.now (kept.old.stops.items ++ kept.old.late.items) kept.old.ways.items }
    requires memo { AreLiving site.lexicon.now site.line.now table.now memo.now }
    ensures kept { OnOk result (HaveLivingWays site.entry.lexicon.now site.entry.line.now site.entry.choices.now table.now kept.new.stops.items kept.new.ways.items) }
    ensures late { OnOk result (AreLateStops site.entry.lexicon.now site.entry.line.now site.entry.choices.now table.now kept.new.late.items kept.new.ways.items) }
    ensures few { OnOk result (AreFew site.entry.lexicon.now site.entry.line.now (kept.new.stops.items ++ kept.new.late.items) kept.new.ways.items) }
    ensures stops { OnOk result (kept.new.stops.items ≡ kept.old.stops.items) }
    ensures steps { (most : ℕ) → HasAtMostRules site.entry.lexicon.now.tries most → steps.new ≤ steps.old + steps_of_items site.entry.lexicon.now most }
{
    let most = most_kept(site.lexicon, site.line, table);
    if !kept.looks_back() || !kept.has_room(most) {
        return Ok(());
    }
    let states = table.sets[index];
    let living = LivingAlone {
        standing: Standing { states, table },
        memo,
    };
    let first = kept.ways.len();
    let looks = &mut kept.looks_left;
    let all = push_ways(site, states, leading, looks, &living, &mut kept.ways, steps)?;
    if !all || !kept.has_room(most) {
        kept.drop_from(first);
        return Ok(());
    }
    let stop = Stop {
        index,
        first,
        end: kept.ways.len(),
    };
    kept.push_late(stop)?;
    Ok(())
}

/// A set of the table that the pass back comes to: its index, and the number of its stop where this is known.
#[derive(Clone, Copy)]
struct Visit {
    index: usize,
    known: Option<usize>,
}

/// The states of the places at the index, of which this is one, from which some key ends the line, or leads on to a place of the table: by
/// the ways that are kept from there, or else by all that the lexicon has. The number of their stop may be known. This stop is left with
/// the ways from the first to the last by which some state goes further; where there is none, and some state goes further, a late one may
/// be put in. The place's own state is not looked at. Refused only for want of memory.
fn gather_from<L>(
    site: Site<'_>,
    visit: Visit,
    leading: &LeadingStates,
    table: &Table,
    kept: &mut PlaceWays,
    room: &mut Room,
    steps: &mut Steps<L>,
) -> Result<StateSet, Memory>
    requires site { IsSite site }
    requires leading { AreLeading site.lexicon.now.machine leading.now }
    requires there { visit.index < length table.now.sets.items }
    requires indexed { IsIndexed (leads_in site.lexicon.now) (length site.line.now.letters) visit.index site.place.now.at site.place.now.entrance }
    requires table { IsTable (leads_in site.lexicon.now) (length site.line.now.letters) table.now }
    requires kept { HaveLivingWays site.lexicon.now site.line.now site.choices.now table.now kept.old.stops.items kept.old.ways.items }
    requires late { AreLateStops site.lexicon.now site.line.now site.choices.now table.now kept.old.late.items kept.old.ways.items }
    requires few { AreFew site.lexicon.now site.line.now (kept.old.stops.items ++ kept.old.late.items) kept.old.ways.items }
    requires known { IfSome visit.known (λ number. IsStopAt kept.old.stops.items visit.index number) }
    requires room { IsLivingRoom site.lexicon.now site.line.now table.now room.old.walking }
    ensures room { OnOk result (IsLivingRoom site.entry.lexicon.now site.entry.line.now table.now room.new.walking) }
    ensures later { OnOk result (IsLater site.entry.place.now.at room.old.walking → IsLater site.entry.place.now.at room.new.walking) }
    ensures gathers { IfOk result (λ gathered. AreGoingFurther site.entry.lexicon.now site.entry.line.now site.entry.choices.now table.now site.entry.place.now.at site.entry.place.now.entrance (set_of table.now visit.index) EveryKey gathered) }
    ensures kept { OnOk result (HaveLivingWays site.entry.lexicon.now site.entry.line.now site.entry.choices.now table.now kept.new.stops.items kept.new.ways.items) }
    ensures late { OnOk result (AreLateStops site.entry.lexicon.now site.entry.line.now site.entry.choices.now table.now kept.new.late.items kept.new.ways.items) }
    ensures few { OnOk result (AreFew site.entry.lexicon.now site.entry.line.now (kept.new.stops.items ++ kept.new.late.items) kept.new.ways.items) }
    ensures count { OnOk result (length kept.new.stops.items ≡ length kept.old.stops.items) }
    ensures indices { OnOk result (indices_of kept.new.stops.items ≡ indices_of kept.old.stops.items) }
    ensures steps { (most : ℕ) → HasAtMostRules site.entry.lexicon.now.tries most → steps.new ≤ steps.old + 2 * steps_of_items site.entry.lexicon.now most }
{
    let states = table.sets[visit.index];
    let Some(number) = kept.known_or_number_at(visit.known, site.place.at, visit.index) else {
        let living = gather(site, states, leading, table, room, steps)?;
        if living.is_empty() {
            return Ok(living);
        }
        let memo = &room.walking.memo;
        keep_late(site, visit.index, leading, table, kept, memo, steps)?;
        return Ok(living);
    };
    let living = gather_ways(site, states, kept.of(kept.stops[number]), table, steps);
    kept.narrow(number, living.first, living.end);
    Ok(living.states)
}

/// An index up to this one, from which on the table has no places before this one. Where each place has its stop, this is the index after
/// the last of the stops that are left, since those after it stand at this index or later: so no bits are looked at. Otherwise it is what
/// `filled_until` tells.
#[inline(always)]
fn visit_until(
    table: &Table,
    kept: &PlaceWays,
    left: usize,
    each_has_stop: bool,
    until: usize,
) -> usize
    requires bits { HaveBits table.now.sets.items table.now.filled.items }
    requires until { until ≤ length table.now.sets.items }
    requires stops { AreStops kept.now.stops.items (length kept.now.ways.items) }
    requires left { left ≤ length kept.now.stops.items }
    requires later { AreFrom until (indices_of kept.now.stops.items) left }
    ensures rises { result ≤ until }
    ensures none { (searched : SearchedLexicon) (line : LineValue) → IsTable (leads_in searched) (length line.letters) table.now → (IsTrue each_has_stop → HaveStops searched line table.now (indices_of kept.now.stops.items)) → HasNoPlaceBetween searched line table.now result until }
{
    if !each_has_stop {
        return table.filled_until(until);
    }
    if left == 0 {
        return 0;
    }
    let last = kept.stops[left - 1].index;
    if last < until { last + 1 } else { until }
}

/// Leaves in the table, which has every place that a search comes to, those alone from which there is a path to an answer: from the last
/// place in the order of the table to the first. Each stop is left with the ways from its first living one to its last, where a way is
/// living that ends the line or leads on to a place of the table; and places without a stop may get one, with the living ways alone. Where
/// each place has its stop, the stops tell which sets to go over. Refused only for want of memory.
pub(crate) fn keep_living<L>(
    passage: Passage<'_>,
    leading: &LeadingStates,
    each_has_stop: bool,
    table: &mut Table,
    kept: &mut PlaceWays,
    room: &mut Room,
    steps: &mut Steps<L>,
) -> Result<(), Memory>
    requires searched { IsSearchedLexicon passage.lexicon.now }
    requires line { IsLine passage.line.now }
    requires leading { AreLeading passage.lexicon.now.machine leading.now }
    requires reached { HasReached passage.lexicon.now passage.line.now passage.choices.now table.old }
    requires kept { HaveAllWays passage.lexicon.now passage.line.now passage.choices.now table.old kept.old.stops.items kept.old.ways.items }
    requires late { kept.old.late.items ≡ [] }
    requires few { AreFew passage.lexicon.now passage.line.now kept.old.stops.items kept.old.ways.items }
    requires stops { IsTrue each_has_stop → HaveStops passage.lexicon.now passage.line.now table.old (indices_of kept.old.stops.items) }
    requires memo { (done : DoneValue) → IsKnown room.old.walking.memo done → ⊥ }
    requires walks { (walked : WalkedValue) → IsKept room.old.walking.walks walked → ⊥ }
    requires effects { AreEffects passage.lexicon.now.lexicon.rules room.old.walking.memo.effects }
    ensures living { OnOk result (IsChartTable passage.entry.lexicon.now passage.entry.line.now passage.entry.choices.now table.new) }
    ensures kept { OnOk result (HaveLivingWays passage.entry.lexicon.now passage.entry.line.now passage.entry.choices.now table.new kept.new.stops.items kept.new.ways.items) }
    ensures few { OnOk result (AreFew passage.entry.lexicon.now passage.entry.line.now kept.new.stops.items kept.new.ways.items) }
    ensures steps { (most : ℕ) → HasAtMostRules passage.entry.lexicon.now.tries most → steps.new ≤ steps.old + 2 * steps_of_summary passage.entry.lexicon.now passage.entry.line.now most }
{
    let state = passage.lexicon.automaton().start();
    let mut left = kept.stops.len();
    let mut until = visit_until(table, kept, left, each_has_stop, table.sets.len());
    while until > 0 {
        let index = until - 1;
        let (at, entrance) = table.place(index);
        let place = Configuration {
            at,
            entrance,
            state,
        };
        let site = Site {
            lexicon: passage.lexicon,
            line: passage.line,
            choices: passage.choices,
            place: &place,
        };
        let known = kept.last_at(left, index);
        let living = gather_from(
            site,
            Visit { index, known },
            leading,
            table,
            kept,
            room,
            steps,
        )?;
        table.replace(index, living);
        left = known.unwrap_or(left);
        until = visit_until(table, kept, left, each_has_stop, index);
    }
    kept.put_in_order()?;
    Ok(())
}
