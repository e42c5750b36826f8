ghost use Rattle.std.specs.Prelude.{[], ◌≡◌, ◌+◌, ◌*◌, ◌<◌, ◌≤◌, ℕ, length, slice_index_or, All, Contains, OnOk};
ghost use Rattle.derivation.specs.Steps.{key_meant};
ghost use Rattle.search_frames.specs.LetterTests.{DoAsTheseRules};
ghost use Rattle.search_frames.specs.Frames.{numbered_of};
ghost use Rattle.search_frames.specs.Configurations.{IsPossible};
ghost use Rattle.search_frames.specs.Costs.{HasAtMostRules};
ghost use Rattle.search_frames.specs.WaysFrom.{IsWayFrom, key_of_way};
ghost use Rattle.summary_chart.specs.Fronts.{IsFrontAt};
ghost use Rattle.summary_chart.specs.PlaceWays.{HasEachKey, LeadsOnOrEnds};
ghost use Rattle.summary_chart.specs.StateSets.{AreLeading, HasState};
ghost use Rattle.annotated_trie.specs.Choices.{choices_of, choices_with, parts_of, rules_of_part};
ghost use Rattle.std.specs.Bool.{OnTrue};
ghost use Rattle.summary_chart.specs.Levels.{AreLevel, IsFrontHere, IsLedFront, IsSpreadOn, SpreadsOnly};
ghost use Rattle.summary_chart.specs.Walked.{AreWalksSpread, IsKeptWith, IsKnownFrom, IsSpreadRoom};
ghost use Rattle.summary_chart.specs.declared.state_set.StateSet.{StateSet as StateSetValue};
ghost use Rattle.summary_chart.specs.declared.table.Table.{Table as TableValue};
ghost use Rattle.summary_chart.specs.Effects.{AreEffects};
ghost use Rattle.summary_chart.specs.Memos.{AreSpread, HasWorks, IsKnownWith, IsWork};
ghost use Rattle.summary_chart.specs.Onward.{DoAsRulesIfEntered, IsOnward, LeadSame, SpreadsOnward};
ghost use Rattle.summary_chart.specs.Sites.{IsSite, IsSiteAhead};
ghost use Rattle.summary_chart.specs.Tables.{IsTable};
ghost use Rattle.summary_chart.specs.Spreading.{Spreads, EveryKey, OnlyKey, IsByRule, IsAtFront, leads_in};
ghost use Rattle.summary_chart.specs.Summaries.{steps_of_items};

use super::alike::{AlikeFront, find_onward};
use super::leading_states::LeadingStates;
use super::longer::add_longer;
use super::memo::{FEW_RULES, Memo, Work};
use super::room::Room;
use super::same_effect::Effects;
use super::site::{Front, RuledFront, Site, SiteAhead};
use super::state_set::StateSet;
use super::state_steps::states_after;
use super::table::Table;
use super::walk_memo::{Walk, WalkMemo, shares_walks};
use super::walking::longer_front;
use annotated_trie::Annotated;
use derivation::Key;
use outside::Steps;
use phoneme::{Letter, Memory};
use search_frames::{Ahead, LetterTest, NODES_OF_FRAME, Way};
use std::mem::swap;

/// A site with what the line tells there, and the states that come after the forms that are looked at.
#[derive(Clone, Copy)]
pub(crate) struct Onward<'a> {
    pub here: SiteAhead<'a>,
    pub after: StateSet,
}

/// Puts into the table where the key, which is possible at the place, leads on to, with the states that come after it. The place's own
/// state is not looked at.
fn spread_key(onward: Onward<'_>, key: Key, table: &mut Table)
    requires onward { IsOnward onward key.phase }
    requires limit { onward.here.site.place.now.at + key.taken ≤ onward.here.ahead.limit }
    requires possible { IsPossible onward.here.site.lexicon.now onward.here.site.line.now (numbered_of onward.here.site.lexicon.now onward.here.site.place.now) (key_meant key) }
    requires table { IsTable (leads_in onward.here.site.lexicon.now) (length onward.here.site.line.now.letters) table.old }
    ensures table { IsTable (leads_in onward.entry.here.site.lexicon.now) (length onward.entry.here.site.line.now.letters) table.new }
    ensures spreads { SpreadsOnward onward.entry (OnlyKey (key_meant key)) table.old table.new }
{
    let Site {
        lexicon,
        line,
        choices,
        place,
    } = onward.here.site;
    let ahead = onward.here.ahead;
    if let LetterTest::LeadsOn { at, entrance } = ahead.test(lexicon, line, choices, place, key) {
        table.add(at, entrance, onward.after);
    }
}

/// Puts into the table where the keys with these rules, each of which is possible after this front, lead on to.
fn spread_rules<L>(
    onward: Onward<'_>,
    front: &Front,
    rules: &[u32],
    table: &mut Table,
    steps: &mut Steps<L>,
)
    requires onward { IsOnward onward front.now.phase }
    requires limit { onward.here.site.place.now.at + front.now.taken ≤ onward.here.ahead.limit }
    requires possible { All (λ rule. IsPossible onward.here.site.lexicon.now onward.here.site.line.now (numbered_of onward.here.site.lexicon.now onward.here.site.place.now) (record { phase = front.now.phase; taken = front.now.taken; rule = rule })) rules.now }
    requires table { IsTable (leads_in onward.here.site.lexicon.now) (length onward.here.site.line.now.letters) table.old }
    ensures table { IsTable (leads_in onward.entry.here.site.lexicon.now) (length onward.entry.here.site.line.now.letters) table.new }
    ensures spreads { SpreadsOnward onward.entry (IsByRule front.now.phase front.now.taken rules.now) table.old table.new }
    ensures steps { steps.new ≡ steps.old + length rules.now }
{
    for rule in rules {
        steps.tick();
        let key = Key {
            phase: front.phase,
            taken: front.taken,
            rule: *rule,
        };
        spread_key(onward, key, table);
    }
}

/// The same where keys with this front whose rules do the same lead on to the same from the place: of such rules one is looked at. Refused
/// only for want of memory.
fn spread_effects<L>(
    onward: Onward<'_>,
    front: &Front,
    rules: &[u32],
    table: &mut Table,
    effects: &mut Effects,
    steps: &mut Steps<L>,
) -> Result<(), Memory>
    requires onward { IsOnward onward front.now.phase }
    requires limit { onward.here.site.place.now.at + front.now.taken ≤ onward.here.ahead.limit }
    requires rules { All (λ rule. 0 < rule) rules.now }
    requires possible { All (λ rule. IsPossible onward.here.site.lexicon.now onward.here.site.line.now (numbered_of onward.here.site.lexicon.now onward.here.site.place.now) (record { phase = front.now.phase; taken = front.now.taken; rule = rule })) rules.now }
    requires leads { LeadSame onward.here.site.lexicon.now onward.here.site.line.now onward.here.site.choices.now (numbered_of onward.here.site.lexicon.now onward.here.site.place.now) front.now.phase front.now.taken }
    requires table { IsTable (leads_in onward.here.site.lexicon.now) (length onward.here.site.line.now.letters) table.old }
    requires effects { AreEffects onward.here.site.lexicon.now.lexicon.rules effects.old }
    ensures effects { OnOk result (AreEffects onward.entry.here.site.lexicon.now.lexicon.rules effects.new) }
    ensures table { OnOk result (IsTable (leads_in onward.entry.here.site.lexicon.now) (length onward.entry.here.site.line.now.letters) table.new) }
    ensures spreads { OnOk result (SpreadsOnward onward.entry (IsByRule front.now.phase front.now.taken rules.now) table.old table.new) }
    ensures steps { steps.new ≤ steps.old + length rules.now }
    ensures counted { OnOk result (steps.old + length rules.now ≤ steps.new) }
{
    let lexicon = onward.here.site.lexicon;
    effects.begin(lexicon.rules(), rules.len())?;
    for rule in rules {
        steps.tick();
        if effects.repeats(lexicon.rules(), *rule) {
            continue;
        }
        let key = Key {
            phase: front.phase,
            taken: front.taken,
            rule: *rule,
        };
        spread_key(onward, key, table);
    }
    Ok(())
}

/// Puts into the table where the key with this front that has no change leads on to, if a form ends at its node.
fn spread_unchanged(onward: Onward<'_>, front: &Front, table: &mut Table)
    requires onward { IsOnward onward front.now.phase }
    requires limit { onward.here.site.place.now.at + front.now.taken ≤ onward.here.ahead.limit }
    requires front { IsFrontAt onward.here.site.lexicon.now onward.here.site.line.now (numbered_of onward.here.site.lexicon.now onward.here.site.place.now) front.now.phase front.now.taken front.now.node }
    requires table { IsTable (leads_in onward.here.site.lexicon.now) (length onward.here.site.line.now.letters) table.old }
    ensures table { IsTable (leads_in onward.entry.here.site.lexicon.now) (length onward.entry.here.site.line.now.letters) table.new }
    ensures spreads { SpreadsOnward onward.entry (OnlyKey (record { phase = front.now.phase; taken = front.now.taken; rule = 0 })) table.old table.new }
{
    if !onward.here.site.lexicon.tries().store().accepts(front.node) {
        return;
    }
    let key = Key {
        phase: front.phase,
        taken: front.taken,
        rule: 0,
    };
    spread_key(onward, key, table);
}

/// The states that the work gave, if the memo keeps this; else none.
fn known_states(tries: &Annotated, memo: &Memo, work: &Work) -> StateSet
    requires work { IsWork tries.now work.now }
    requires works { HasWorks tries.now memo.now }
    ensures { (number : ℕ) → HasState result number → IsKnownWith tries.now memo.now work.now number }
{
    match memo.get(tries, work) {
        Some(states) => states,
        None => StateSet::empty(),
    }
}

/// Puts into the table where the keys with this front and the rules of a part of its node's choices lead on to, where each of these keys
/// does what its rule does. What the memo has already is not put there once more. Refused only for want of memory.
fn spread_part<L>(
    onward: Onward<'_>,
    ruled: RuledFront<'_>,
    part: u32,
    table: &mut Table,
    memo: &mut Memo,
    steps: &mut Steps<L>,
) -> Result<(), Memory>
    requires onward { IsOnward onward ruled.front.now.phase }
    requires limit { onward.here.site.place.now.at + ruled.front.now.taken ≤ onward.here.ahead.limit }
    requires front { IsFrontAt onward.here.site.lexicon.now onward.here.site.line.now (numbered_of onward.here.site.lexicon.now onward.here.site.place.now) ruled.front.now.phase ruled.front.now.taken ruled.front.now.node }
    requires leads { LeadSame onward.here.site.lexicon.now onward.here.site.line.now onward.here.site.choices.now (numbered_of onward.here.site.lexicon.now onward.here.site.place.now) ruled.front.now.phase ruled.front.now.taken }
    requires does { DoAsTheseRules onward.here.site.lexicon.now onward.here.site.line.now onward.here.site.choices.now (numbered_of onward.here.site.lexicon.now onward.here.site.place.now) ruled.front.now.taken ruled.may_end (rules_of_part onward.here.site.lexicon.now.tries part) }
    requires table { IsTable (leads_in onward.here.site.lexicon.now) (length onward.here.site.line.now.letters) table.old }
    requires memo { AreSpread onward.here.site.lexicon.now onward.here.site.line.now table.old memo.old }
    requires part { Contains (parts_of onward.here.site.lexicon.now.tries ruled.front.now.node) part }
    ensures memo { OnOk result (AreSpread onward.entry.here.site.lexicon.now onward.entry.here.site.line.now table.new memo.new) }
    ensures table { OnOk result (IsTable (leads_in onward.entry.here.site.lexicon.now) (length onward.entry.here.site.line.now.letters) table.new) }
    ensures spreads { OnOk result (SpreadsOnward onward.entry (IsByRule ruled.entry.front.now.phase ruled.entry.front.now.taken (rules_of_part onward.entry.here.site.lexicon.now.tries part)) table.old table.new) }
    ensures steps { steps.new ≤ steps.old + (1 + length (rules_of_part onward.entry.here.site.lexicon.now.tries part)) }
{
    steps.tick();
    let RuledFront { front, may_end } = ruled;
    let site = onward.here.site;
    let tries = site.lexicon.tries();
    let work = Work {
        node: front.node,
        part: Some(part),
        end: site.place.at + front.taken,
        may_end,
        phase: site.lexicon.alike_phase(front.phase),
    };
    let known = known_states(tries, memo, &work);
    let all = known.union(onward.after);
    if all == known {
        return Ok(());
    }
    let rules = tries.rules_of_part(part);
    spread_effects(onward, front, rules, table, &mut memo.effects, steps)?;
    memo.keep(tries, &work, all)?;
    Ok(())
}

/// The same for all choices of the node, part by part. Parts are passed over with whose rules no form may be entered at the place.
fn spread_parts<L>(
    onward: Onward<'_>,
    ruled: RuledFront<'_>,
    table: &mut Table,
    memo: &mut Memo,
    steps: &mut Steps<L>,
) -> Result<(), Memory>
    requires onward { IsOnward onward ruled.front.now.phase }
    requires limit { onward.here.site.place.now.at + ruled.front.now.taken ≤ onward.here.ahead.limit }
    requires front { IsFrontAt onward.here.site.lexicon.now onward.here.site.line.now (numbered_of onward.here.site.lexicon.now onward.here.site.place.now) ruled.front.now.phase ruled.front.now.taken ruled.front.now.node }
    requires does { DoAsRulesIfEntered onward.here ruled.front.now.taken ruled.may_end }
    requires table { IsTable (leads_in onward.here.site.lexicon.now) (length onward.here.site.line.now.letters) table.old }
    requires memo { AreSpread onward.here.site.lexicon.now onward.here.site.line.now table.old memo.old }
    ensures memo { OnOk result (AreSpread onward.entry.here.site.lexicon.now onward.entry.here.site.line.now table.new memo.new) }
    ensures table { OnOk result (IsTable (leads_in onward.entry.here.site.lexicon.now) (length onward.entry.here.site.line.now.letters) table.new) }
    ensures spreads { OnOk result (SpreadsOnward onward.entry (IsByRule ruled.entry.front.now.phase ruled.entry.front.now.taken (choices_of onward.entry.here.site.lexicon.now.tries ruled.entry.front.now.node)) table.old table.new) }
    ensures steps { steps.new ≤ steps.old + 2 * length (choices_of onward.entry.here.site.lexicon.now.tries ruled.entry.front.now.node) }
{
    let SiteAhead { site, ahead } = onward.here;
    let taken = ruled.front.taken;
    let parts = site.lexicon.tries().parts(ruled.front.node);
    for part in parts {
        if !ahead.lets_part_in(site.lexicon, site.place, taken, *part) {
            steps.tick();
            continue;
        }
        spread_part(onward, ruled, *part, table, memo, steps)?;
    }
    Ok(())
}

/// Puts into the table where the keys with this front and with a rule whose `w` begins with this letter, the next one of the line, lead on
/// to, where each key with the front whose form may be entered does what its rule does: rule by rule where these are few, and else part by
/// part. Refused only for want of memory.
fn spread_anew<L>(
    onward: Onward<'_>,
    ruled: RuledFront<'_>,
    letter: Letter,
    table: &mut Table,
    memo: &mut Memo,
    steps: &mut Steps<L>,
) -> Result<(), Memory>
    requires onward { IsOnward onward ruled.front.now.phase }
    requires limit { onward.here.site.place.now.at + ruled.front.now.taken ≤ onward.here.ahead.limit }
    requires front { IsFrontAt onward.here.site.lexicon.now onward.here.site.line.now (numbered_of onward.here.site.lexicon.now onward.here.site.place.now) ruled.front.now.phase ruled.front.now.taken ruled.front.now.node }
    requires letter { letter ≡ slice_index_or onward.here.site.line.now.letters (onward.here.site.place.now.at + ruled.front.now.taken) letter }
    requires does { DoAsRulesIfEntered onward.here ruled.front.now.taken ruled.may_end }
    requires table { IsTable (leads_in onward.here.site.lexicon.now) (length onward.here.site.line.now.letters) table.old }
    requires memo { AreSpread onward.here.site.lexicon.now onward.here.site.line.now table.old memo.old }
    ensures memo { OnOk result (AreSpread onward.entry.here.site.lexicon.now onward.entry.here.site.line.now table.new memo.new) }
    ensures table { OnOk result (IsTable (leads_in onward.entry.here.site.lexicon.now) (length onward.entry.here.site.line.now.letters) table.new) }
    ensures spreads { OnOk result (SpreadsOnward onward.entry (IsByRule ruled.entry.front.now.phase ruled.entry.front.now.taken (choices_with onward.entry.here.site.lexicon.now.tries ruled.entry.front.now.node letter)) table.old table.new) }
    ensures steps { (most : ℕ) → HasAtMostRules onward.entry.here.site.lexicon.now.tries most → steps.new ≤ steps.old + (1 + 2 * most) }
{
    let front = ruled.front;
    let tries = onward.here.site.lexicon.tries();
    let rules = tries.choices_with(front.node, letter, steps);
    if rules.len() > FEW_RULES {
        spread_parts(onward, ruled, table, memo, steps)?;
        return Ok(());
    }
    spread_effects(onward, front, rules, table, &mut memo.effects, steps)?;
    Ok(())
}

/// Puts into the table where the keys with this front and with a rule whose `w` begins with this letter, the next one of the line, lead on
/// to. What the memo has already is not put there once more. Refused only for want of memory.
fn spread_changed<L>(
    onward: Onward<'_>,
    front: &Front,
    letter: Letter,
    table: &mut Table,
    memo: &mut Memo,
    steps: &mut Steps<L>,
) -> Result<(), Memory>
    requires onward { IsOnward onward front.now.phase }
    requires limit { onward.here.site.place.now.at + front.now.taken ≤ onward.here.ahead.limit }
    requires front { IsFrontAt onward.here.site.lexicon.now onward.here.site.line.now (numbered_of onward.here.site.lexicon.now onward.here.site.place.now) front.now.phase front.now.taken front.now.node }
    requires letter { letter ≡ slice_index_or onward.here.site.line.now.letters (onward.here.site.place.now.at + front.now.taken) letter }
    requires table { IsTable (leads_in onward.here.site.lexicon.now) (length onward.here.site.line.now.letters) table.old }
    requires memo { AreSpread onward.here.site.lexicon.now onward.here.site.line.now table.old memo.old }
    ensures memo { OnOk result (AreSpread onward.entry.here.site.lexicon.now onward.entry.here.site.line.now table.new memo.new) }
    ensures table { OnOk result (IsTable (leads_in onward.entry.here.site.lexicon.now) (length onward.entry.here.site.line.now.letters) table.new) }
    ensures spreads { OnOk result (SpreadsOnward onward.entry (IsByRule front.now.phase front.now.taken (choices_with onward.entry.here.site.lexicon.now.tries front.now.node letter)) table.old table.new) }
    ensures steps { (most : ℕ) → HasAtMostRules onward.entry.here.site.lexicon.now.tries most → steps.new ≤ steps.old + (2 + 2 * most) }
{
    steps.tick();
    let Site {
        lexicon,
        line,
        choices,
        place,
    } = onward.here.site;
    let ahead = onward.here.ahead;
    let tries = lexicon.tries();
    let Some(may_end) = ahead.end_by_rules(lexicon, line, choices, place, front.taken) else {
        if onward.here.site.is_free() {
            let may_end = ahead.may_end;
            let ruled = RuledFront { front, may_end };
            return spread_anew(onward, ruled, letter, table, memo, steps);
        }
        let rules = tries.choices_with(front.node, letter, steps);
        spread_rules(onward, front, rules, table, steps);
        return Ok(());
    };
    let work = Work {
        node: front.node,
        part: None,
        end: place.at + front.taken,
        may_end,
        phase: lexicon.alike_phase(front.phase),
    };
    let known = known_states(tries, memo, &work);
    let all = known.union(onward.after);
    if all == known {
        return Ok(());
    }
    let ruled = RuledFront { front, may_end };
    spread_anew(onward, ruled, letter, table, memo, steps)?;
    memo.keep(tries, &work, all)?;
    Ok(())
}

/// Puts into the table where the keys with this front lead on to. What its rules put there is not put there once more where the memo has it
/// already. Refused only for want of memory.
fn spread_front<L>(
    onward: Onward<'_>,
    front: &Front,
    table: &mut Table,
    memo: &mut Memo,
    steps: &mut Steps<L>,
) -> Result<(), Memory>
    requires onward { IsOnward onward front.now.phase }
    requires limit { onward.here.site.place.now.at + front.now.taken ≤ onward.here.ahead.limit }
    requires front { IsFrontAt onward.here.site.lexicon.now onward.here.site.line.now (numbered_of onward.here.site.lexicon.now onward.here.site.place.now) front.now.phase front.now.taken front.now.node }
    requires table { IsTable (leads_in onward.here.site.lexicon.now) (length onward.here.site.line.now.letters) table.old }
    requires memo { AreSpread onward.here.site.lexicon.now onward.here.site.line.now table.old memo.old }
    ensures memo { OnOk result (AreSpread onward.entry.here.site.lexicon.now onward.entry.here.site.line.now table.new memo.new) }
    ensures table { OnOk result (IsTable (leads_in onward.entry.here.site.lexicon.now) (length onward.entry.here.site.line.now.letters) table.new) }
    ensures spreads { OnOk result (SpreadsOnward onward.entry (IsAtFront front.now.phase front.now.taken) table.old table.new) }
    ensures steps { (most : ℕ) → HasAtMostRules onward.entry.here.site.lexicon.now.tries most → steps.new ≤ steps.old + (3 + 2 * most) }
{
    steps.tick();
    spread_unchanged(onward, front, table);
    let site = onward.here.site;
    let end = site.place.at + front.taken;
    let line = site.line;
    let Some(letter) = line.letters.as_slice().get(end as usize) else {
        return Ok(());
    };
    spread_changed(onward, front, *letter, table, memo, steps)
}

/// The states that the walk gave, if the memo keeps this; else none.
fn known_of_walk(walks: &WalkMemo, walk: &Walk) -> StateSet
    ensures { (number : ℕ) → HasState result number → IsKeptWith walks.now walk.now number }
{
    match walks.get(walk) {
        Some(states) => states,
        None => StateSet::empty(),
    }
}

/// Whether the memo keeps that all keys with this front and with longer ones were spread with the states that come after them. It is asked
/// of a front that takes a letter, where `shares` says that it may be. Takes a step.
fn is_spread<L>(
    onward: Onward<'_>,
    front: &Front,
    shares: bool,
    walks: &WalkMemo,
    steps: &mut Steps<L>,
) -> bool
    requires here { IsSiteAhead onward.here }
    requires limit { onward.here.site.place.now.at + front.now.taken ≤ onward.here.ahead.limit }
    ensures known { OnTrue result (IsKnownFrom onward.entry.here front.now onward.entry.after walks.now) }
    ensures steps { steps.new ≡ steps.old + 1 }
{
    steps.tick();
    if !shares || front.taken == 0 {
        return false;
    }
    let known = known_of_walk(walks, &Walk::from(onward.here, front));
    known.union(onward.after) == known
}

/// Puts into the table where the keys with the fronts lead on to, each with its states, and goes on to the fronts with one letter more, which
/// are then in place of these. From a front from which the memo has all, nothing is put there and none is gone on to. Those that were gone over
/// are told. Refused only for want of memory.
fn spread_level<L>(
    here: SiteAhead<'_>,
    shares: bool,
    table: &mut Table,
    room: &mut Room,
    steps: &mut Steps<L>,
) -> Result<(), Memory>
    requires here { IsSiteAhead here }
    requires fronts { All (IsFrontHere here) room.old.fronts.items }
    requires walked { All (IsFrontHere here) room.old.walked.items }
    requires table { IsTable (leads_in here.site.lexicon.now) (length here.site.line.now.letters) table.old }
    requires room { IsSpreadRoom here.site.lexicon.now here.site.line.now table.old room.old.walking }
    ensures room { OnOk result (IsSpreadRoom here.entry.site.lexicon.now here.entry.site.line.now table.new room.new.walking) }
    ensures table { OnOk result (IsTable (leads_in here.entry.site.lexicon.now) (length here.entry.site.line.now.letters) table.new) }
    ensures fronts { OnOk result (All (IsFrontHere here.entry) room.new.fronts.items) }
    ensures walked { OnOk result (All (IsFrontHere here.entry) room.new.walked.items) }
    ensures level { (set : StateSetValue) (taken : ℕ) → AreLevel here.entry set taken table.old room.old.fronts.items → OnOk result (AreLevel here.entry set (taken + 1) table.new room.new.fronts.items) }
    ensures only { (set : StateSetValue) (taken : ℕ) → AreLevel here.entry set taken table.old room.old.fronts.items → OnOk result (SpreadsOnly here.entry set table.old table.new) }
    ensures led { (set : StateSetValue) (taken : ℕ) → AreLevel here.entry set taken table.old room.old.fronts.items → All (IsLedFront here.entry set) room.old.walked.items → OnOk result (All (IsLedFront here.entry set) room.new.walked.items) }
    ensures few { OnOk result (length room.new.fronts.items ≤ length room.old.fronts.items) }
    ensures few_walked { OnOk result (length room.new.walked.items ≤ length room.old.walked.items + length room.old.fronts.items) }
    ensures steps { (most : ℕ) → HasAtMostRules here.entry.site.lexicon.now.tries most → steps.new ≤ steps.old + length room.old.fronts.items * (5 + 2 * most) }
{
    room.longer.clear();
    for number in 0..room.fronts.len() {
        let one = room.fronts[number];
        let onward = Onward {
            here,
            after: one.states,
        };
        if is_spread(onward, &one.front, shares, &room.walking.walks, steps) {
            continue;
        }
        spread_front(onward, &one.front, table, &mut room.walking.memo, steps)?;
        room.walked.push(one)?;
        let Some(front) = longer_front(here.site, &one.front, here.ahead.limit, steps) else {
            continue;
        };
        let longer = AlikeFront {
            front,
            states: one.states,
        };
        add_longer(here.site, longer, &mut room.longer, &mut room.seats)?;
    }
    swap(&mut room.fronts, &mut room.longer);
    Ok(())
}

/// Keeps of each of the fronts but those that take no letter that its keys and those of longer fronts were spread with its states. Refused only
/// for want of memory.
fn keep_spread<L>(
    here: SiteAhead<'_>,
    walked: &[AlikeFront],
    walks: &mut WalkMemo,
    steps: &mut Steps<L>,
) -> Result<(), Memory>
    requires here { IsSiteAhead here }
    requires walked { All (IsFrontHere here) walked.now }
    ensures walks { (table : TableValue) → let site = here.entry.site in AreWalksSpread site.lexicon.now site.line.now table walks.old → All (IsSpreadOn here.entry table) walked.now → OnOk result (AreWalksSpread site.lexicon.now site.line.now table walks.new) }
    ensures steps { steps.new ≤ steps.old + length walked.now }
{
    for one in walked {
        steps.tick();
        if one.front.taken == 0 {
            continue;
        }
        let walk = Walk::from(here, &one.front);
        let known = known_of_walk(walks, &walk);
        walks.keep(&walk, known.union(one.states))?;
    }
    Ok(())
}

/// Puts into the table where any key leads on to from the place with the states of the set. Phases to which no state of the set leads are
/// passed over. The fronts of all phases are gone over letter by letter, so that of those from which on forms do the same one is gone over.
/// The place's own state is not looked at. Refused only for want of memory.
pub(crate) fn spread<L>(
    site: Site<'_>,
    states: StateSet,
    leading: &LeadingStates,
    table: &mut Table,
    room: &mut Room,
    steps: &mut Steps<L>,
) -> Result<(), Memory>
    requires site { IsSite site }
    requires leading { AreLeading site.lexicon.now.machine leading.now }
    requires table { IsTable (leads_in site.lexicon.now) (length site.line.now.letters) table.old }
    requires room { IsSpreadRoom site.lexicon.now site.line.now table.old room.old.walking }
    ensures room { OnOk result (IsSpreadRoom site.entry.lexicon.now site.entry.line.now table.new room.new.walking) }
    ensures table { OnOk result (IsTable (leads_in site.entry.lexicon.now) (length site.entry.line.now.letters) table.new) }
    ensures spreads { OnOk result (Spreads site.entry.lexicon.now site.entry.line.now site.entry.choices.now site.entry.place.now.at site.entry.place.now.entrance states EveryKey table.old table.new) }
    ensures steps { (most : ℕ) → HasAtMostRules site.entry.lexicon.now.tries most → steps.new ≤ steps.old + steps_of_items site.entry.lexicon.now most }
{
    let here = SiteAhead {
        site,
        ahead: Ahead::of(site.lexicon.rules(), site.line, site.place),
    };
    let shares = shares_walks(here);
    find_onward(site, states, leading, &mut room.fronts, steps)?;
    room.walked.clear();
    for _ in 0..NODES_OF_FRAME {
        if room.fronts.is_empty() {
            break;
        }
        spread_level(here, shares, table, room, steps)?;
    }
    if !shares {
        return Ok(());
    }
    let walks = &mut room.walking.walks;
    keep_spread(here, room.walked.as_slice(), walks, steps)?;
    Ok(())
}

/// Puts into the table where the way leads on to from the states of the set at the place. The place's own state is not looked at.
fn spread_way(site: Site<'_>, states: StateSet, way: &Way, table: &mut Table)
    requires site { IsSite site }
    requires way { IsWayFrom site.lexicon.now site.line.now site.choices.now (numbered_of site.lexicon.now site.place.now) way.now }
    requires table { IsTable (leads_in site.lexicon.now) (length site.line.now.letters) table.old }
    ensures table { IsTable (leads_in site.entry.lexicon.now) (length site.entry.line.now.letters) table.new }
    ensures spreads { Spreads site.entry.lexicon.now site.entry.line.now site.entry.choices.now site.entry.place.now.at site.entry.place.now.entrance states (OnlyKey (key_of_way way.now)) table.old table.new }
{
    if let LetterTest::LeadsOn { at, entrance } = way.test {
        table.add(
            at,
            entrance,
            states_after(site.lexicon.automaton(), states, way.key.phase),
        );
    }
}

/// Puts into the table where the ways lead on to from the states of the set. They are from the place, and each key that leads on from
/// there with one of these states is that of one. The place's own state is not looked at. Each way takes a step.
pub(crate) fn spread_ways<L>(
    site: Site<'_>,
    states: StateSet,
    ways: &[Way],
    table: &mut Table,
    steps: &mut Steps<L>,
)
    requires site { IsSite site }
    requires ways { All (IsWayFrom site.lexicon.now site.line.now site.choices.now (numbered_of site.lexicon.now site.place.now)) ways.now }
    requires all { HasEachKey site.lexicon.now (LeadsOnOrEnds site.lexicon.now site.line.now site.choices.now) site.place.now.at site.place.now.entrance states ways.now }
    requires table { IsTable (leads_in site.lexicon.now) (length site.line.now.letters) table.old }
    ensures table { IsTable (leads_in site.entry.lexicon.now) (length site.entry.line.now.letters) table.new }
    ensures spreads { Spreads site.entry.lexicon.now site.entry.line.now site.entry.choices.now site.entry.place.now.at site.entry.place.now.entrance states EveryKey table.old table.new }
    ensures steps { steps.new ≡ steps.old + length ways.now }
{
    for way in ways {
        steps.tick();
        spread_way(site, states, way, table);
    }
}
