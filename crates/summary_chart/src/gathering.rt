ghost use Rattle.std.specs.Prelude.{[], IfSome, IsTrue, ◌≡◌, ◌⊎◌, ◌+◌, ◌*◌, ◌<◌, ◌≤◌, ℕ, length, slice_index_or, None, All, IfOk, OnOk};
ghost use Rattle.derivation.specs.Steps.{key_meant};
ghost use Rattle.annotated_trie.specs.Choices.{choices_of, choices_with};
ghost use Rattle.search_frames.specs.Ahead.{MayBegin};
ghost use Rattle.search_frames.specs.Frames.{numbered_of};
ghost use Rattle.search_frames.specs.Configurations.{IsPossible};
ghost use Rattle.search_frames.specs.Costs.{HasAtMostRules};
ghost use Rattle.search_frames.specs.WaysFrom.{IsWayFrom, key_of_way};
ghost use Rattle.summary_chart.specs.Effects.{AreEffects};
ghost use Rattle.summary_chart.specs.Fronts.{IsFrontAt};
ghost use Rattle.summary_chart.specs.PlaceWays.{HasEachKey, IsLivingKey, IsLivingPart};
ghost use Rattle.search_frames.specs.declared.frame.TheConstants.{NODES_OF_FRAME};
ghost use Rattle.summary_chart.specs.AlikeFronts.{IsFirst, IsLivingFront};
ghost use Rattle.summary_chart.specs.Walked.{AreWalkedFronts, AreWalksLiving, FitWithLetter, IsFromFront, IsKept, IsLater, IsLivingRoom, IsWalkOf};
ghost use Rattle.summary_chart.specs.declared.table.Table.{Table as TableValue};
ghost use Rattle.summary_chart.specs.declared.walk_memo.Walked.{Walked as WalkedValue};
ghost use Rattle.summary_chart.specs.Onward.{AreLivingBy};
ghost use Rattle.summary_chart.specs.Memos.{AreLiving, EndFrom};
ghost use Rattle.summary_chart.specs.Sites.{IsSite, IsSiteAhead};
ghost use Rattle.summary_chart.specs.StateSets.{AreLeading};
ghost use Rattle.summary_chart.specs.Tables.{IsTable};
ghost use Rattle.summary_chart.specs.Spreading.{AreGoingFurther, EveryKey, GoesFurtherBy, OnlyKey, IsByRule, IsAtFront, IsInPhase, leads_in};
ghost use Rattle.summary_chart.specs.Summaries.{steps_after_first, steps_of_items};

use super::alike::{AlikeFront, alike_at, begun_front};
use super::leading_states::LeadingStates;
use super::living_work::{living_after, living_by_part};
use super::memo::{FEW_RULES, Memo, Work};
use super::room::{Room, WalkRoom};
use super::same_effect::Effects;
use super::site::{Front, Site, SiteAhead};
use super::state_set::StateSet;
use super::state_steps::{accepted_states, accepting_states, states_into};
use super::table::Table;
use super::walk_memo::{Walk, WalkMemo, shares_walks};
use super::walking::{LeadWalk, longer_front};
use derivation::Key;
use outside::Steps;
use phoneme::{Letter, Memory};
use search_frames::{Ahead, LetterTest, Way};
use shared_trie::Node;

/// The states of the set from which the key, which is possible at the place, ends the line or leads on to a place of the table. The
/// place's own state is not looked at.
pub(crate) fn states_by_key(
    here: SiteAhead<'_>,
    states: StateSet,
    key: Key,
    table: &Table,
) -> StateSet
    requires here { IsSiteAhead here }
    requires limit { here.site.place.now.at + key.taken ≤ here.ahead.limit }
    requires begins { MayBegin (numbered_of here.site.lexicon.now here.site.place.now).entrance key.phase }
    requires possible { IsPossible here.site.lexicon.now here.site.line.now (numbered_of here.site.lexicon.now here.site.place.now) (key_meant key) }
    requires table { IsTable (leads_in here.site.lexicon.now) (length here.site.line.now.letters) table.now }
    ensures { AreGoingFurther here.entry.site.lexicon.now here.entry.site.line.now here.entry.site.choices.now table.now here.entry.site.place.now.at here.entry.site.place.now.entrance states (OnlyKey (key_meant key)) result }
{
    let site = here.site;
    let automaton = site.lexicon.automaton();
    match here
        .ahead
        .test(site.lexicon, site.line, site.choices, site.place, key)
    {
        LetterTest::Refused => StateSet::empty(),
        LetterTest::Ends => accepted_states(automaton, states, key.phase),
        LetterTest::LeadsOn { at, entrance } => {
            states_into(automaton, states, key.phase, table.get(at, entrance))
        }
    }
}

/// The states after the phase of the key, which is possible at the place, from which it ends the line or leads on to a place of the table.
/// The place's own state is not looked at.
fn living_by_key(here: SiteAhead<'_>, key: Key, table: &Table) -> StateSet
    requires here { IsSiteAhead here }
    requires limit { here.site.place.now.at + key.taken ≤ here.ahead.limit }
    requires begins { MayBegin (numbered_of here.site.lexicon.now here.site.place.now).entrance key.phase }
    requires possible { IsPossible here.site.lexicon.now here.site.line.now (numbered_of here.site.lexicon.now here.site.place.now) (key_meant key) }
    requires table { IsTable (leads_in here.site.lexicon.now) (length here.site.line.now.letters) table.now }
    ensures { let site = here.entry.site in AreLivingBy site.lexicon.now site.line.now site.choices.now (numbered_of site.lexicon.now site.place.now) table.now (OnlyKey (key_meant key)) result }
{
    let site = here.site;
    match here
        .ahead
        .test(site.lexicon, site.line, site.choices, site.place, key)
    {
        LetterTest::Refused => StateSet::empty(),
        LetterTest::Ends => accepting_states(site.lexicon.automaton()),
        LetterTest::LeadsOn { at, entrance } => table.get(at, entrance),
    }
}

/// The same for the keys with these rules, each of which is possible after this front.
fn living_by_all<L>(
    here: SiteAhead<'_>,
    front: &Front,
    rules: &[u32],
    table: &Table,
    steps: &mut Steps<L>,
) -> StateSet
    requires here { IsSiteAhead here }
    requires limit { here.site.place.now.at + front.now.taken ≤ here.ahead.limit }
    requires begins { MayBegin (numbered_of here.site.lexicon.now here.site.place.now).entrance front.now.phase }
    requires possible { All (λ rule. IsPossible here.site.lexicon.now here.site.line.now (numbered_of here.site.lexicon.now here.site.place.now) (record { phase = front.now.phase; taken = front.now.taken; rule = rule })) rules.now }
    requires table { IsTable (leads_in here.site.lexicon.now) (length here.site.line.now.letters) table.now }
    ensures living { let site = here.entry.site in AreLivingBy site.lexicon.now site.line.now site.choices.now (numbered_of site.lexicon.now site.place.now) table.now (IsByRule front.now.phase front.now.taken rules.now) result }
    ensures steps { steps.new ≡ steps.old + length rules.now }
{
    let mut living = StateSet::empty();
    for rule in rules {
        steps.tick();
        let key = Key {
            phase: front.phase,
            taken: front.taken,
            rule: *rule,
        };
        living = living.union(living_by_key(here, key, table));
    }
    living
}

/// The same where no choice is made: of rules that do the same, one is looked at. Refused only for want of memory.
fn living_by_effects<L>(
    here: SiteAhead<'_>,
    front: &Front,
    rules: &[u32],
    table: &Table,
    effects: &mut Effects,
    steps: &mut Steps<L>,
) -> Result<StateSet, Memory>
    requires here { IsSiteAhead here }
    requires free { here.site.choices.now ≡ [] }
    requires limit { here.site.place.now.at + front.now.taken ≤ here.ahead.limit }
    requires begins { MayBegin (numbered_of here.site.lexicon.now here.site.place.now).entrance front.now.phase }
    requires rules { All (λ rule. 0 < rule) rules.now }
    requires possible { All (λ rule. IsPossible here.site.lexicon.now here.site.line.now (numbered_of here.site.lexicon.now here.site.place.now) (record { phase = front.now.phase; taken = front.now.taken; rule = rule })) rules.now }
    requires table { IsTable (leads_in here.site.lexicon.now) (length here.site.line.now.letters) table.now }
    requires effects { AreEffects here.site.lexicon.now.lexicon.rules effects.old }
    ensures effects { OnOk result (AreEffects here.entry.site.lexicon.now.lexicon.rules effects.new) }
    ensures living { let site = here.entry.site in IfOk result (λ living. AreLivingBy site.lexicon.now site.line.now site.choices.now (numbered_of site.lexicon.now site.place.now) table.now (IsByRule front.now.phase front.now.taken rules.now) living) }
    ensures steps { steps.new ≤ steps.old + length rules.now }
{
    let lexicon = here.site.lexicon;
    effects.begin(lexicon.rules(), rules.len())?;
    let mut living = StateSet::empty();
    for rule in rules {
        steps.tick();
        if effects.repeats(lexicon.rules(), *rule) {
            continue;
        }
        let key = Key {
            phase: front.phase,
            taken: front.taken,
            rule: *rule,
        };
        living = living.union(living_by_key(here, key, table));
    }
    Ok(living)
}

/// The same for the key with this front that has no change, if a form ends at its node.
fn living_unchanged(here: SiteAhead<'_>, front: &Front, table: &Table) -> StateSet
    requires here { IsSiteAhead here }
    requires limit { here.site.place.now.at + front.now.taken ≤ here.ahead.limit }
    requires begins { MayBegin (numbered_of here.site.lexicon.now here.site.place.now).entrance front.now.phase }
    requires front { IsFrontAt here.site.lexicon.now here.site.line.now (numbered_of here.site.lexicon.now here.site.place.now) front.now.phase front.now.taken front.now.node }
    requires table { IsTable (leads_in here.site.lexicon.now) (length here.site.line.now.letters) table.now }
    ensures { let site = here.entry.site in AreLivingBy site.lexicon.now site.line.now site.choices.now (numbered_of site.lexicon.now site.place.now) table.now (OnlyKey (record { phase = front.now.phase; taken = front.now.taken; rule = 0 })) result }
{
    if !here.site.lexicon.tries().store().accepts(front.node) {
        return StateSet::empty();
    }
    let key = Key {
        phase: front.phase,
        taken: front.taken,
        rule: 0,
    };
    living_by_key(here, key, table)
}

/// The states after the phase of this front from which some key with it and with a rule ends the line or leads on to a place of the table,
/// where no choice is made: part by part. Parts are passed over with whose rules no form may be entered at the place. Refused only for want of
/// memory.
fn living_by_entered_parts<L>(
    here: SiteAhead<'_>,
    front: &Front,
    table: &Table,
    memo: &mut Memo,
    steps: &mut Steps<L>,
) -> Result<StateSet, Memory>
    requires here { IsSiteAhead here }
    requires free { here.site.choices.now ≡ [] }
    requires limit { here.site.place.now.at + front.now.taken ≤ here.ahead.limit }
    requires begins { MayBegin (numbered_of here.site.lexicon.now here.site.place.now).entrance front.now.phase }
    requires front { IsFrontAt here.site.lexicon.now here.site.line.now (numbered_of here.site.lexicon.now here.site.place.now) front.now.phase front.now.taken front.now.node }
    requires table { IsTable (leads_in here.site.lexicon.now) (length here.site.line.now.letters) table.now }
    requires memo { AreLiving here.site.lexicon.now here.site.line.now table.now memo.old }
    ensures memo { OnOk result (AreLiving here.entry.site.lexicon.now here.entry.site.line.now table.now memo.new) }
    ensures ends { OnOk result (EndFrom here.entry.site.place.now.at memo.old → EndFrom here.entry.site.place.now.at memo.new) }
    ensures living { let site = here.entry.site in IfOk result (λ living. AreLivingBy site.lexicon.now site.line.now site.choices.now (numbered_of site.lexicon.now site.place.now) table.now (IsByRule front.now.phase front.now.taken (choices_of site.lexicon.now.tries front.now.node)) living) }
    ensures steps { steps.new ≤ steps.old + 2 * length (choices_of here.entry.site.lexicon.now.tries front.now.node) }
{
    let SiteAhead { site, ahead } = here;
    let lexicon = site.lexicon;
    let work = Work {
        node: front.node,
        part: None,
        end: site.place.at + front.taken,
        may_end: ahead.may_end,
        phase: lexicon.alike_phase(front.phase),
    };
    let parts = lexicon.tries().parts(front.node);
    let mut living = StateSet::empty();
    for part in parts {
        if !ahead.lets_part_in(lexicon, site.place, front.taken, *part) {
            steps.tick();
            continue;
        }
        let found = living_by_part(site, &work, *part, table, memo, steps)?;
        living = living.union(found);
    }
    Ok(living)
}

/// The same for the rules whose `w` begins with this letter, the next one of the line: rule by rule where these are few, and else part by part.
fn living_by_entered_rules<L>(
    here: SiteAhead<'_>,
    front: &Front,
    letter: Letter,
    table: &Table,
    memo: &mut Memo,
    steps: &mut Steps<L>,
) -> Result<StateSet, Memory>
    requires here { IsSiteAhead here }
    requires free { here.site.choices.now ≡ [] }
    requires limit { here.site.place.now.at + front.now.taken ≤ here.ahead.limit }
    requires begins { MayBegin (numbered_of here.site.lexicon.now here.site.place.now).entrance front.now.phase }
    requires front { IsFrontAt here.site.lexicon.now here.site.line.now (numbered_of here.site.lexicon.now here.site.place.now) front.now.phase front.now.taken front.now.node }
    requires letter { letter ≡ slice_index_or here.site.line.now.letters (here.site.place.now.at + front.now.taken) letter }
    requires table { IsTable (leads_in here.site.lexicon.now) (length here.site.line.now.letters) table.now }
    requires memo { AreLiving here.site.lexicon.now here.site.line.now table.now memo.old }
    ensures memo { OnOk result (AreLiving here.entry.site.lexicon.now here.entry.site.line.now table.now memo.new) }
    ensures ends { OnOk result (EndFrom here.entry.site.place.now.at memo.old → EndFrom here.entry.site.place.now.at memo.new) }
    ensures living { let site = here.entry.site in IfOk result (λ living. AreLivingBy site.lexicon.now site.line.now site.choices.now (numbered_of site.lexicon.now site.place.now) table.now (IsByRule front.now.phase front.now.taken (choices_with site.lexicon.now.tries front.now.node letter)) living) }
    ensures steps { (most : ℕ) → HasAtMostRules here.entry.site.lexicon.now.tries most → steps.new ≤ steps.old + (1 + 2 * most) }
{
    let tries = here.site.lexicon.tries();
    let rules = tries.choices_with(front.node, letter, steps);
    if rules.len() > FEW_RULES {
        let found = living_by_entered_parts(here, front, table, memo, steps)?;
        return Ok(found);
    }
    let effects = &mut memo.effects;
    let living = living_by_effects(here, front, rules, table, effects, steps)?;
    Ok(living)
}

/// The states after the phase of this front from which some key with it ends the line or leads on to a place of the table. Refused only for
/// want of memory.
fn living_at_front<L>(
    here: SiteAhead<'_>,
    front: &Front,
    table: &Table,
    memo: &mut Memo,
    steps: &mut Steps<L>,
) -> Result<StateSet, Memory>
    requires here { IsSiteAhead here }
    requires limit { here.site.place.now.at + front.now.taken ≤ here.ahead.limit }
    requires begins { MayBegin (numbered_of here.site.lexicon.now here.site.place.now).entrance front.now.phase }
    requires front { IsFrontAt here.site.lexicon.now here.site.line.now (numbered_of here.site.lexicon.now here.site.place.now) front.now.phase front.now.taken front.now.node }
    requires table { IsTable (leads_in here.site.lexicon.now) (length here.site.line.now.letters) table.now }
    requires memo { AreLiving here.site.lexicon.now here.site.line.now table.now memo.old }
    ensures memo { OnOk result (AreLiving here.entry.site.lexicon.now here.entry.site.line.now table.now memo.new) }
    ensures ends { OnOk result (EndFrom here.entry.site.place.now.at memo.old → EndFrom here.entry.site.place.now.at memo.new) }
    ensures living { let site = here.entry.site in IfOk result (λ living. AreLivingBy site.lexicon.now site.line.now site.choices.now (numbered_of site.lexicon.now site.place.now) table.now (IsAtFront front.now.phase front.now.taken) living) }
    ensures steps { (most : ℕ) → HasAtMostRules here.entry.site.lexicon.now.tries most → steps.new ≤ steps.old + (3 + 2 * most) }
{
    steps.tick();
    let Site {
        lexicon,
        line,
        choices,
        place,
    } = here.site;
    let ahead = here.ahead;
    let unchanged = living_unchanged(here, front, table);
    let end = place.at + front.taken;
    let Some(letter) = line.letters.as_slice().get(end as usize) else {
        return Ok(unchanged);
    };
    let Some(may_end) = ahead.end_by_rules(lexicon, line, choices, place, front.taken) else {
        if here.site.is_free() {
            let found = living_by_entered_rules(here, front, *letter, table, memo, steps)?;
            return Ok(unchanged.union(found));
        }
        let rules = lexicon.tries().choices_with(front.node, *letter, steps);
        return Ok(unchanged.union(living_by_all(here, front, rules, table, steps)));
    };
    let work = Work {
        node: front.node,
        part: None,
        end,
        may_end,
        phase: lexicon.alike_phase(front.phase),
    };
    let changed = living_after(here.site, &work, *letter, table, memo, steps)?;
    Ok(unchanged.union(changed))
}

/// The states after the phase of this front from which some key with it or a longer front ends the line or leads on to a place of the
/// table, if the memo keeps them. It is asked of a front that takes a letter, where `shares` says that it may be. Takes a step.
fn known_living<L>(
    here: SiteAhead<'_>,
    front: &Front,
    shares: bool,
    walks: &WalkMemo,
    steps: &mut Steps<L>,
) -> Option<StateSet>
    requires here { IsSiteAhead here }
    requires limit { here.site.place.now.at + front.now.taken ≤ here.ahead.limit }
    ensures known { IfSome result (λ living. (walked : WalkedValue) × IsKept walks.now walked × IsWalkOf here.entry front.now shares living walked) }
    ensures steps { steps.new ≡ steps.old + 1 }
{
    steps.tick();
    if !shares || front.taken == 0 {
        return None;
    }
    walks.get(&Walk::from(here, front))
}

/// Puts the nodes of the fronts of the phase of this one, which takes no letter, into the list, which is empty: as far as they lead, or
/// until one of which the memo keeps what lives from there on, where `shares` says that it may be asked. Gives what it keeps, and else no
/// state. Refused only for want of memory.
fn walk_to_known<L>(
    here: SiteAhead<'_>,
    first: &Front,
    shares: bool,
    nodes: &mut Vec<Node>,
    walks: &WalkMemo,
    steps: &mut Steps<L>,
) -> Result<StateSet, Memory>
    requires here { IsSiteAhead here }
    requires first { IsFirst here.site.lexicon.now here.site.line.now here.site.choices.now (numbered_of here.site.lexicon.now here.site.place.now) first.now }
    requires shares { IsTrue shares → FitWithLetter here }
    requires nodes { nodes.old.items ≡ [] }
    ensures nodes { OnOk result (AreWalkedFronts here.entry first.now.phase nodes.new.items) }
    ensures living { (table : TableValue) → let site = here.entry.site in AreWalksLiving site.lexicon.now site.line.now table walks.now → IfOk result (λ living. AreLivingBy site.lexicon.now site.line.now site.choices.now (numbered_of site.lexicon.now site.place.now) table (IsFromFront first.now.phase (length nodes.new.items)) living) }
    ensures steps { steps.new ≤ steps.old + 2 * NODES_OF_FRAME + 1 }
{
    let mut next = Some(*first);
    while let Some(front) = next {
        if let Some(living) = known_living(here, &front, shares, walks, steps) {
            return Ok(living);
        }
        nodes.push(front.node)?;
        next = longer_front(here.site, &front, here.ahead.limit, steps);
    }
    Ok(StateSet::empty())
}

/// Keeps that these are the states that live from this front on, if it takes a letter and `shares` says that this may be asked elsewhere.
/// Refused only for want of memory.
fn keep_walk<L>(
    here: SiteAhead<'_>,
    front: &Front,
    shares: bool,
    living: StateSet,
    walks: &mut WalkMemo,
    steps: &mut Steps<L>,
) -> Result<(), Memory>
    requires here { IsSiteAhead here }
    requires limit { here.site.place.now.at + front.now.taken ≤ here.ahead.limit }
    ensures keeps { OnOk result ((walked : WalkedValue) → IsKept walks.new walked → IsKept walks.old walked ⊎ IsWalkOf here.entry front.now shares living walked) }
    ensures steps { steps.new ≤ steps.old + 1 }
{
    if !shares || front.taken == 0 {
        return Ok(());
    }
    steps.tick();
    walks.keep(&Walk::from(here, front), living)
}

/// The states after the phase of this front, which takes no letter, from which some key of the phase ends the line or leads on to a place
/// of the table. What the memo of walks has already is not found once more. Refused only for want of memory.
fn living_in_phase<L>(
    here: SiteAhead<'_>,
    first: &Front,
    table: &Table,
    room: &mut WalkRoom,
    steps: &mut Steps<L>,
) -> Result<StateSet, Memory>
    requires here { IsSiteAhead here }
    requires first { IsFirst here.site.lexicon.now here.site.line.now here.site.choices.now (numbered_of here.site.lexicon.now here.site.place.now) first.now }
    requires table { IsTable (leads_in here.site.lexicon.now) (length here.site.line.now.letters) table.now }
    requires room { IsLivingRoom here.site.lexicon.now here.site.line.now table.now room.old }
    ensures room { OnOk result (IsLivingRoom here.entry.site.lexicon.now here.entry.site.line.now table.now room.new) }
    ensures later { OnOk result (IsLater here.entry.site.place.now.at room.old → IsLater here.entry.site.place.now.at room.new) }
    ensures living { let site = here.entry.site in IfOk result (λ living. AreLivingBy site.lexicon.now site.line.now site.choices.now (numbered_of site.lexicon.now site.place.now) table.now (IsInPhase first.now.phase) living) }
    ensures steps { (most : ℕ) → HasAtMostRules here.entry.site.lexicon.now.tries most → steps.new ≤ steps.old + steps_after_first most }
{
    let shares = shares_walks(here);
    room.nodes.clear();
    let mut living = walk_to_known(here, first, shares, &mut room.nodes, &room.walks, steps)?;
    for taken in (0..room.nodes.len()).rev() {
        let front = Front {
            phase: first.phase,
            taken: taken as u32,
            node: room.nodes[taken],
        };
        let found = living_at_front(here, &front, table, &mut room.memo, steps)?;
        living = living.union(found);
        keep_walk(here, &front, shares, living, &mut room.walks, steps)?;
    }
    Ok(living)
}

/// The same, where it is looked for first among the fronts of other phases with what was found for them, and put there. Refused only for
/// want of memory.
fn living_from_first<L>(
    here: SiteAhead<'_>,
    first: &Front,
    table: &Table,
    room: &mut Room,
    steps: &mut Steps<L>,
) -> Result<StateSet, Memory>
    requires here { IsSiteAhead here }
    requires first { IsFirst here.site.lexicon.now here.site.line.now here.site.choices.now (numbered_of here.site.lexicon.now here.site.place.now) first.now }
    requires table { IsTable (leads_in here.site.lexicon.now) (length here.site.line.now.letters) table.now }
    requires room { IsLivingRoom here.site.lexicon.now here.site.line.now table.now room.old.walking }
    requires fronts { All (IsLivingFront here.site.lexicon.now here.site.line.now here.site.choices.now (numbered_of here.site.lexicon.now here.site.place.now) table.now) room.old.fronts.items }
    ensures room { OnOk result (IsLivingRoom here.entry.site.lexicon.now here.entry.site.line.now table.now room.new.walking) }
    ensures later { OnOk result (IsLater here.entry.site.place.now.at room.old.walking → IsLater here.entry.site.place.now.at room.new.walking) }
    ensures fronts { let site = here.entry.site in OnOk result (All (IsLivingFront site.lexicon.now site.line.now site.choices.now (numbered_of site.lexicon.now site.place.now) table.now) room.new.fronts.items) }
    ensures few { OnOk result (length room.new.fronts.items ≤ length room.old.fronts.items + 1) }
    ensures living { let site = here.entry.site in IfOk result (λ living. AreLivingBy site.lexicon.now site.line.now site.choices.now (numbered_of site.lexicon.now site.place.now) table.now (IsInPhase first.now.phase) living) }
    ensures steps { (most : ℕ) → HasAtMostRules here.entry.site.lexicon.now.tries most → steps.new ≤ steps.old + (length room.old.fronts.items + steps_after_first most) }
{
    if let Some(number) = alike_at(here.site, first, room.fronts.as_slice(), steps) {
        return Ok(room.fronts[number].states);
    }
    let living = living_in_phase(here, first, table, &mut room.walking, steps)?;
    room.fronts.push(AlikeFront {
        front: *first,
        states: living,
    })?;
    Ok(living)
}

/// The states of the set from which some key ends the line, or leads on from the place to a place of the table. Phases to which no state
/// of the set leads are passed over. The place's own state is not looked at. Refused only for want of memory.
pub(crate) fn gather<L>(
    site: Site<'_>,
    states: StateSet,
    leading: &LeadingStates,
    table: &Table,
    room: &mut Room,
    steps: &mut Steps<L>,
) -> Result<StateSet, Memory>
    requires site { IsSite site }
    requires leading { AreLeading site.lexicon.now.machine leading.now }
    requires table { IsTable (leads_in site.lexicon.now) (length site.line.now.letters) table.now }
    requires room { IsLivingRoom site.lexicon.now site.line.now table.now room.old.walking }
    ensures room { OnOk result (IsLivingRoom site.entry.lexicon.now site.entry.line.now table.now room.new.walking) }
    ensures later { OnOk result (IsLater site.entry.place.now.at room.old.walking → IsLater site.entry.place.now.at room.new.walking) }
    ensures gathers { IfOk result (λ gathered. AreGoingFurther site.entry.lexicon.now site.entry.line.now site.entry.choices.now table.now site.entry.place.now.at site.entry.place.now.entrance states EveryKey gathered) }
    ensures steps { (most : ℕ) → HasAtMostRules site.entry.lexicon.now.tries most → steps.new ≤ steps.old + steps_of_items site.entry.lexicon.now most }
{
    let rules = site.lexicon.rules();
    let here = SiteAhead {
        site,
        ahead: Ahead::of(rules, site.line, site.place),
    };
    room.fronts.clear();
    let phases = rules.phases().len();
    let automaton = site.lexicon.automaton();
    let mut lead = LeadWalk::none();
    let mut gathered = StateSet::empty();
    for phase in 0..phases as u32 {
        steps.tick();
        if !leading.lead(states, phase) {
            continue;
        }
        let Some(first) = begun_front(site, phase, &mut lead, steps) else {
            continue;
        };
        let living = living_from_first(here, &first, table, room, steps)?;
        let found = leading.states_into(automaton, states, phase, living);
        gathered = gathered.union(found);
    }
    Ok(gathered)
}

/// The states of the set from which the way ends the line or leads on to a place of the table. The place's own state is not looked at.
pub(crate) fn states_by_way(site: Site<'_>, states: StateSet, way: &Way, table: &Table) -> StateSet
    requires site { IsSite site }
    requires way { IsWayFrom site.lexicon.now site.line.now site.choices.now (numbered_of site.lexicon.now site.place.now) way.now }
    requires table { IsTable (leads_in site.lexicon.now) (length site.line.now.letters) table.now }
    ensures { AreGoingFurther site.entry.lexicon.now site.entry.line.now site.entry.choices.now table.now site.entry.place.now.at site.entry.place.now.entrance states (OnlyKey (key_of_way way.now)) result }
{
    let automaton = site.lexicon.automaton();
    match way.test {
        LetterTest::Refused => StateSet::empty(),
        LetterTest::Ends => accepted_states(automaton, states, way.key.phase),
        LetterTest::LeadsOn { at, entrance } => {
            states_into(automaton, states, way.key.phase, table.get(at, entrance))
        }
    }
}

/// The states of a set that go further by some ways, and where the ways stand that are left without the dead ones before the first living
/// way and after the last: from `first` to before `end` among these ways.
#[derive(Clone, Copy)]
pub(crate) struct LivingWays {
    pub states: StateSet,
    pub first: usize,
    pub end: usize,
}

/// The states of the set from which one of the ways ends the line or leads on to a place of the table, and the part of the ways from the
/// first to the last by which some state does so. They are from the place, and each key by which some state of the set does so is that of
/// one. The place's own state is not looked at. Each way takes a step.
pub(crate) fn gather_ways<L>(
    site: Site<'_>,
    states: StateSet,
    ways: &[Way],
    table: &Table,
    steps: &mut Steps<L>,
) -> LivingWays
    requires site { IsSite site }
    requires ways { All (IsWayFrom site.lexicon.now site.line.now site.choices.now (numbered_of site.lexicon.now site.place.now)) ways.now }
    requires all { HasEachKey site.lexicon.now (GoesFurtherBy site.lexicon.now site.line.now site.choices.now table.now) site.place.now.at site.place.now.entrance states ways.now }
    requires table { IsTable (leads_in site.lexicon.now) (length site.line.now.letters) table.now }
    ensures gathers { AreGoingFurther site.entry.lexicon.now site.entry.line.now site.entry.choices.now table.now site.entry.place.now.at site.entry.place.now.entrance states EveryKey result.states }
    ensures part { let here = site.entry in IsLivingPart (IsLivingKey here.lexicon.now here.line.now here.choices.now table.now here.place.now.at here.place.now.entrance states) ways.now result.first result.end }
    ensures steps { steps.new ≡ steps.old + length ways.now }
{
    let mut living = LivingWays {
        states: StateSet::empty(),
        first: 0,
        end: 0,
    };
    for number in 0..ways.len() {
        steps.tick();
        let further = states_by_way(site, states, &ways[number], table);
        if further.is_empty() {
            continue;
        }
        living.states = living.states.union(further);
        if living.end == 0 {
            living.first = number;
        }
        living.end = number + 1;
    }
    living
}
