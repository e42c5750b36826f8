ghost use Rattle.std.specs.Prelude.{◌≡◌, ◌⊎◌, ◌++◌, ◌∷◌, [], ◌+◌, ◌*◌, ◌<◌, ◌≤◌, ℕ, length, All, OnOk};
ghost use Rattle.lexicon_definitions.specs.Lexicons.{rule_of};
ghost use Rattle.derivation.specs.Steps.{key_meant};
ghost use Rattle.search_frames.specs.Ahead.{MayBegin};
ghost use Rattle.search_frames.specs.Frames.{numbered_of};
ghost use Rattle.search_frames.specs.Configurations.{IsPossible};
ghost use Rattle.search_frames.specs.Costs.{HasAtMostRules};
ghost use Rattle.search_frames.specs.WaysFrom.{IsWayFrom, key_of_way};
ghost use Rattle.summary_chart.specs.Fronts.{IsFrontAt};
ghost use Rattle.summary_chart.specs.PlaceWays.{HasEachKey};
ghost use Rattle.summary_chart.specs.Sites.{IsSite, IsSiteAhead};
ghost use Rattle.summary_chart.specs.Tables.{IsTable};
ghost use Rattle.summary_chart.specs.Spreading.{GoesFurtherBy, leads_in};
ghost use Rattle.summary_chart.specs.Summaries.{item_with, made_of, AddsItems, HasSeen, IsCollected, IsItemBy, IsItemByRule, IsItemUnchanged, IsItemAtFront, IsItemInPhase, IsItemFrom, steps_of_front, steps_of_fronts, steps_of_items};

use super::collected::Collected;
use super::gathering::{states_by_key, states_by_way};
use super::items::item_of_step;
use super::site::{Front, Site, SiteAhead};
use super::state_set::StateSet;
use super::state_steps::states_after;
use super::table::Table;
use super::walking::walk_fronts;
use derivation::{Key, Step};
use outside::Steps;
use phoneme::Memory;
use search_frames::{Ahead, Way, may_begin, supplied_letters};
use shared_trie::Node;

/// The states with which a search stands at a place, and the table to places of which it is to go further.
#[derive(Clone, Copy)]
pub(crate) struct Standing<'a> {
    pub states: StateSet,
    pub table: &'a Table,
}

/// Puts in the item of the way, which is from the place, where some state of the set goes further by it. The place's own state is not
/// looked at. An item takes two steps: it is made, and put in order later. Refused only for want of memory.
fn collect_way<L>(
    site: Site<'_>,
    standing: Standing<'_>,
    way: &Way,
    collected: &mut Collected,
    steps: &mut Steps<L>,
) -> Result<(), Memory>
    requires site { IsSite site }
    requires way { IsWayFrom site.lexicon.now site.line.now site.choices.now (numbered_of site.lexicon.now site.place.now) way.now }
    requires table { IsTable (leads_in site.lexicon.now) (length site.line.now.letters) standing.table.now }
    requires collected { IsCollected site.lexicon.now.lexicon.rules collected.old }
    ensures collected { OnOk result (IsCollected site.entry.lexicon.now.lexicon.rules collected.new) }
    ensures adds { let here = site.entry in OnOk result (AddsItems (IsItemBy here.lexicon.now here.line.now here.choices.now standing.entry.table.now here.place.now.at here.place.now.entrance standing.entry.states (key_of_way way.now)) collected.old.items.items collected.new.items.items) }
    ensures steps { steps.new ≤ steps.old + 2 }
    ensures counted { steps.old ≤ steps.new }
{
    if states_by_way(site, standing.states, way, standing.table).is_empty() {
        return Ok(());
    }
    put_item(site, way.key, collected, steps)
}

/// Puts in the items of the ways by which some state of the set goes further. They are from the place, and each key by which some state of
/// the set does so is that of one. The place's own state is not looked at. Refused only for want of memory.
pub(crate) fn collect_ways<L>(
    site: Site<'_>,
    standing: Standing<'_>,
    ways: &[Way],
    collected: &mut Collected,
    steps: &mut Steps<L>,
) -> Result<(), Memory>
    requires site { IsSite site }
    requires ways { All (IsWayFrom site.lexicon.now site.line.now site.choices.now (numbered_of site.lexicon.now site.place.now)) ways.now }
    requires all { HasEachKey site.lexicon.now (GoesFurtherBy site.lexicon.now site.line.now site.choices.now standing.table.now) site.place.now.at site.place.now.entrance standing.states ways.now }
    requires table { IsTable (leads_in site.lexicon.now) (length site.line.now.letters) standing.table.now }
    requires collected { IsCollected site.lexicon.now.lexicon.rules collected.old }
    ensures collected { OnOk result (IsCollected site.entry.lexicon.now.lexicon.rules collected.new) }
    ensures adds { let here = site.entry in OnOk result (AddsItems (IsItemFrom here.lexicon.now here.line.now here.choices.now standing.entry.table.now here.place.now.at here.place.now.entrance standing.entry.states) collected.old.items.items collected.new.items.items) }
    ensures steps { steps.new ≤ steps.old + 3 * length ways.now }
    ensures counted { OnOk result (steps.old + length ways.now ≤ steps.new) }
{
    for way in ways {
        steps.tick();
        collect_way(site, standing, way, collected, steps)?;
    }
    Ok(())
}

/// Puts in the item of the key at the place, which takes two steps. Refused only for want of memory.
fn put_item<L>(
    site: Site<'_>,
    key: Key,
    collected: &mut Collected,
    steps: &mut Steps<L>,
) -> Result<(), Memory>
    requires site { IsSite site }
    requires possible { IsPossible site.lexicon.now site.line.now (numbered_of site.lexicon.now site.place.now) (key_meant key) }
    requires collected { IsCollected site.lexicon.now.lexicon.rules collected.old }
    ensures collected { OnOk result (IsCollected site.entry.lexicon.now.lexicon.rules collected.new) }
    ensures items { let here = site.entry in OnOk result (collected.new.items.items ≡ collected.old.items.items ++ item_with here.lexicon.now here.line.now here.place.now.at here.place.now.entrance (key_meant key) ∷ []) }
    ensures made { let rules = site.entry.lexicon.now.lexicon.rules in OnOk result ((other : ℕ) → other ≤ length rules.rules
        → (made_of collected.new other ≡ made_of collected.old other) ⊎ ((rule_of rules other).u ≡ (rule_of rules key.rule).u)) }
    ensures steps { steps.new ≡ steps.old + 2 }
{
    let rules = site.lexicon.rules();
    let place = site.place;
    let step = Step {
        phase: key.phase,
        rule: key.rule,
        at: place.at,
        lead: supplied_letters(rules, place.entrance).len() as u32,
        taken: key.taken,
    };
    steps.tick();
    steps.tick();
    let item = item_of_step(collected.alloc, rules, site.line, place.entrance, &step)?;
    collected.put(rules, key.rule, item)
}

/// Puts in the item of the key, which is possible at the place, where some state of the set goes further by it: then its step stands
/// in an answer. The place's own state is not looked at. An item takes two steps: it is made, and put in order later. Refused only
/// for want of memory.
fn collect_key<L>(
    here: SiteAhead<'_>,
    standing: Standing<'_>,
    key: Key,
    collected: &mut Collected,
    steps: &mut Steps<L>,
) -> Result<(), Memory>
    requires here { IsSiteAhead here }
    requires limit { here.site.place.now.at + key.taken ≤ here.ahead.limit }
    requires begins { MayBegin (numbered_of here.site.lexicon.now here.site.place.now).entrance key.phase }
    requires possible { IsPossible here.site.lexicon.now here.site.line.now (numbered_of here.site.lexicon.now here.site.place.now) (key_meant key) }
    requires table { IsTable (leads_in here.site.lexicon.now) (length here.site.line.now.letters) standing.table.now }
    requires collected { IsCollected here.site.lexicon.now.lexicon.rules collected.old }
    ensures collected { OnOk result (IsCollected here.entry.site.lexicon.now.lexicon.rules collected.new) }
    ensures adds { let site = here.entry.site in OnOk result (AddsItems (IsItemBy site.lexicon.now site.line.now site.choices.now standing.entry.table.now site.place.now.at site.place.now.entrance standing.entry.states (key_meant key)) collected.old.items.items collected.new.items.items) }
    ensures seen { let site = here.entry.site in OnOk result ((since : ℕ) → HasSeen site.lexicon.now site.line.now site.place.now.at site.place.now.entrance key.phase key.taken since collected.old
        → HasSeen site.lexicon.now site.line.now site.place.now.at site.place.now.entrance key.phase key.taken since collected.new) }
    ensures steps { steps.new ≤ steps.old + 2 }
    ensures counted { steps.old ≤ steps.new }
{
    if states_by_key(here, standing.states, key, standing.table).is_empty() {
        return Ok(());
    }
    put_item(here.site, key, collected, steps)
}

/// Puts in the items of the rules, each of which is possible after this front, by which some state of the set goes further; where there are
/// more than a few, one for all rules with the same `u`. The place's own state is not looked at. Refused only for want of memory.
fn collect_rules<L>(
    here: SiteAhead<'_>,
    standing: Standing<'_>,
    front: &Front,
    rules: &[u32],
    collected: &mut Collected,
    steps: &mut Steps<L>,
) -> Result<(), Memory>
    requires here { IsSiteAhead here }
    requires limit { here.site.place.now.at + front.now.taken ≤ here.ahead.limit }
    requires begins { MayBegin (numbered_of here.site.lexicon.now here.site.place.now).entrance front.now.phase }
    requires possible { All (λ rule. IsPossible here.site.lexicon.now here.site.line.now (numbered_of here.site.lexicon.now here.site.place.now) (record { phase = front.now.phase; taken = front.now.taken; rule = rule })) rules.now }
    requires table { IsTable (leads_in here.site.lexicon.now) (length here.site.line.now.letters) standing.table.now }
    requires collected { IsCollected here.site.lexicon.now.lexicon.rules collected.old }
    ensures collected { OnOk result (IsCollected here.entry.site.lexicon.now.lexicon.rules collected.new) }
    ensures adds { let site = here.entry.site in OnOk result (AddsItems (IsItemByRule site.lexicon.now site.line.now site.choices.now standing.entry.table.now site.place.now.at site.place.now.entrance standing.entry.states front.now.phase front.now.taken rules.now) collected.old.items.items collected.new.items.items) }
    ensures steps { steps.new ≤ steps.old + 3 * length rules.now }
    ensures counted { OnOk result (steps.old + length rules.now ≤ steps.new) }
{
    let lexicon = here.site.lexicon;
    collected.expect(lexicon.rules(), rules.len())?;
    let since = collected.items.len();
    for rule in rules {
        steps.tick();
        if collected.has(lexicon.rules(), *rule, since) {
            continue;
        }
        let key = Key {
            phase: front.phase,
            taken: front.taken,
            rule: *rule,
        };
        collect_key(here, standing, key, collected, steps)?;
    }
    Ok(())
}

/// Puts in the item of the key with this front that has no change, if a form ends at its node and some state of the set goes further by it.
/// The place's own state is not looked at. Refused only for want of memory.
fn collect_unchanged<L>(
    here: SiteAhead<'_>,
    standing: Standing<'_>,
    front: &Front,
    collected: &mut Collected,
    steps: &mut Steps<L>,
) -> Result<(), Memory>
    requires here { IsSiteAhead here }
    requires limit { here.site.place.now.at + front.now.taken ≤ here.ahead.limit }
    requires begins { MayBegin (numbered_of here.site.lexicon.now here.site.place.now).entrance front.now.phase }
    requires front { IsFrontAt here.site.lexicon.now here.site.line.now (numbered_of here.site.lexicon.now here.site.place.now) front.now.phase front.now.taken front.now.node }
    requires table { IsTable (leads_in here.site.lexicon.now) (length here.site.line.now.letters) standing.table.now }
    requires collected { IsCollected here.site.lexicon.now.lexicon.rules collected.old }
    ensures collected { OnOk result (IsCollected here.entry.site.lexicon.now.lexicon.rules collected.new) }
    ensures adds { let site = here.entry.site in OnOk result (AddsItems (IsItemUnchanged site.lexicon.now site.line.now site.choices.now standing.entry.table.now site.place.now.at site.place.now.entrance standing.entry.states front.now.phase front.now.taken front.now.node) collected.old.items.items collected.new.items.items) }
    ensures steps { steps.new ≤ steps.old + 2 }
{
    if !here.site.lexicon.tries().store().accepts(front.node) {
        return Ok(());
    }
    let key = Key {
        phase: front.phase,
        taken: front.taken,
        rule: 0,
    };
    collect_key(here, standing, key, collected, steps)
}

/// Puts in the items of the keys with this front by which some state of the set goes further. The place's own state is not looked at.
/// Refused only for want of memory.
fn collect_front<L>(
    here: SiteAhead<'_>,
    standing: Standing<'_>,
    front: &Front,
    collected: &mut Collected,
    steps: &mut Steps<L>,
) -> Result<(), Memory>
    requires here { IsSiteAhead here }
    requires limit { here.site.place.now.at + front.now.taken ≤ here.ahead.limit }
    requires begins { MayBegin (numbered_of here.site.lexicon.now here.site.place.now).entrance front.now.phase }
    requires front { IsFrontAt here.site.lexicon.now here.site.line.now (numbered_of here.site.lexicon.now here.site.place.now) front.now.phase front.now.taken front.now.node }
    requires table { IsTable (leads_in here.site.lexicon.now) (length here.site.line.now.letters) standing.table.now }
    requires collected { IsCollected here.site.lexicon.now.lexicon.rules collected.old }
    ensures collected { OnOk result (IsCollected here.entry.site.lexicon.now.lexicon.rules collected.new) }
    ensures adds { let site = here.entry.site in OnOk result (AddsItems (IsItemAtFront site.lexicon.now site.line.now site.choices.now standing.entry.table.now site.place.now.at site.place.now.entrance standing.entry.states front.now.phase front.now.taken) collected.old.items.items collected.new.items.items) }
    ensures steps { (most : ℕ) → HasAtMostRules here.entry.site.lexicon.now.tries most → steps.new ≤ steps.old + steps_of_front most }
{
    let Site {
        lexicon,
        line,
        place,
        ..
    } = here.site;
    steps.tick();
    collect_unchanged(here, standing, front, collected, steps)?;
    let end = place.at as usize + front.taken as usize;
    let Some(letter) = line.letters.as_slice().get(end) else {
        return Ok(());
    };
    let rules = lexicon.tries().choices_with(front.node, *letter, steps);
    collect_rules(here, standing, front, rules, collected, steps)
}

/// Puts in the items of the keys of the phase by which some state of the set goes further. The place's own state is not looked at.
/// Refused only for want of memory.
fn collect_phase<L>(
    here: SiteAhead<'_>,
    standing: Standing<'_>,
    phase: u32,
    nodes: &mut Vec<Node>,
    collected: &mut Collected,
    steps: &mut Steps<L>,
) -> Result<(), Memory>
    requires here { IsSiteAhead here }
    requires begins { MayBegin (numbered_of here.site.lexicon.now here.site.place.now).entrance phase }
    requires phase { phase < length here.site.lexicon.now.lexicon.rules.names }
    requires table { IsTable (leads_in here.site.lexicon.now) (length here.site.line.now.letters) standing.table.now }
    requires collected { IsCollected here.site.lexicon.now.lexicon.rules collected.old }
    ensures collected { OnOk result (IsCollected here.entry.site.lexicon.now.lexicon.rules collected.new) }
    ensures adds { let site = here.entry.site in OnOk result (AddsItems (IsItemInPhase site.lexicon.now site.line.now site.choices.now standing.entry.table.now site.place.now.at site.place.now.entrance standing.entry.states phase) collected.old.items.items collected.new.items.items) }
    ensures steps { (most : ℕ) → HasAtMostRules here.entry.site.lexicon.now.tries most → steps.new ≤ steps.old + steps_of_fronts most }
{
    walk_fronts(here.site, phase, here.ahead.limit, nodes, steps)?;
    for taken in 0..nodes.len() {
        let front = Front {
            phase,
            taken: taken as u32,
            node: nodes[taken],
        };
        collect_front(here, standing, &front, collected, steps)?;
    }
    Ok(())
}

/// Puts in the items of the keys by which some state of the set goes further from the place. Phases to which no state of the set leads
/// are passed over. The place's own state is not looked at. Refused only for want of memory.
pub(crate) fn collect<L>(
    site: Site<'_>,
    standing: Standing<'_>,
    nodes: &mut Vec<Node>,
    collected: &mut Collected,
    steps: &mut Steps<L>,
) -> Result<(), Memory>
    requires site { IsSite site }
    requires table { IsTable (leads_in site.lexicon.now) (length site.line.now.letters) standing.table.now }
    requires collected { IsCollected site.lexicon.now.lexicon.rules collected.old }
    ensures collected { OnOk result (IsCollected site.entry.lexicon.now.lexicon.rules collected.new) }
    ensures adds { let here = site.entry in OnOk result (AddsItems (IsItemFrom here.lexicon.now here.line.now here.choices.now standing.entry.table.now here.place.now.at here.place.now.entrance standing.entry.states) collected.old.items.items collected.new.items.items) }
    ensures steps { (most : ℕ) → HasAtMostRules site.entry.lexicon.now.tries most → steps.new ≤ steps.old + steps_of_items site.entry.lexicon.now most }
{
    let lexicon = site.lexicon;
    let rules = lexicon.rules();
    let ahead = Ahead::of(rules, site.line, site.place);
    let here = SiteAhead { site, ahead };
    let phases = rules.phases().len();
    for phase in 0..phases as u32 {
        steps.tick();
        if states_after(lexicon.automaton(), standing.states, phase).is_empty()
            || !may_begin(rules, site.place, phase)
        {
            continue;
        }
        collect_phase(here, standing, phase, nodes, collected, steps)?;
    }
    Ok(())
}
