ghost use Rattle.std.specs.Prelude.{◌≡◌, ◌+◌, ◌*◌, ◌<◌, ◌≤◌, ◌↔◌, ℕ, length, IfSome, OnOk};
ghost use Rattle.std.specs.Bool.{OnTrue};
ghost use Rattle.lexicon_definitions.specs.declared.limits.TheConstants.{MOST_RULE_LETTERS};
ghost use Rattle.search_frames.specs.Frames.{numbered_of};
ghost use Rattle.summary_chart.specs.AlikeFronts.{AreOnwardFronts, DoAlike, IsBegun, IsFirst, front_at};
ghost use Rattle.summary_chart.specs.LeadWalks.{IsLeadWalk};
ghost use Rattle.summary_chart.specs.Sites.{IsSite};
ghost use Rattle.summary_chart.specs.StateSets.{AreLeading, HasState, IsLedTo};

use super::leading_states::LeadingStates;
use super::site::{Front, Site};
use super::state_set::StateSet;
use super::walking::{LeadWalk, first_front_after};
use outside::Steps;
use phoneme::Memory;
use search_frames::may_begin;

/// A front for all phases whose forms do the same from it on, and states that come after these phases: in the pass forward those to which the
/// place's states lead, in the pass back those from which the line goes on to its end.
#[derive(Clone, Copy)]
pub(crate) struct AlikeFront {
    pub front: Front,
    pub states: StateSet,
}

/// Whether forms of the phases of two fronts do the same from these on, as far as is told without looking at forms and rules: the fronts
/// take as many letters and have one node, no rule tells the phases apart, and no choice is made.
pub(crate) fn do_alike(site: Site<'_>, one: &Front, other: &Front) -> bool
    ensures { OnTrue result (DoAlike site.entry.lexicon.now site.entry.choices.now one.now other.now) }
{
    one.node == other.node
        && one.taken == other.taken
        && site.is_free()
        && site.lexicon.alike_phase(one.phase) == site.lexicon.alike_phase(other.phase)
}

/// The number of the first of the fronts, counted from 0, whose phase does what that of this front does. Each front that is looked at takes a
/// step.
pub(crate) fn alike_at<L>(
    site: Site<'_>,
    front: &Front,
    fronts: &[AlikeFront],
    steps: &mut Steps<L>,
) -> Option<usize>
    ensures found { let site = site.entry in IfSome result (λ number. (number < length fronts.now) × DoAlike site.lexicon.now site.choices.now (front_at fronts.now number).front front.now) }
    ensures steps { steps.new ≤ steps.old + length fronts.now }
{
    for number in 0..fronts.len() {
        steps.tick();
        if do_alike(site, &fronts[number].front, front) {
            return Some(number);
        }
    }
    None
}

/// The front of the phase, counted from 0, that takes no letter of the line, if a form of the phase may be entered at the place and what the
/// rule before supplies leads anywhere.
pub(crate) fn begun_front<L>(
    site: Site<'_>,
    phase: u32,
    lead: &mut LeadWalk,
    steps: &mut Steps<L>,
) -> Option<Front>
    requires site { IsSite site }
    requires phase { phase < length site.lexicon.now.lexicon.rules.names }
    requires known { IsLeadWalk site.lexicon.now (numbered_of site.lexicon.now site.place.now) lead.old }
    ensures begun { let site = site.entry in IsBegun site.lexicon.now site.line.now site.choices.now (numbered_of site.lexicon.now site.place.now) phase result }
    ensures known { IsLeadWalk site.entry.lexicon.now (numbered_of site.entry.lexicon.now site.entry.place.now) lead.new }
    ensures steps { steps.new ≤ steps.old + MOST_RULE_LETTERS }
{
    if !may_begin(site.lexicon.rules(), site.place, phase) {
        return None;
    }
    first_front_after(site, phase, lead, steps)
}

/// Puts the states to the first of the fronts whose phase does what that of this front does; or puts the front with them after the others.
/// The states are those to which those of the set lead by its phase, the next one. Refused only for want of memory.
fn add_onward<L>(
    site: Site<'_>,
    states: StateSet,
    one: AlikeFront,
    fronts: &mut Vec<AlikeFront>,
    steps: &mut Steps<L>,
) -> Result<(), Memory>
    requires site { IsSite site }
    requires first { IsFirst site.lexicon.now site.line.now site.choices.now (numbered_of site.lexicon.now site.place.now) one.front }
    requires after { (number : ℕ) → HasState one.states number ↔ IsLedTo site.lexicon.now.machine states one.front.phase number }
    requires so_far { AreOnwardFronts site.lexicon.now site.line.now site.choices.now (numbered_of site.lexicon.now site.place.now) states one.front.phase fronts.old.items }
    ensures fronts { let site = site.entry in OnOk result (AreOnwardFronts site.lexicon.now site.line.now site.choices.now (numbered_of site.lexicon.now site.place.now) states (one.front.phase + 1) fronts.new.items) }
    ensures few { OnOk result (length fronts.new.items ≤ length fronts.old.items + 1) }
    ensures steps { steps.new ≤ steps.old + length fronts.old.items }
{
    match alike_at(site, &one.front, fronts.as_slice(), steps) {
        Some(number) => {
            let known = fronts[number];
            fronts[number] = AlikeFront {
                front: known.front,
                states: known.states.union(one.states),
            };
        }
        None => fronts.push(one)?,
    }
    Ok(())
}

/// Puts into the list, which is emptied first, a front that takes no letter for all phases that do the same from the place, with the states to
/// which those of the set lead by one of them. Phases to which none leads are left out, and those of which no form may be entered at the
/// place. Refused only for want of memory.
pub(crate) fn find_onward<L>(
    site: Site<'_>,
    states: StateSet,
    leading: &LeadingStates,
    fronts: &mut Vec<AlikeFront>,
    steps: &mut Steps<L>,
) -> Result<(), Memory>
    requires site { IsSite site }
    requires leading { AreLeading site.lexicon.now.machine leading.now }
    ensures fronts { let site = site.entry in OnOk result (AreOnwardFronts site.lexicon.now site.line.now site.choices.now (numbered_of site.lexicon.now site.place.now) states (length site.lexicon.now.lexicon.rules.names) fronts.new.items) }
    ensures few { OnOk result (length fronts.new.items ≤ length site.entry.lexicon.now.lexicon.rules.names) }
    ensures steps { let names = length site.entry.lexicon.now.lexicon.rules.names in steps.new ≤ steps.old + names * (1 + MOST_RULE_LETTERS + names) }
{
    fronts.clear();
    let automaton = site.lexicon.automaton();
    let mut lead = LeadWalk::none();
    for phase in 0..site.lexicon.rules().phases().len() as u32 {
        steps.tick();
        let after = leading.states_after(automaton, states, phase);
        if after.is_empty() {
            continue;
        }
        let Some(front) = begun_front(site, phase, &mut lead, steps) else {
            continue;
        };
        let one = AlikeFront {
            front,
            states: after,
        };
        add_onward(site, states, one, fronts, steps)?;
    }
    Ok(())
}
