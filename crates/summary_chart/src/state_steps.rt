ghost use Rattle.std.specs.Prelude.{◌≡◌, ◌<◌, ◌≤◌, ◌↔◌, ℕ, Some, length, IsTrue};
ghost use Rattle.phase_automaton.specs.Automata.{next_state, is_accepting};
ghost use Rattle.summary_chart.specs.StateSets.{HasState, IsStateOf, IsLedTo, IsAcceptedBy, LeadsInto};

use super::state_set::{SET_BITS, StateSet};
use phase_automaton::Automaton;

/// The states to which those of the set lead by the phase, counted from 0; the dead one is not among them.
pub(crate) fn states_after(automaton: &Automaton, set: StateSet, phase: u32) -> StateSet
    requires { phase < automaton.now.phases }
    ensures { (number : ℕ) → HasState result number ↔ IsLedTo automaton.now set phase number }
{
    let mut after = StateSet::empty();
    let mut rest = set;
    while let Some((number, others)) = rest.split_first() {
        rest = others;
        if usize::from(number) < automaton.states() {
            if let Some(next) = automaton.step(automaton.state(number), phase).number() {
                after = after.with(next);
            }
        }
    }
    after
}

/// The states of the set that lead by the phase to one that ends words.
pub(crate) fn accepted_states(automaton: &Automaton, set: StateSet, phase: u32) -> StateSet
    requires { phase < automaton.now.phases }
    ensures { (number : ℕ) → HasState result number ↔ IsAcceptedBy automaton.now set phase number }
{
    let mut accepted = StateSet::empty();
    let mut rest = set;
    while let Some((number, others)) = rest.split_first() {
        rest = others;
        if usize::from(number) < automaton.states()
            && automaton.accepts(automaton.step(automaton.state(number), phase))
        {
            accepted = accepted.with(number);
        }
    }
    accepted
}

/// Whether the state leads by the phase to one of the targets.
fn leads_into(automaton: &Automaton, number: u8, phase: u32, targets: StateSet) -> bool
    requires state { number < length automaton.now.states }
    requires few { length automaton.now.states ≤ SET_BITS }
    requires phase { phase < automaton.now.phases }
    ensures { IsTrue result ↔ ((to : ℕ) × (next_state automaton.now (Some number) phase ≡ Some to) × IsStateOf automaton.now targets to) }
{
    match automaton.step(automaton.state(number), phase).number() {
        Some(next) => targets.has(next),
        None => false,
    }
}

/// The states of the set that lead by the phase to one of the targets.
pub(crate) fn states_into(
    automaton: &Automaton,
    set: StateSet,
    phase: u32,
    targets: StateSet,
) -> StateSet
    requires { phase < automaton.now.phases }
    ensures { (number : ℕ) → HasState result number ↔ LeadsInto automaton.now set phase targets number }
{
    let mut into = StateSet::empty();
    let mut rest = set;
    while let Some((number, others)) = rest.split_first() {
        rest = others;
        if usize::from(number) < automaton.states()
            && leads_into(automaton, number, phase, targets)
        {
            into = into.with(number);
        }
    }
    into
}

/// The states that end words.
pub(crate) fn accepting_states(automaton: &Automaton) -> StateSet
    ensures { (number : ℕ) → HasState result number ↔ IsTrue (is_accepting automaton.now (Some number)) }
{
    let mut accepting = StateSet::empty();
    for number in 0..automaton.states() as u8 {
        if automaton.accepts(automaton.state(number)) {
            accepting = accepting.with(number);
        }
    }
    accepting
}
