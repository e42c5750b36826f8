ghost use Rattle.std.specs.Prelude.{◌≡◌, ◌<◌, ◌≤◌, ◌↔◌, ℕ, length, MatchBool};
ghost use Rattle.phase_automaton.specs.Automata.{StateMachine};
ghost use Rattle.summary_chart.specs.StateSets.{HasState, IsLedTo, LeadsInto, LeadsOn, AreLeading};

use super::state_set::StateSet;
use super::state_steps::{states_after, states_into};
use lexicon_definitions::MOST_PHASES;
use phase_automaton::Automaton;

/// The states that lead by the phase to another.
fn states_leading_by(automaton: &Automaton, phase: u32) -> StateSet
    requires phase { phase < automaton.now.phases }
    ensures { (number : ℕ) → HasState result number ↔ LeadsOn automaton.now phase number }
{
    let mut leading = StateSet::empty();
    for number in 0..automaton.states() as u8 {
        if let Some(_next) = automaton.step(automaton.state(number), phase).number() {
            leading = leading.with(number);
        }
    }
    leading
}

/// For each phase the states that lead by it to another, and those to which they lead. So where a set of states leads is mostly told without
/// going over the set.
#[derive(Drop)]
pub(crate) struct LeadingStates {
    by_phase: [StateSet; MOST_PHASES],
    reached: [StateSet; MOST_PHASES],
}

impl LeadingStates {
    /// Those of the automaton.
    pub fn of(automaton: &Automaton) -> LeadingStates
        requires { automaton.now.phases ≤ MOST_PHASES }
        ensures { AreLeading automaton.now result }
    {
        let mut by_phase = [StateSet::empty(); MOST_PHASES];
        let mut reached = [StateSet::empty(); MOST_PHASES];
        for phase in 0..automaton.phases() {
            let leading = states_leading_by(automaton, phase);
            by_phase[phase as usize] = leading;
            reached[phase as usize] = states_after(automaton, leading, phase);
        }
        LeadingStates { by_phase, reached }
    }

    /// Whether some state of the set leads by the phase, counted from 0, to another.
    pub fn lead(&self, set: StateSet, phase: u32) -> bool
        requires { phase < MOST_PHASES }
        ensures { (machine : StateMachine) → AreLeading machine self.now → phase < machine.phases → MatchBool result ((number : ℕ) × IsLedTo machine set phase number) ((number : ℕ) → IsLedTo machine set phase number → ⊥) }
    {
        !self.by_phase[phase as usize].intersection(set).is_empty()
    }

    /// The states to which those of the set lead by the phase, counted from 0; the dead one is not among them. The states that lead are those
    /// of the automaton.
    pub fn states_after(&self, automaton: &Automaton, set: StateSet, phase: u32) -> StateSet
        requires leading { AreLeading automaton.now self.now }
        requires few { phase < MOST_PHASES }
        requires phase { phase < automaton.now.phases }
        ensures { (number : ℕ) → HasState result number ↔ IsLedTo automaton.now set phase number }
    {
        let from = self.by_phase[phase as usize].intersection(set);
        if from.is_empty() {
            return from;
        }
        let reached = self.reached[phase as usize];
        if reached.has_one() {
            return reached;
        }
        states_after(automaton, from, phase)
    }

    /// The states of the set that lead by the phase, counted from 0, to one of the targets. The states that lead are those of the automaton.
    pub fn states_into(
        &self,
        automaton: &Automaton,
        set: StateSet,
        phase: u32,
        targets: StateSet,
    ) -> StateSet
        requires leading { AreLeading automaton.now self.now }
        requires few { phase < MOST_PHASES }
        requires phase { phase < automaton.now.phases }
        ensures { (number : ℕ) → HasState result number ↔ LeadsInto automaton.now set phase targets number }
    {
        // The proof knows that states lead to states only of an automaton whose states are read.
        let _states = automaton.states();
        let from = self.by_phase[phase as usize].intersection(set);
        let reached = self.reached[phase as usize];
        let wanted = reached.intersection(targets);
        if wanted.is_empty() {
            return wanted;
        }
        if wanted == reached {
            return from;
        }
        states_into(automaton, from, phase, targets)
    }
}
