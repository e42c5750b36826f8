ghost use Rattle.std.specs.Prelude.{◌≡◌, ◌<◌, IsTrue, ◌↔◌, Some, is_some, length};
ghost use Rattle.phase_automaton.specs.Automata.{start_state, next_state, is_accepting, IsStateIn, IsStateMachine};
ghost use Rattle.phase_automaton.specs.Tables.{machine_of, IsTable};

use super::state::State;
use std::marker::Model;

/// The automaton of a phase grammar: its states are the sets of positions of the grammar at which the last of the phases so
/// far can have been read (McNaughton and Yamada 1960; Glushkov 1961), numbered from 0, and the dead state, from which no
/// phases lead to a word.
#[derive(Drop)]
pub struct Automaton {
    phases: u32,
    steps: Vec<State>,
    accepting: Vec<bool>,
}

impl Model for Automaton {
    ghost use Rattle.phase_automaton.specs.Automata.{StateMachine};
    ghost use Rattle.phase_automaton.specs.Tables.{machine_of, IsTable};

    ghost Value = { StateMachine };

    ghost view = { λ a. machine_of (record { phases = a.phases; steps = a.steps.items; accepting = a.accepting.items }) };

    ghost invariant = { λ a. IsTable (record { phases = a.phases; steps = a.steps.items; accepting = a.accepting.items }) };
}

impl Automaton {
    pub(crate) fn new(phases: u32, steps: Vec<State>, accepting: Vec<bool>) -> Automaton
        requires { IsTable (record { phases = phases; steps = steps.items; accepting = accepting.items }) }
        ensures { result ≡ machine_of (record { phases = phases; steps = steps.items; accepting = accepting.items }) }
    {
        Automaton {
            phases,
            steps,
            accepting,
        }
    }

    /// How many phases there are.
    pub fn phases(&self) -> u32
        ensures { result ≡ self.now.phases }
    {
        self.phases
    }

    /// How many numbered states there are: at least one, and at most `MOST_GRAMMAR_STATES`. The dead state is not
    /// counted.
    pub fn states(&self) -> usize
        ensures count { result ≡ length self.now.states }
        ensures machine { IsStateMachine self.now }
    {
        self.accepting.len()
    }

    /// The state with this number, counted from 0.
    pub fn state(&self, number: u8) -> State
        requires { number < length self.now.states }
        ensures state { result ≡ Some number }
        ensures within { IsStateIn self.now result }
    {
        State::numbered(number)
    }

    /// The state before all phases.
    pub fn start(&self) -> State
        ensures state { result ≡ start_state }
        ensures within { IsStateIn self.now result }
    {
        // The proof knows that a table has a state only of a table that is read.
        let _accepting = &self.accepting;
        State::numbered(0)
    }

    /// Whether the state is one of this automaton, as the dead state is of each.
    pub fn has(&self, state: State) -> bool
        ensures { IsTrue result ↔ IsStateIn self.now state }
    {
        match state.number() {
            Some(number) => usize::from(number) < self.accepting.len(),
            None => true,
        }
    }

    /// The state after one phase more. The dead state stays dead.
    pub fn step(&self, state: State, phase: u32) -> State
        requires state { IsStateIn self.now state }
        requires phase { phase < self.now.phases }
        ensures next { result ≡ next_state self.now state phase }
        ensures within { IsStateIn self.now result }
    {
        let Some(number) = state.number() else {
            return state;
        };
        self.steps[usize::from(number) * self.phases as usize + phase as usize]
    }

    /// Whether the phases that lead to this state are a word of the grammar.
    pub fn accepts(&self, state: State) -> bool
        requires { IsStateIn self.now state }
        ensures { result ≡ is_accepting self.now state }
    {
        match state.number() {
            Some(number) => self.accepting[usize::from(number)],
            None => false,
        }
    }

    /// Whether some phases lead on from this state to a word of the grammar: all states do but the dead one.
    pub fn live(&self, state: State) -> bool
        ensures { result ≡ is_some state }
    {
        state.number().is_some()
    }
}
