use derivation::Entrance;
use lexicon_definitions::MOST_FORM_LETTERS;
use phase_automaton::State;

/// So many nodes stand at most along a form: one for each of its letters, and one for the root of the phase.
pub const NODES_OF_FRAME: usize = MOST_FORM_LETTERS + 1;

/// What a search keeps of a configuration beside its step (Huet 2005): how the next form is entered, and the state of the grammar.
#[derive(Clone, Copy)]
pub struct Frame {
    pub entrance: Entrance,
    pub state: State,
}
