//! The automaton of a phase grammar: read from its text, and stepped phase by phase.
//!
//! `read_grammar` gives the automaton of a text over the names of the phases, or the text's first fault (clauses `text`,
//! `grammar`, `phases`, `fault`). From `Automaton::start` a list of phases leads by `Automaton::step` to one state; it ends
//! words (`Automaton::accepts`) exactly where the list is a word of the grammar, and is live (`Automaton::live`) exactly where
//! some list goes on from it to a word. That is the clause `grammar`, whose words are in `specs/Automata.antt`.
//!
//! Laws: which state of the grammar a number stands for, and that every list of phases has one number
//! (`numbers_stand_for_states`); lists are read phase by phase (`phases_are_read_one_by_one`); from each numbered state some
//! list leads on to a word (`numbered_states_lead_on`), and no list from the dead one (`the_dead_state_stays_dead`); a text
//! has no syntax fault exactly where it is written as some tree is, with names that phases may have
//! (`grammar_text_spells_its_tree`, `spelled_texts_have_no_fault`); an automaton may be shared among threads (`automata_are_shared`).
//!
//! The automaton is built after Glushkov (1961) and McNaughton and Yamada (1960): each name of the text is a position, and a
//! state is the set of positions at which the last phase can have been read.
#![tactic(auto)]

mod automaton;
mod fault;
mod laws;
mod level;
mod names;
mod net;
mod piece;
mod position;
mod position_set;
mod read;
mod reader;
mod sharing;
mod state;
mod state_laws;
mod subsets;
mod walk;

pub use automaton::Automaton;
pub use fault::{GrammarError, GrammarFault};
pub use laws::{grammar_text_spells_its_tree, spelled_texts_have_no_fault};
pub use read::read_grammar;
pub use sharing::automata_are_shared;
pub use state::State;
pub use state_laws::{
    numbered_states_lead_on, numbers_stand_for_states, phases_are_read_one_by_one,
    the_dead_state_stays_dead,
};
