//! Rules, phases, grammars and lexicons, as definitions in `specs/`, and what follows from them.
#![tactic(auto)]

mod grammar_laws;
mod laws;
mod limits;
mod trie_laws;

pub use grammar_laws::{
    a_grammar_text_has_one_first_fault, no_position_begins_no_word, same_positions_same_rests,
    same_positions_same_state, same_state_same_positions,
};
pub use laws::{analyses_are_ordered, leads_are_those_of_the_inner_rules};
pub use limits::{
    MOST_FORM_LETTERS, MOST_FORM_LINES, MOST_GRAMMAR_BYTES, MOST_GRAMMAR_NAMES,
    MOST_GRAMMAR_STATES, MOST_LEADS, MOST_NAME_BYTES, MOST_PHASES, MOST_RULE_LETTERS, MOST_RULES,
};
pub use trie_laws::{
    heights_are_those_of_children, nodes_are_told_by_suffixes, walked_nodes_stand_for_what_follows,
};
