//! Chains of forms and rules, as definitions in `specs/`: what one is (`IsChain`), what it is joined to (`IsJoinedTo`), the shape of
//! its text (`steps_of_text`), and what a text is read as over a lexicon (`IsChainRead`).
//!
//! Proved: a text is read in one way (`a_text_is_read_in_one_way`); what is read is a chain, and the text is that of its printed steps
//! (`what_is_read_is_a_chain`); a chain is read back from its printed steps (`a_chain_is_read_back`). A chain has a first overlap or
//! derives a word, and is joined to one thing at most (`a_chain_overlaps_or_derives_one_word`). Each answer of a line is a chain that is
//! joined to the line's letters, as an answer (`answers_are_joined_again`), and a chain that is joined to a word as an answer is an
//! answer of the line of this word (`what_is_joined_is_an_answer`).
#![tactic(auto)]

mod laws;

pub use laws::{
    a_chain_is_read_back, a_chain_overlaps_or_derives_one_word, a_text_is_read_in_one_way,
    answers_are_joined_again, what_is_joined_is_an_answer, what_is_read_is_a_chain,
};
