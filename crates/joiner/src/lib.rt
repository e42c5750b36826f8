//! Chains of forms and rules, from their text to the word that they derive.
//!
//! Proved: `read_chain` gives the chain that a text writes over a lexicon (`ok`), or the text's first fault (`fault`), which is one
//! by `a_text_is_read_in_one_way` of `chain_definitions`. `join_chain` gives the first overlap of a chain, or else the one word that it
//! derives, with whether the chain is an answer for this word (`ok`), which is one by `a_chain_overlaps_or_derives_one_word`.
#![tactic(auto)]

mod chain_fault;
mod change;
mod forms;
mod joined;
mod joining;
mod link;
mod meeting;
mod naming;
mod overlapping;
mod parts;
mod reading;
mod shape;
mod shape_error;
mod writing;
mod written_step;

pub use chain_fault::{ChainError, ChainFault, ChainWhy};
pub use joined::Joined;
pub use joining::join_chain;
pub use link::Link;
pub use reading::read_chain;
