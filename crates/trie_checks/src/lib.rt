//! What is asked of a trie once all its nodes are told, as at the end of a lexicon file that tells one: whether each node is led to,
//! whether there are not too many pairs of a form and a delta, and whether each delta is right. Each is told by passes over the nodes, never
//! over the forms, of which a few nodes may stand for more than can be counted.
//!
//! Proved: `has_unused`, `has_too_many_pairs` and `has_wrong_delta` answer just as the definitions of the same names in
//! `trie_text_definitions` say of the trie (`ok`), of any trie; and `count_pairs` counts as that of the same name, up to a number (`ok`). That the passes are as many as the greatest cut is only measured.
#![tactic(auto)]

mod depths;
mod letters_put;
mod number_set;
mod pairs;
mod put_back;
mod put_places;
mod unused;
mod wrong_deltas;

pub use pairs::{count_pairs, has_too_many_pairs};
pub use unused::has_unused;
pub use wrong_deltas::has_wrong_delta;
