//! Tags of inflected forms, analyses, and deltas from a form to its stem.
//!
//! Proved: `read_tag` takes exactly the texts of tags (`some`) and gives the tag of the text (`value`); `print_tag` gives
//! the tag's text (`ok`), and no two tags have one text (`tags_are_told_by_texts`). `to_delta` gives the one delta with the
//! least cut (`ok`, `delta_is_one`), from which `from_delta` gives the analysis back (`delta_gives_back`). `compare` of
//! `Analysis` and of `Delta` is the order of `lexicon_definitions`, and a `copy` equals its source. Equal values have equal
//! hashes, and `tags_are_shared` shows that threads may hand over and share them.
#![tactic(auto)]

mod analysis;
mod case;
mod delta;
mod entry;
mod gender;
mod laws;
mod number;
mod person;
mod sharing;
mod tag;
mod tag_order;
mod tag_text;
mod tense;
mod voice;

pub use analysis::Analysis;
pub use case::Case;
pub use delta::{Delta, from_delta, shared_len, to_delta};
pub use entry::Entry;
pub use gender::Gender;
pub use laws::{
    analyses_are_told_by_texts, delta_gives_back, delta_is_one, deltas_are_ordered,
    tags_are_told_by_texts,
};
pub use number::Number;
pub use person::Person;
pub use sharing::tags_are_shared;
pub use tag::Tag;
pub use tag_text::{print_tag, read_tag};
pub use tense::Tense;
pub use voice::Voice;
