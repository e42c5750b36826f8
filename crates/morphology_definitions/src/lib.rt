//! Internal sandhi and inflection, as definitions in `specs/`, and what follows from them: a front and an ending have exactly
//! one joined word (`joined_once`, `joined_exists`), which begins with the front (`joined_begins_with_front`); a row of a table
//! and a stem have one entry (`inflected_once`), and stems with the rows of their classes have exactly one list of entries
//! (`inflections_are_one_list`).
#![tactic(auto)]

mod inflection;
mod internal_sandhi;

pub use inflection::{inflected_once, inflections_are_one_list};
pub use internal_sandhi::{joined_begins_with_front, joined_exists, joined_once};
