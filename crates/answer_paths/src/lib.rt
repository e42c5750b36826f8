//! The answers of a line, seen as the paths of a depth-first search, with no code: a configuration is the first steps of an
//! answer, a choice is the key of the next step, and the answers are exactly the paths from the empty list of steps.
//!
//! Proved here: `ways_are_orderly`, by which the laws of `listing_laws` hold of these ways; `answers_are_paths`;
//! `cursors_agree`, so that the next answer after a cursor is the first path above it; `keys_are_local`, by which a key
//! leads on or ends after a front as tests say that look at where the front ends and no further back;
//! `pages_are_made_of_next_answers`; and `a_guide_tells_paths`, by which a front has a path exactly where an answer stands at
//! the configuration that it ends at.
#![tactic(auto)]

mod cursors;
mod following;
mod guide;
mod orderly;
mod pages;
mod paths;

pub use cursors::cursors_agree;
pub use following::keys_are_local;
pub use guide::a_guide_tells_paths;
pub use orderly::ways_are_orderly;
pub use pages::pages_are_made_of_next_answers;
pub use paths::answers_are_paths;
