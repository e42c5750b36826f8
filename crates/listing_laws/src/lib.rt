//! The theory of depth-first listing, with no code: ways from one configuration to another by branches, the paths that end,
//! and what the stack of a backtracking search stands for while it moves on.
//!
//! Proved here, for all ways that are orderly: `the_listing_has_every_path`; `what_is_to_come_falls_into_depths`;
//! `a_search_moves_on`, by which each step of a search keeps what its stack stands for, and finds the first path that is
//! wanted; `branches_without_a_path_are_left_out`; `a_path_is_gone_to`; `first_branches_are_skipped`;
//! `what_is_to_come_is_the_listing`; `a_search_comes_to_an_end`; and
//! `a_move_visits_few_frames`. `sums_are_listed` is a small case.
#![tactic(auto)]

mod ending;
mod few_visits;
mod listed_paths;
mod moving_on;
mod searched;
mod standing_at;
mod sums;

pub use ending::a_search_comes_to_an_end;
pub use few_visits::a_move_visits_few_frames;
pub use listed_paths::{
    branches_without_a_path_are_left_out, the_listing_has_every_path,
    what_is_to_come_falls_into_depths,
};
pub use moving_on::a_search_moves_on;
pub use searched::Searched;
pub use standing_at::{
    a_path_is_gone_to, first_branches_are_skipped, what_is_to_come_is_the_listing,
};
pub use sums::sums_are_listed;
