//! Internal sandhi: the letters of an ending change where it is joined to a front.
#![tactic(auto)]

mod letters;
mod nasals;
mod seam;
mod sibilants;
mod stops;

pub use seam::{join, join_parts};
