//! The input that `demo` makes from a number, and what is counted of it (own): the source files are read and their lexicon is built
//! as for a lexicon file, and the answers of the text are found under its chart.
//!
//! Proved of `count_demo`: the counts are those that `AreDemoCounts` of `run_definitions` gives the number (`ok`), unless memory is
//! wanting. It has no other refusal, since no file and no text of a number has a fault. That memory suffices is tested.
#![tactic(auto)]

mod counting;
mod counts;
mod draws;
mod sources;
mod stems;
mod text;

pub use counts::{DemoCounts, count_demo};
