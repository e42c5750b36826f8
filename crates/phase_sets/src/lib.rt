//! Sets of phases as the fields of a rule name them (own format): `*` for all phases of a file, or the names of some of them
//! with `,` between; `-` after a rule that is final.
//!
//! Proved: `phases_told` is the set that such a field tells, and `None` exactly where it tells none (`told`); and so is
//! `phases_after_told` of the field for the phases after a rule, which goes by whether the rule's `v` is empty (`told`).
//! `all_phases` is the set of the first phases.
#![tactic(auto)]

mod listed;
mod told;

pub use told::{all_phases, phases_after_told, phases_told};
