//! The choices of a reader (Goyal and Huet 2016): a list of items that are kept or rejected, oldest first, and the local test
//! of one step of a derivation against all of them.
//!
//! Proved: `Choices::keep`, `reject`, `undo` and `list` are those of a list of at most `MOST_CHOICES` choices, and a refusal
//! leaves it as it was; `Choices::allows` is the local test, which holds of every step exactly where the choices are kept
//! (`allowed_steps_keep_the_choices`), and `Choices::allows_entered` the same of a step whose lead is given.
//! `Choices::leave_free` tells of all steps that stand at a rank and take so many letters, whichever their rules, that they are
//! allowed, or are just where they are not last. Threads may share choices (`choices_are_shared`).
#![tactic(auto)]

mod allowing;
mod choices;
mod error;
mod freedom;
mod laws;
mod sharing;

pub use choices::Choices;
pub use derivation::Choice;
pub use error::ChoiceError;
pub use laws::allowed_steps_keep_the_choices;
pub use sharing::choices_are_shared;
