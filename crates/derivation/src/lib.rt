//! Steps of derivations, their order and their printed lines (derivations after Huet 2005); items and choices of a reader
//! (Goyal and Huet 2016); and what a search asks of its guide.
//!
//! Proved: `compare` is the order of answers; `form_of` and `form_after` give the defined form, and `print_derivation` the
//! defined line; the program's steps have the keys and places of the steps of the definitions
//! (`steps_keep_places_and_keys`). `Guide::live` counts one step and says what the guide says; `OpenGuide` covers every
//! configuration and always says true.
#![tactic(auto)]

mod entrance;
mod forms;
mod guide;
mod item;
mod laws;
mod ordering;
mod printing;
mod step;

pub use entrance::Entrance;
pub use forms::{form_after, form_of};
pub use guide::{Guide, OpenGuide};
pub use item::{Choice, Item};
pub use laws::steps_keep_places_and_keys;
pub use ordering::compare;
pub use printing::print_derivation;
pub use step::{Key, Step};
