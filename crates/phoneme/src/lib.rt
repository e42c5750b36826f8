//! Letters by code, words and lines, and bytes that are cut at a mark: what every other crate speaks of.
//!
//! Proved: `Letter::new` takes exactly the codes 1 to 50 (`some`), and `group` names the group of each. Contracts see a
//! `Word` as the list of its letters' codes; its calls give exactly the list that they say (`ok`, `value`), and a
//! refusal for want of memory leaves the word as it was (`unchanged`). `compare_letters`, and with it `compare` and
//! `Ord`, is the order of words of `text_definitions`; equal words have equal hashes. `Line::new` gives a line exactly
//! where letters and blanks make one (`some`). `cut_at` cuts bytes at the first of a mark. `words_are_shared` shows that threads may hand over and share them.
#![tactic(auto)]

mod cutting;
mod group;
mod letter;
mod line;
mod memory;
mod sharing;
mod word;

pub use cutting::cut_at;
pub use group::Group;
pub use letter::Letter;
pub use line::Line;
pub use memory::Memory;
pub use sharing::{is_shared, words_are_shared};
pub use word::{Word, compare_letters};
