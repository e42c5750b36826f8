//! Bookmarks: a cursor in the listing of a line's answers, kept as one short text, from which a reader goes on another day.
//!
//! Proved: `print_bookmark` gives the text of a bookmark (`ok`), and `read_bookmark` the bookmark that a text is read as (`ok`);
//! it answers `Form` only where the text is that of no bookmark (`form`). Otherwise both are refused only for want of memory. By the laws
//! of `bookmark_definitions` what is printed is read as the same bookmark, and what is read has the text that was read. `print_line`,
//! `read_line`, `print_choice` and `read_choice` do the same for a line and for one choice, which notes write as bookmarks do.
#![tactic(auto)]

mod bookmark;
mod choices;
mod error;
mod keys;
mod lines;
mod numbers;
mod parts;
mod printing;
mod reading;
mod words;

pub use bookmark::Bookmark;
pub use choices::{print_choice, read_choice};
pub use error::BookmarkError;
pub use lines::{print_line, read_line};
pub use printing::print_bookmark;
pub use reading::read_bookmark;
