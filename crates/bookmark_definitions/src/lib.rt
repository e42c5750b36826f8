//! Bookmarks, as definitions in `specs/`: what a bookmark has and its bounds (`IsBookmark`), its text (`text_of_bookmark`),
//! and the bookmark that a text is read as (`bookmark_of_text`).
//!
//! Proved: what is read as a bookmark is one, and the text that was read is its text (`what_is_read_is_a_bookmark`); the text
//! of a bookmark is read as this bookmark (`a_bookmark_is_read_back`), and has fewer than 65,000 bytes (`a_bookmark_is_short`).
#![tactic(auto)]

mod laws;

pub use laws::{a_bookmark_is_read_back, a_bookmark_is_short, what_is_read_is_a_bookmark};
