//! Letters, words and lines, as definitions in `specs/`, and what follows from them.
#![tactic(auto)]

mod limits;
mod line_texts;
mod spellings;
mod words;

pub use limits::MOST_LINE_LETTERS;
pub use line_texts::texts_spell_lines;
pub use spellings::{printed_words_are_read_back, read_bytes_are_printed_back, texts_spell_words};
pub use words::words_are_ordered;
