//! Devanagari, read from UTF-8 and printed as UTF-8.
//!
//! Proved of `read_devanagari`: the word that the text spells (`ok`), or the text's first fault with its place in bytes
//! (`fault`), by the definitions of `text_definitions`; nothing else but want of memory refuses a text. Of
//! `print_devanagari`: the spelling of the word (`ok`), which spells this word again by a law of `text_definitions`.
#![tactic(auto)]

mod point;
mod print;
mod read;
mod reader;

pub use print::print_devanagari;
pub use read::read_devanagari;
