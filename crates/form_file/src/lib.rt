//! Lexicon files of version 1, which list forms (own format): what such a file holds, or its first fault with its line.
//!
//! Proved of `read`: its answer is the one that `IsReadAs` of `lexicon_text_definitions` gives the bytes, the lexicon (`ok`)
//! or the first fault (`fault`), unless memory is wanting; the automaton is that of the grammar (`automaton`) and has the
//! lexicon's phases (`phases`). Proved of `first_line`: it cuts bytes into lines as such files are cut (`line`). That a lawful file
//! is read where memory suffices is tested. Such files are written by `lexicon_file`.
#![tactic(auto)]

mod contents;
mod cutting;
mod error;
mod kind;
mod reading;
mod rules_so_far;
mod take_error;
mod told;
mod words;

pub use contents::Contents;
pub use cutting::{first_line, kind_and_rest, rule_parts, two_fields};
pub use error::{FileError, FileFault, FileWhy};
pub use reading::read;
pub use take_error::TakeError;
pub use told::Told;
pub use words::read_word;
