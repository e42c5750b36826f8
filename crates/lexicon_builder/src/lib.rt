//! Lexicons from their sources (after Huet 2005): all stems are inflected by the tables, and their forms are collected over a
//! rule set.
//!
//! Proved of `build_lexicon`: the contents are the lexicon of the sources, as `IsLexiconOf` of `run_definitions` says (`ok`), with the
//! trie of its forms (`trie`) and the automaton that was given (`automaton`); it has a newest text (`text`), and so many lines of forms
//! (`lines`). It is refused as too large only where the lexicon of the sources has too many lines (`limit`). Proved of `lexicon_text`: the
//! newest text of a lexicon (`ok`), which is refused only where it has more bytes than a file may have (`fits`, `limit`). What is read of
//! source files are sources (`what_is_read_are_sources`). Both calls may want memory. That a small lexicon is built where memory
//! suffices is tested.
#![tactic(auto)]

mod building;
mod collecting;
mod error;
mod laws;

pub use building::{BuiltLexicon, build_lexicon, lexicon_text};
pub use error::BuildError;
pub use laws::what_is_read_are_sources;
