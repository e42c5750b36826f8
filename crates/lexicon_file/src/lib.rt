//! Lexicon files of any version (own format): what such a file holds, or its first fault with its line, and what is written. Version 1
//! lists forms, and versions 2 and 3 tell the trie of the forms node by node, so that it is read into a store, and written from one,
//! without the forms ever being listed.
//!
//! Proved of `read`: its answer is the one that `IsReadAs` of `trie_text_definitions` gives the bytes, the lexicon (`ok`) or the
//! first fault (`fault`), unless memory is wanting; the store is the trie of the lexicon's forms (`trie`), and the automaton is that
//! of the grammar (`automaton`) and has the lexicon's phases (`phases`). That reading takes time and memory that are linear in the
//! bytes is only measured.
//!
//! Proved of the writers: `write` gives the newest text of a lexicon (`ok`), which is that of version 3 where a rule is limited, and
//! else that of version 2; `write_within` gives it too, or `None` exactly where it has more bytes than asked for (`ok`); `write_v1`
//! gives the text of version 1 (`ok`). Whatever has a text of some version has a newest text
//! (`what_has_a_text_has_a_newest_text`).
#![tactic(auto)]

mod children;
mod deltas;
mod error;
mod kind;
mod letters;
mod numbers;
mod parts;
mod reading;
mod rows;
mod take_error;
mod told;
mod version;
mod writing;
mod writing_forms;
mod writing_front;
mod writing_laws;
mod writing_nodes;
mod writing_phases;
mod writing_rules;

pub use error::{FileError, FileFault, FileWhy};
pub use form_file::Contents;
pub use reading::read;
pub use writing::{write, write_v1, write_within};
pub use writing_laws::what_has_a_text_has_a_newest_text;
