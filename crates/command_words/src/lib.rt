//! The words of the command line, read as a command with its arguments.
//!
//! `clap` decides whether the words after a command's name may stand as they do (`line.rt`): which of them are options, where
//! options end, and that `--in` has its value. It gives the values of `--in`. It is told of no flag for help or for a version,
//! so a request for either is refused as any unknown option is. Its clauses do not say which of the words a value is;
//! so a walk over words that it took tells which of them are arguments, and their places (`arguments.rt`). The rest is decided
//! here (`command.rt`): that no word is too long, that `--in` comes once at most and names a scheme, and which arguments the
//! command takes.
//!
//! Proved of `command_of`: the command that it answers is that of the words (`command`), and it answers `None` only for words of
//! no command (`none`); so a refusal for another cause than want of memory is always one of the definitions.
#![tactic(auto)]

mod annotate_words;
mod arguments;
mod batch_words;
mod build_words;
mod command;
mod convert_words;
mod demo_number;
mod given;
mod join_words;
mod line;
mod migrate_words;
mod placed_word;
mod reread_words;
mod split_words;

pub use annotate_words::AnnotateWords;
pub use batch_words::BatchWords;
pub use build_words::BuildWords;
pub use command::{Command, command_of};
pub use convert_words::ConvertWords;
pub use join_words::JoinWords;
pub use migrate_words::MigrateWords;
pub use placed_word::PlacedWord;
pub use reread_words::RereadWords;
pub use split_words::SplitWords;
