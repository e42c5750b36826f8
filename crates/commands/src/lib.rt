//! Yuzudeck's commands: what each does over a shelf of files, an input and an output, and with which status a run ends.
//!
//! Proved of `run`, over any devices: all the output of the outcome that the definitions give the words, files and input was
//! written, the files are as it leaves them, and the exit status is that of its end, unless memory ran out or a device failed
//! (`outcome`), and the status tells with which fault it ended (`fault`); otherwise a prefix of that output (`prefix`), for `read`
//! where the input could not be read just the replies to the complete lines that were taken (`replies`), and for any other command
//! that could not read nothing (`read_fault_output`); when each refusal comes (`usage`, `no_command`, `missing`, `read_fault`,
//! `write_fault`); what becomes of the files, whatever happens (`files`, `other_files`, `done_files`, `read_fault_files`,
//! `write_fault_files`); and what stays (`failed_writes`, `failed_reads`, `unused_shelf`, `input`, `unread_input`).
#![tactic(auto)]

mod annotate;
mod any_error;
mod batch;
mod boxed;
mod build;
mod check;
mod convert;
mod demo;
mod ending;
mod join;
mod migrate;
mod opening;
mod read;
mod reading;
mod refusal;
mod reread;
mod running;
mod segment;
mod source_files;
mod source_refusal;
mod split;
mod status;

pub use any_error::AnyError;
pub use opening::read_lexicon;
pub use running::run;
pub use status::{AnyFault, Status};
