//! A reading session served over a source and a sink (after the lean reader of Goyal and Huet 2016): the lines of the input are
//! read piece by piece, each is answered, and its reply is written before the next line is looked at.
//!
//! `input` and `lines` cut the input into lines. A `Session` is the state between two lines; `answering` leads each request to the
//! module that replies to it, which is named after its word. What is read, with the choices of the reader, is a `Reading`. A line
//! is read as a `Request` (`request`): its first word, and what comes after the first blank.
//!
//! Proved of `serve`, over every source and every sink, by the names of its contract:
//!
//! - `session`: where it ends with `Done` or `TooMuch`, it wrote all that the session of the input writes, and the session ends
//!   so. An input of just the greatest length is served whole; of a longer one the complete lines within its first bytes are.
//! - `prefix`: wherever it ends, a prefix of the replies to some first lines was written; it begins what the session writes
//!   (`what_was_written_begins_the_session`).
//! - `replies`: where a read fails, just the replies to all complete lines among the bytes taken were written.
//! - `read_fault`, `write_fault`: a fault is answered only where the device counted one.
//!
//! Proved of `read_mark`: it gives the line and the choices of the bookmark that a text writes, and nothing exactly where a session
//! refuses to resume with this text (`mark`).
//!
//! Not said: that a device which fails is answered with its own fault, and not with want of memory.
#![tactic(auto)]

mod adding;
mod after;
mod answering;
mod choice_reply;
mod copying;
mod cutting;
mod input;
mod item_number;
mod laws;
mod lines;
mod mark_reply;
mod marks;
mod numbered_item;
mod page_reply;
mod reading;
mod refusing;
mod request;
mod resume_reply;
mod serve_end;
mod session;
mod summary_printing;
mod summary_reply;
mod tags_printing;
mod tags_reply;
mod text_reply;

pub use input::serve;
pub use laws::what_was_written_begins_the_session;
pub use marks::{MarkedLine, read_mark};
pub use serve_end::ServeEnd;
