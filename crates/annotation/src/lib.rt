//! Notes of finished readings: a reading that the choices have narrowed to one answer is written as a JSON text, and read again over
//! a lexicon, where it is believed only if it still is the note of that answer.
//!
//! Proved: `write_note` gives the text of the note where the line and the choices have exactly one answer, answers `NoAnswer` exactly
//! where they have none, and `Several` exactly where they have two or more, with the keys of the first two; otherwise it is refused
//! only for want of memory (`written`). `write_counted_note` does the same, and counts the segments. `read_note` gives the line, the
//! choices and their one answer, whose steps stand in the line, exactly where the bytes are a note over the lexicon, and else their
//! first fault; it too is otherwise refused only for want of memory (`read`). What `write_note` gave is read as a note of that line and
//! those choices (`what_is_written_is_read`). Whether there is one answer is told by a chart and two moves of a search.
#![tactic(auto)]

mod error;
mod laws;
mod note;
mod only_answers;
mod read_error;
mod reading;
mod segments;
mod shapes;
mod told;
mod values;
mod writing;
mod written_note;

pub use error::NoteError;
pub use laws::what_is_written_is_read;
pub use note::Note;
pub use read_error::{NoteWhy, ReadNoteError};
pub use reading::read_note;
pub use writing::{write_counted_note, write_note};
pub use written_note::WrittenNote;
