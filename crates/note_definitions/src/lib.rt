//! Notes of finished readings, as definitions in `specs/`: the text of a note (`text_of_note`), what comes of writing one
//! (`IsOutcome`), and what is read in any bytes, a note or the first fault (`IsNoteRead`).
//!
//! Proved: writing has one outcome at most (`writing_has_one_outcome`), which is told by the list of all answers
//! (`the_outcome_is_that_of_the_listing`); a file is read in one way (`a_note_is_read_in_one_way`); what is read is a note, and the
//! JSON value that was read is that of the note (`what_is_read_is_a_note`); the text of a note is read as this note
//! (`a_note_is_read_back`).
#![tactic(auto)]

mod laws;
mod limits;

pub use laws::{
    a_note_is_read_back, a_note_is_read_in_one_way, the_outcome_is_that_of_the_listing,
    what_is_read_is_a_note, writing_has_one_outcome,
};
pub use limits::MOST_NOTE_NUMBER;
