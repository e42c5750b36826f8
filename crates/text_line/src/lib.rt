//! What a reader types: a line of text in one of four spelling schemes, read whole, with its letters and blanks and the dandas and
//! verse numbers that a reader pastes along; the name of a scheme; and a number.
//!
//! Proved (`read_line`): `ok`, what is answered is the line of the text, as `LineTexts` of `text_definitions` says it;
//! `fault`, a refusal is the text's first fault, with its place in the whole text, or want of memory. That a line is
//! read where memory suffices is shown by tests. `Scheme::named` answers just the scheme of a name (`named`), and `digits_up_to` and
//! `count_up_to` the number that digits write (`value`). `LineError::fault` gives the fault that an error carries.
#![tactic(auto)]

mod front;
mod later_letter;
mod line_error;
mod numbers;
mod read;
mod scheme;
mod spelled;
mod text_fault;

pub use line_error::LineError;
pub use numbers::{count_up_to, digits_up_to};
pub use phoneme::Line;
pub use read::read_line;
pub use scheme::Scheme;
pub use text_fault::TextFault;
