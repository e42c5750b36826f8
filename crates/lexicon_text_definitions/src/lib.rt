//! Lexicon files of version 1, as definitions in `specs/`: the text of a lexicon, and what is read in any bytes, a lexicon or
//! the first fault; and the limit of a file's bytes. What follows from the definitions: bytes are read as a lexicon exactly
//! where they are the text of one that has a text (`what_is_read_is_a_text`, `a_text_is_read_as_its_lexicon`), and in one
//! way at most (`a_file_is_read_in_one_way`).
#![tactic(auto)]

mod limits;
mod texts;

pub use limits::MOST_FILE_BYTES;
pub use texts::{a_file_is_read_in_one_way, a_text_is_read_as_its_lexicon, what_is_read_is_a_text};
