//! Rule files, as definitions in `specs/`: what is read in any bytes, a rule set or the first fault. What follows from the
//! definitions: bytes are read in one way at most (`a_rule_file_is_read_in_one_way`), and what is read is a rule set within
//! the limits (`what_is_read_is_a_rule_set`).
#![tactic(auto)]

mod limits;
mod readings;

pub use limits::MOST_CLASS_NAME_LETTERS;
pub use readings::{a_rule_file_is_read_in_one_way, what_is_read_is_a_rule_set};
