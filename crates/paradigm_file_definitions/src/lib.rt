//! Table files and stem files, as definitions in `specs/`: what is read in any bytes, the rows of each class or the stems with
//! their classes, or the first fault; and the limits on both. Each is a function of the bytes, so a file is read in one way.
//! What follows: each stem that is read has a class and a form for each row of it (`stems_that_are_read_are_inflectable`).
#![tactic(auto)]

mod limits;
mod stems;

pub use limits::{
    MOST_AFFIX_LETTERS, MOST_CLASS_NAME_BYTES, MOST_INFLECTIONS, MOST_STEM_RECORDS,
    MOST_TABLE_RECORDS,
};
pub use stems::stems_that_are_read_are_inflectable;
