//! What a text and the same text in another scheme have in common.
//!
//! Proved: a line that is converted says the same in its new scheme, word by word and mark by mark, and so it does when it is brought
//! back (`a_converted_line_says_the_same`); and the fault of a text is that of its least line that has one
//! (`the_fault_is_of_the_least_line`).
#![tactic(auto)]

mod laws;

pub use laws::{a_converted_line_says_the_same, the_fault_is_of_the_least_line};
