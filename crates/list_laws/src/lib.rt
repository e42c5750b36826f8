//! Laws about lists, orders and rising lists that belong to no subject of their own, for whichever crate needs them.
//! Proved here: `a_rising_list_is_told_by_its_elements`; the lemmas of `proofs/` are cited by the crates above.
#![tactic(auto)]

mod rising_lists;

pub use rising_lists::a_rising_list_is_told_by_its_elements;
