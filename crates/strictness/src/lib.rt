//! Whether the rules of a lexicon may overlap in a form: an inner rule's `v` begins the form, a rule's `u` ends it, and both
//! together are longer than the form.
//!
//! Proved: `overlaps` gives the first overlaps in the order of phase, form, rule before and rule after, as many as were asked
//! for, and all where there are fewer (`ok`); this says which list it is (`the_first_overlaps_are_one_list`). How fast it is
//! is only measured: it walks in the trie, and ends where no rule's `v` can begin a form any more, or where a form is too long
//! for an overlap; and a form's first and last letter lead to the few rules that are tried on it.
#![tactic(auto)]

mod found;
mod laws;
mod letters;
mod listing;
mod matching;
mod overlap;
mod pairs;
mod phase_walk;
mod walking;

pub use laws::the_first_overlaps_are_one_list;
pub use listing::overlaps;
pub use overlap::Overlap;
