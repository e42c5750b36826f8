//! Lexicon files of versions 2 and 3, which tell a trie, as definitions in `specs/`: the text of a lexicon in each, and what is
//! read in the bytes of a lexicon file of any version, a lexicon or the first fault. What follows from the definitions: bytes
//! are read in one way at most (`a_file_of_any_version_is_read_in_one_way`); the trie that is told has no row twice
//! (`tries_that_are_read_are_shared`); what is read is a lexicon within the limits (`what_is_read_is_a_lexicon`), and the bytes
//! are its text (`what_is_read_is_a_text_of_its_version`). A trie of phases tells just these (`a_trie_tells_its_phases`), and a
//! lexicon has one text at most in a version (`a_lexicon_has_one_text_in_a_version`), whose trie passes what is asked at `end`
//! (`the_trie_of_a_lexicon_ends_well`), and has as many pairs of a form and a delta as the lexicon has lines of forms
//! (`a_trie_has_as_many_pairs_as_its_phases_have_lines`). A node's line tells its row (`a_node_is_told_by_its_line`). That phases have such a trie is
//! proved in `existence_laws`, and that the text of a lexicon is read as it in `trie_text_laws`. Small files are followed through the
//! definitions (`a_small_trie_is_read`, `an_inflected_trie_is_read`, `lines_of_a_small_trie_are_refused`, `limited_rules_are_read`).
#![tactic(auto)]

mod readings;
mod worked;

pub use readings::{
    a_file_of_any_version_is_read_in_one_way, a_lexicon_has_one_text_in_a_version,
    a_node_is_told_by_its_line, a_trie_has_as_many_pairs_as_its_phases_have_lines,
    a_trie_tells_its_phases, the_trie_of_a_lexicon_ends_well, tries_that_are_read_are_shared,
    what_is_read_is_a_lexicon, what_is_read_is_a_text_of_its_version,
};
pub use worked::{
    a_small_trie_is_read, an_inflected_trie_is_read, limited_rules_are_read,
    lines_of_a_small_trie_are_refused,
};
