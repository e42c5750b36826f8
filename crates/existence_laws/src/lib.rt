//! What the definitions speak of is there: over a lexicon each line has a listing above each cursor, pages and a summary; each
//! line of a session has a reply, and each input a session; each file tells something; sources that are read have a lexicon; any text
//! is read as a chain or has a fault, and a chain is joined to something; bytes are read as a note or have a fault
//! (`a_file_is_read_as_a_note`), and what `annotate` wrote is reread (`a_note_that_was_written_is_reread`); phases have an
//! ordered trie (`phases_have_an_ordered_trie`), and a lexicon that has a text of some version has a newest text
//! (`a_lexicon_with_a_text_has_a_newest_text`); and each run has an outcome. With the laws that there is one at most, each of these is
//! a function of what it is of.
//!
//! Nothing rests on these laws, and no crate uses them. Their proofs decide what the definitions ask: whether steps are an answer
//! (`is_answer` of `proofs/AnswerDecisions.antt`), whether phases are a word of a grammar (`is_word`), how many states a grammar
//! has (`has_more_states`), whether words are those of a command (`command_there`).
#![tactic(auto)]

mod chains;
mod files;
mod listings;
mod notes;
mod outcomes;
mod sessions;

pub use chains::{a_chain_is_joined, a_text_is_read_as_a_chain};
pub use files::{
    a_grammar_text_is_within_the_limits_or_has_a_fault, a_lexicon_file_is_read,
    a_lexicon_with_a_text_has_a_newest_text, a_rule_file_is_read, phases_have_an_ordered_trie,
    sources_have_a_lexicon,
};
pub use listings::{a_line_has_a_listing, a_line_has_a_page, a_line_has_a_summary};
pub use notes::{
    a_file_is_read_as_a_note, a_note_that_was_written_is_reread, writing_a_note_has_an_outcome,
};
pub use outcomes::{
    a_run_has_an_outcome, annotate_has_an_outcome, batch_has_an_outcome, build_has_an_outcome,
    check_has_an_outcome, convert_has_an_outcome, demo_has_an_outcome, join_has_an_outcome,
    migrate_has_an_outcome, read_has_an_outcome, reread_has_an_outcome, segment_has_an_outcome,
    split_has_an_outcome, words_are_of_a_command_or_of_none,
};
pub use sessions::{a_line_has_a_reply, an_input_has_a_session};
