//! The words of a run, the commands that they are, and the outcome of a run: its output, the files after it, and how it
//! ends. Each command adds its case.
//!
//! Proved: words are those of one command at most (`words_are_of_one_command`); what `segment` does with a file and a text
//! has one outcome at most (`segment_has_one_outcome`), what `check` does with a file too (`check_has_one_outcome`), what
//! `build` does with its files (`build_has_one_outcome`, since three sources have one lexicon: `sources_have_one_lexicon`),
//! what `read` does with a file and its input (`read_has_one_outcome`), what `batch` does with its files
//! (`batch_has_one_outcome`), what `demo` does with a number (`demo_has_one_outcome`), what `convert` does with two schemes and its
//! files (`convert_has_one_outcome`), what `join` does with a file and a chain (`join_has_one_outcome`), what `split` does with a file,
//! a text and a size of the page (`split_has_one_outcome`), what `annotate` and `reread` do (`annotate_has_one_outcome`,
//! `reread_has_one_outcome`), what `migrate` does with its files (`migrate_has_one_outcome`), and so has a run of any words (`a_run_has_one_outcome`). A bookmark is bad for `annotate` where a session
//! refuses it (`bookmarks_are_refused_as_in_a_session`). What a run
//! may have come to write where it stops, as the replies to the first lines of its input or of its text file, begins the output
//! of its outcome (`what_was_written_begins_the_outcome`).
//!
//! Each command has a file of definitions of its own, which imports nothing of another command: its words and its outcome
//! (`SegmentOutcomes`, `CheckOutcomes`, and so on). A run whose first word is the command's name has just the outcomes that this file
//! gives (`segment_alone`, `check_alone`, `build_alone`, `read_alone`, `batch_alone`, `demo_alone`, `convert_alone`, `join_alone`,
//! `split_alone`, `annotate_alone`, `reread_alone`, `migrate_alone`), and one whose first word is no such name is refused
//! (`other_words_alone`). So whoever believes one command alone reads no definition of the others.
#![tactic(auto)]

mod command_laws;
mod laws;
mod limits;
mod note_laws;

pub use command_laws::{
    annotate_alone, batch_alone, build_alone, check_alone, convert_alone, demo_alone, join_alone,
    migrate_alone, other_words_alone, read_alone, reread_alone, segment_alone, split_alone,
};
pub use laws::{
    a_run_has_one_outcome, batch_has_one_outcome, build_has_one_outcome, check_has_one_outcome,
    convert_has_one_outcome, demo_has_one_outcome, join_has_one_outcome, migrate_has_one_outcome,
    read_has_one_outcome, segment_has_one_outcome, sources_have_one_lexicon, split_has_one_outcome,
    what_was_written_begins_the_outcome, words_are_of_one_command,
};
pub use limits::{CHECK_OVERLAPS, MOST_SPLIT_DEPTH, MOST_WORD_BYTES, SEGMENT_PAGE};
pub use note_laws::{
    annotate_has_one_outcome, bookmarks_are_refused_as_in_a_session, reread_has_one_outcome,
};
