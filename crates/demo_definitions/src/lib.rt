//! The input that `demo` makes from a number, as definitions in `specs/`: what is drawn from a seed, the stems and the text that are
//! drawn, and the three source files. What follows from the definitions: no file and no text has a fault, whatever the number is
//! (`the_sources_are_read`, `the_stems_are_read`, `the_text_is_read`), and the lexicon of the sources is within the limits
//! (`the_lexicon_is_small`). The words of a text are forms of its stems (`drawn_words_are_forms`).
#![tactic(auto)]

mod laws;
mod limits;

pub use laws::{
    drawn_words_are_forms, the_lexicon_is_small, the_sources_are_read, the_stems_are_read,
    the_text_is_read,
};
pub use limits::{DEMO_PAGE, STEM_DRAWS, TEXT_WORDS};
