//! The spelling schemes IAST and Harvard-Kyoto, as definitions in `specs/`, and what follows from them.
#![tactic(auto)]

mod spellings;

pub use spellings::{
    composition_keeps_the_word, printed_iast_is_composed, printed_words_are_read_back,
    texts_spell_words,
};
