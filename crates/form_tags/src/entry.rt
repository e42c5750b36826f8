use super::{Analysis, Tag};
use phoneme::Word;
use std::alloc::Global;

/// One form of a lexicon: its phase, counted from 0, its letters, and one analysis of it.
#[derive(Drop)]
pub struct Entry {
    pub phase: u32,
    pub form: Word,
    pub analysis: Analysis,
}

impl Entry {
    /// An entry without letters, into which others may be read. Takes no memory.
    pub fn empty(alloc: Global) -> Entry {
        Entry {
            phase: 0,
            form: Word::new(alloc),
            analysis: Analysis {
                stem: Word::new(alloc),
                tag: Tag::Ind,
            },
        }
    }
}
