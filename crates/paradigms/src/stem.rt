use phoneme::Word;

/// A stem, and the number of its class in its tables, counted from 0.
#[derive(Drop, PartialEq, Eq, Hash)]
pub struct Stem {
    pub letters: Word,
    pub class: u32,
}
