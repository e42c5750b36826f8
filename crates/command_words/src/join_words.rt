use super::placed_word::PlacedWord;

/// The words of `join`: the name of the lexicon file, and the text of a chain.
#[derive(Clone, Copy)]
pub struct JoinWords<'a> {
    pub lex: PlacedWord<'a>,
    pub chain: PlacedWord<'a>,
}
