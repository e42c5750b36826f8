use super::placed_word::PlacedWord;

/// The words of `migrate`: the names of the lexicon file and of the file to write.
#[derive(Clone, Copy)]
pub struct MigrateWords<'a> {
    pub lex: PlacedWord<'a>,
    pub out: PlacedWord<'a>,
}
