use super::placed_word::PlacedWord;

/// The words of `reread`: the names of the lexicon file and of the file of a note.
#[derive(Clone, Copy)]
pub struct RereadWords<'a> {
    pub lex: PlacedWord<'a>,
    pub file: PlacedWord<'a>,
}
