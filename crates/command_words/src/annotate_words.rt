use super::placed_word::PlacedWord;

/// The words of `annotate`: the name of the lexicon file, the text of a bookmark, and the name of the file to write.
#[derive(Clone, Copy)]
pub struct AnnotateWords<'a> {
    pub lex: PlacedWord<'a>,
    pub mark: PlacedWord<'a>,
    pub out: PlacedWord<'a>,
}
