use super::placed_word::PlacedWord;
use text_line::Scheme;

/// The words of `batch`: the names of a lexicon file and of a text file, the scheme of the text, and how many answers a page
/// has at most.
#[derive(Clone, Copy)]
pub struct BatchWords<'a> {
    pub lex: PlacedWord<'a>,
    pub scheme: Scheme,
    pub file: PlacedWord<'a>,
    pub count: u32,
}
