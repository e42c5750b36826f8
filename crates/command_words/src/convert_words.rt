use super::placed_word::PlacedWord;
use more_schemes::AnyScheme;

/// The words of `convert`: the schemes of the text and of the result, and the names of the text file and of the file to write.
#[derive(Clone, Copy)]
pub struct ConvertWords<'a> {
    pub input: AnyScheme,
    pub output: AnyScheme,
    pub file: PlacedWord<'a>,
    pub out: PlacedWord<'a>,
}
