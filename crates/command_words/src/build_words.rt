use super::placed_word::PlacedWord;

/// The words of `build`: the names of a rule file, a table file and a stem file, and of the file to write.
#[derive(Clone, Copy)]
pub struct BuildWords<'a> {
    pub rules: PlacedWord<'a>,
    pub tables: PlacedWord<'a>,
    pub stems: PlacedWord<'a>,
    pub out: PlacedWord<'a>,
}
