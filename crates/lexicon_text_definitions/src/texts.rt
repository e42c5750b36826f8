ghost use Rattle.std.specs.Prelude.{◌≡◌, ℕ, List, Ok};
ghost use Rattle.lexicon_definitions.specs.Lexicons.{Lexicon};
ghost use Rattle.lexicon_text_definitions.specs.LexiconTexts.{text_of};
ghost use Rattle.lexicon_text_definitions.specs.TextsOf.{HasText, IsTextOf};
ghost use Rattle.lexicon_text_definitions.specs.FileReadings.{IsReadAs, FileResult};

/// The text of a lexicon is read as this lexicon.
pub fn a_text_is_read_as_its_lexicon()
    ensures { (lexicon : Lexicon) → HasText lexicon → IsReadAs (text_of lexicon) (Ok lexicon) }
{}

/// Bytes that are read as a lexicon are its text.
pub fn what_is_read_is_a_text()
    ensures { (bytes : List ℕ) (lexicon : Lexicon) → IsReadAs bytes (Ok lexicon) → IsTextOf lexicon bytes }
{}

/// Bytes are read in one way at most: as one lexicon, or with one first fault.
pub fn a_file_is_read_in_one_way()
    ensures { (bytes : List ℕ) (left right : FileResult) → IsReadAs bytes left → IsReadAs bytes right → left ≡ right }
{}
