use derivation::{Choice, Key};
use phoneme::Line;

/// A cursor in the listing of a line (own): the line, the reader's choices, oldest first, how many answers were printed, and
/// the keys of the last of these. There are no keys where no answer was printed.
#[derive(Drop)]
pub struct Bookmark {
    pub line: Line,
    pub choices: Vec<Choice>,
    pub printed: u64,
    pub keys: Vec<Key>,
}
