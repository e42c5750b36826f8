use super::letter_testing::LetterTest;
use derivation::Key;

/// A guide keeps at most so many ways from one place.
pub const MOST_WAYS: usize = 64;

/// A key that leads on from a configuration or ends the line there, whatever the grammar says, and which of the two (own).
#[derive(Clone, Copy)]
pub struct Way {
    pub key: Key,
    pub test: LetterTest,
}
