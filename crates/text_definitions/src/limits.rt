/// A line of text has at most this many letters.
pub const MOST_LINE_LETTERS: usize = 1_000;
