/// The name of a class of letters has at most this many letters.
pub const MOST_CLASS_NAME_LETTERS: usize = 16;
