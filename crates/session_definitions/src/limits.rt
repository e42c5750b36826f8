/// A line of a session's input has at most this many bytes, its line end not counted.
pub const MOST_SESSION_LINE_BYTES: usize = 65_536;

/// The input of a session has at most this many bytes.
pub const MOST_INPUT_BYTES: usize = 16_777_216;

/// A page that a reader asks for has at most this many answers.
pub const MOST_PAGE: u32 = 1_000;
