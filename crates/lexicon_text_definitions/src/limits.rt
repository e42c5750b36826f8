/// A file that the program reads has at most this many bytes.
pub const MOST_FILE_BYTES: usize = 33_554_432;
