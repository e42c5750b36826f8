/// A word of the command line has at most this many bytes.
pub const MOST_WORD_BYTES: usize = 65_536;

/// The page that `segment` prints has at most this many answers.
pub const SEGMENT_PAGE: u32 = 10_000;

/// The overlaps that `check` prints are at most this many.
pub const CHECK_OVERLAPS: u32 = 1_000;

/// `split` divides the search at most so many steps deep.
pub const MOST_SPLIT_DEPTH: u32 = 8;
