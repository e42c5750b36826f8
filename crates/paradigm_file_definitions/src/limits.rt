/// A table file has at most this many records.
pub const MOST_TABLE_RECORDS: usize = 20_000;

/// A stem file has at most this many records.
pub const MOST_STEM_RECORDS: usize = 100_000;

/// The stems of a file have at most this many forms: one for each stem and each row of its class.
pub const MOST_INFLECTIONS: usize = 2_000_000;

/// A prefix, and an ending, has at most this many letters.
pub const MOST_AFFIX_LETTERS: usize = 16;

/// The name of a class has at most this many bytes.
pub const MOST_CLASS_NAME_BYTES: usize = 16;
