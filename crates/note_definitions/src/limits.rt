/// A number in a note is no greater than this one.
pub const MOST_NOTE_NUMBER: u64 = 4_294_967_295;
