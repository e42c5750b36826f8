/// So many stems are drawn; one that was drawn before is left out.
pub const STEM_DRAWS: usize = 1_000;

/// The text has so many words.
pub const TEXT_WORDS: usize = 30;

/// The page of the text has at most this many answers.
pub const DEMO_PAGE: u32 = 1_000;
