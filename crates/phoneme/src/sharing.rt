use super::{Letter, Line, Word};

/// Calls of this function show that values of `T` may be handed to another thread, and be read by several at once.
pub fn is_shared<T: Send + Sync>() {}

/// Letters, words and lines may be handed to another thread, and be read by several at once.
pub fn words_are_shared() {
    is_shared::<Letter>();
    is_shared::<Word>();
    is_shared::<Line>();
}
