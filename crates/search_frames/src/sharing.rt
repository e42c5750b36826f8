use super::{Cursor, Frame, Resumption};
use phoneme::is_shared;

/// Resumptions may be handed to another thread, and be read by several at once.
pub fn resumptions_are_shared() {
    is_shared::<Cursor>();
    is_shared::<Frame>();
    is_shared::<Resumption>();
}
