use super::{Analysis, Delta, Entry, Tag};
use phoneme::is_shared;

/// Tags, analyses, deltas and entries may be handed to another thread, and be read by several at once.
pub fn tags_are_shared() {
    is_shared::<Tag>();
    is_shared::<Analysis>();
    is_shared::<Delta>();
    is_shared::<Entry>();
}
