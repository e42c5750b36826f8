use super::{Node, Store};
use phoneme::is_shared;

/// Stores and nodes may be handed to another thread, and be read by several at once.
pub fn stores_are_shared() {
    is_shared::<Node>();
    is_shared::<Store>();
}
