use super::{Row, Stem, Stems, Tables};
use phoneme::is_shared;

/// Tables, stems and their parts may be handed to another thread, and be read by several at once.
pub fn tables_are_shared() {
    is_shared::<Row>();
    is_shared::<Tables>();
    is_shared::<Stem>();
    is_shared::<Stems>();
}
