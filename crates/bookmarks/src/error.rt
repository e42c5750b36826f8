ghost use Rattle.std.specs.Prelude.{◌≡◌};
ghost use Rattle.bookmarks.specs.declared.error.BookmarkError.TheVariants.{Memory as ErrorMemory};

use phoneme::Memory;
use std::alloc::AllocFailed;
use thiserror::Error;

/// Why a text was not read as a bookmark: it is not the text of one, or want of memory.
#[derive(Clone, Copy, Debug, Error)]
pub enum BookmarkError {
    #[error("not a bookmark")]
    Form,
    #[error("out of memory")]
    Memory,
}

impl From<Memory> for BookmarkError {
    ghost from_gives = { λ _ e. e ≡ ErrorMemory };

    fn from(_refused: Memory) -> BookmarkError {
        BookmarkError::Memory
    }
}

impl<T: Drop> From<AllocFailed<T>> for BookmarkError {
    ghost from_gives = { λ _ e. e ≡ ErrorMemory };

    fn from(_refused: AllocFailed<T>) -> BookmarkError {
        BookmarkError::Memory
    }
}
