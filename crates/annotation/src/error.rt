ghost use Rattle.std.specs.Prelude.{◌≡◌};
ghost use Rattle.annotation.specs.declared.error.NoteError.TheVariants.{Memory as ErrorMemory};

use derivation::Key;
use phoneme::Memory;
use std::alloc::{AllocError, AllocFailed};
use thiserror::Error;

/// Why no note was written: the line and the choices have no answer, or several, of which these are the keys of the first two; or
/// want of memory.
#[derive(Debug, Drop, Error)]
pub enum NoteError {
    #[error("no answer")]
    NoAnswer,
    #[error("several answers")]
    Several { first: Vec<Key>, second: Vec<Key> },
    #[error("out of memory")]
    Memory,
}

impl From<Memory> for NoteError {
    ghost from_gives = { λ _ e. e ≡ ErrorMemory };

    fn from(_refused: Memory) -> NoteError {
        NoteError::Memory
    }
}

impl From<AllocError> for NoteError {
    ghost from_gives = { λ _ e. e ≡ ErrorMemory };

    fn from(_refused: AllocError) -> NoteError {
        NoteError::Memory
    }
}

impl<T: Drop> From<AllocFailed<T>> for NoteError {
    ghost from_gives = { λ _ e. e ≡ ErrorMemory };

    fn from(_refused: AllocFailed<T>) -> NoteError {
        NoteError::Memory
    }
}
