ghost use Rattle.std.specs.Prelude.{◌≡◌};
ghost use Rattle.paradigms.specs.declared.record_error.RecordError.TheVariants.{Memory as ErrorMemory};

use phoneme::Memory;
use std::alloc::{AllocError, AllocFailed};

/// Why a record was not taken: its first reason, or want of memory.
#[derive(Clone, Copy)]
pub(crate) enum RecordError<W> {
    Why(W),
    Memory,
}

impl<W> From<Memory> for RecordError<W> {
    ghost from_gives = { λ _ e. e ≡ ErrorMemory };

    fn from(_refused: Memory) -> RecordError<W> {
        RecordError::Memory
    }
}

impl<W> From<AllocError> for RecordError<W> {
    ghost from_gives = { λ _ e. e ≡ ErrorMemory };

    fn from(_refused: AllocError) -> RecordError<W> {
        RecordError::Memory
    }
}

impl<W, T: Drop> From<AllocFailed<T>> for RecordError<W> {
    ghost from_gives = { λ _ e. e ≡ ErrorMemory };

    fn from(_refused: AllocFailed<T>) -> RecordError<W> {
        RecordError::Memory
    }
}
