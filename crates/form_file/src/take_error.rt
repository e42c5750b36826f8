ghost use Rattle.std.specs.Prelude.{◌≡◌};
ghost use Rattle.form_file.specs.declared.take_error.TakeError.TheVariants.{Why as ErrorWhy, Memory as ErrorMemory};

use crate::FileWhy;
use phoneme::Memory;
use std::alloc::{AllocError, AllocFailed};

/// Why a line was not taken: its first reason, or want of memory.
#[derive(Clone, Copy)]
pub enum TakeError {
    Why(FileWhy),
    Memory,
}

impl From<FileWhy> for TakeError {
    ghost from_gives = { λ why e. e ≡ ErrorWhy why };

    fn from(why: FileWhy) -> TakeError {
        TakeError::Why(why)
    }
}

impl From<Memory> for TakeError {
    ghost from_gives = { λ _ e. e ≡ ErrorMemory };

    fn from(_refused: Memory) -> TakeError {
        TakeError::Memory
    }
}

impl From<AllocError> for TakeError {
    ghost from_gives = { λ _ e. e ≡ ErrorMemory };

    fn from(_refused: AllocError) -> TakeError {
        TakeError::Memory
    }
}

impl<T: Drop> From<AllocFailed<T>> for TakeError {
    ghost from_gives = { λ _ e. e ≡ ErrorMemory };

    fn from(_refused: AllocFailed<T>) -> TakeError {
        TakeError::Memory
    }
}
