ghost use Rattle.std.specs.Prelude.{◌≡◌};
ghost use Rattle.lexicon_file.specs.declared.take_error.TakeError.TheVariants.{Why as ErrorWhy, Memory as ErrorMemory};
ghost use Rattle.lexicon_file.specs.Faults.{take_error_from};

use crate::FileWhy;
use form_file::TakeError as FormTakeError;
use phoneme::Memory;
use std::alloc::{AllocError, AllocFailed};

/// Why a line was not taken: its first reason, or want of memory.
#[derive(Clone, Copy)]
pub(crate) enum TakeError {
    Why(FileWhy),
    Memory,
}

impl From<FileWhy> for TakeError {
    ghost from_gives = { λ why e. e ≡ ErrorWhy why };

    fn from(why: FileWhy) -> TakeError {
        TakeError::Why(why)
    }
}

impl From<FormTakeError> for TakeError {
    ghost from_gives = { λ error e. e ≡ take_error_from error };

    fn from(error: FormTakeError) -> TakeError {
        match error {
            FormTakeError::Why(why) => TakeError::Why(why.into()),
            FormTakeError::Memory => TakeError::Memory,
        }
    }
}

impl From<Memory> for TakeError {
    ghost from_gives = { λ _ e. e ≡ ErrorMemory };

    fn from(_refused: Memory) -> TakeError {
        TakeError::Memory
    }
}

impl From<AllocError> for TakeError {
    ghost from_gives = { λ _ e. e ≡ ErrorMemory };

    fn from(_refused: AllocError) -> TakeError {
        TakeError::Memory
    }
}

impl<T: Drop> From<AllocFailed<T>> for TakeError {
    ghost from_gives = { λ _ e. e ≡ ErrorMemory };

    fn from(_refused: AllocFailed<T>) -> TakeError {
        TakeError::Memory
    }
}
