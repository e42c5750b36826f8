ghost use Rattle.std.specs.Prelude.{◌≡◌};
ghost use Rattle.joiner.specs.declared.shape_error.ShapeError.TheVariants.{Memory as ErrorMemory};

use phoneme::Memory;
use std::alloc::{AllocError, AllocFailed};

/// Why a part of a text was not read: it has not the shape of one, or want of memory.
#[derive(Clone, Copy)]
pub(crate) enum ShapeError {
    Shape,
    Memory,
}

impl From<Memory> for ShapeError {
    ghost from_gives = { λ _ e. e ≡ ErrorMemory };

    fn from(_refused: Memory) -> ShapeError {
        ShapeError::Memory
    }
}

impl From<AllocError> for ShapeError {
    ghost from_gives = { λ _ e. e ≡ ErrorMemory };

    fn from(_refused: AllocError) -> ShapeError {
        ShapeError::Memory
    }
}

impl<T: Drop> From<AllocFailed<T>> for ShapeError {
    ghost from_gives = { λ _ e. e ≡ ErrorMemory };

    fn from(_refused: AllocFailed<T>) -> ShapeError {
        ShapeError::Memory
    }
}
