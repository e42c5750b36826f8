ghost use Rattle.std.specs.Prelude.{◌≡◌};
ghost use Rattle.reader_choices.specs.declared.error.ChoiceError.TheVariants.{Memory as ErrorMemory};

use phoneme::Memory;
use std::alloc::AllocFailed;
use thiserror::Error;

/// Why a choice was not taken: there are `MOST_CHOICES` of them, or want of memory.
#[derive(Clone, Copy, Debug, Error)]
pub enum ChoiceError {
    #[error("there are too many choices")]
    Full,
    #[error("out of memory")]
    Memory,
}

impl From<Memory> for ChoiceError {
    ghost from_gives = { λ _ e. e ≡ ErrorMemory };

    fn from(_refused: Memory) -> ChoiceError {
        ChoiceError::Memory
    }
}

impl<T: Drop> From<AllocFailed<T>> for ChoiceError {
    ghost from_gives = { λ _ e. e ≡ ErrorMemory };

    fn from(_refused: AllocFailed<T>) -> ChoiceError {
        ChoiceError::Memory
    }
}
