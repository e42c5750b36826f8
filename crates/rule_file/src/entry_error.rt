ghost use Rattle.std.specs.Prelude.{◌≡◌};
ghost use Rattle.rule_file.specs.declared.entry_error.EntryError.TheVariants.{Why as ErrorWhy, Memory as ErrorMemory};

use crate::RuleWhy;
use phoneme::Memory;
use std::alloc::{AllocError, AllocFailed};

/// Why an entry of the rules was not taken: its first reason, or want of memory.
#[derive(Clone, Copy)]
pub(crate) enum EntryError {
    Why(RuleWhy),
    Memory,
}

impl From<RuleWhy> for EntryError {
    ghost from_gives = { λ why e. e ≡ ErrorWhy why };

    fn from(why: RuleWhy) -> EntryError {
        EntryError::Why(why)
    }
}

impl From<Memory> for EntryError {
    ghost from_gives = { λ _ e. e ≡ ErrorMemory };

    fn from(_refused: Memory) -> EntryError {
        EntryError::Memory
    }
}

impl From<AllocError> for EntryError {
    ghost from_gives = { λ _ e. e ≡ ErrorMemory };

    fn from(_refused: AllocError) -> EntryError {
        EntryError::Memory
    }
}

impl<T: Drop> From<AllocFailed<T>> for EntryError {
    ghost from_gives = { λ _ e. e ≡ ErrorMemory };

    fn from(_refused: AllocFailed<T>) -> EntryError {
        EntryError::Memory
    }
}
