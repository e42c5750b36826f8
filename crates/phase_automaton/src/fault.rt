ghost use Rattle.std.specs.Prelude.{◌≡◌};
ghost use Rattle.phase_automaton.specs.declared.fault.GrammarError.TheVariants.{Fault as ErrorFault, Memory as ErrorMemory};

use phoneme::Memory;
use std::alloc::{AllocError, AllocFailed};
use thiserror::Error;

/// Why a text is no grammar text within the limits. Places are counted in bytes from 0.
#[derive(Clone, Copy, Debug, PartialEq, Eq, Error)]
pub enum GrammarFault {
    #[error("more than 1,024 bytes")]
    Long,
    #[error("byte {at} may not stand there")]
    Syntax { at: u32 },
    #[error("the name at byte {at} is that of no phase")]
    UnknownPhase { at: u32 },
    #[error("more than 60 names")]
    Places,
    #[error("more than 32 states")]
    States,
}

/// Why a grammar was not read.
#[derive(Clone, Copy, Debug, Error)]
pub enum GrammarError {
    #[error(transparent)]
    Fault(GrammarFault),
    #[error("out of memory")]
    Memory,
}

impl From<GrammarFault> for GrammarError {
    ghost from_gives = { λ fault e. e ≡ ErrorFault fault };

    fn from(fault: GrammarFault) -> GrammarError {
        GrammarError::Fault(fault)
    }
}

impl From<Memory> for GrammarError {
    ghost from_gives = { λ _ e. e ≡ ErrorMemory };

    fn from(_refused: Memory) -> GrammarError {
        GrammarError::Memory
    }
}

impl From<AllocError> for GrammarError {
    ghost from_gives = { λ _ e. e ≡ ErrorMemory };

    fn from(_refused: AllocError) -> GrammarError {
        GrammarError::Memory
    }
}

impl<T: Drop> From<AllocFailed<T>> for GrammarError {
    ghost from_gives = { λ _ e. e ≡ ErrorMemory };

    fn from(_refused: AllocFailed<T>) -> GrammarError {
        GrammarError::Memory
    }
}
