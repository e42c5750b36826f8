ghost use Rattle.std.specs.Prelude.{◌≡◌};
ghost use Rattle.joiner.specs.declared.chain_fault.ChainError.TheVariants.{Fault as ErrorFault, Memory as ErrorMemory};

use phoneme::Memory;
use std::alloc::{AllocError, AllocFailed};
use thiserror::Error;

/// Why a text is not read as a chain: it has not the shape of one; a name is that of no phase; the phase has not the form;
/// no rule has these words; the rule does not allow the phases; or two forms do not meet so.
#[derive(Clone, Copy, Debug, Error)]
pub enum ChainWhy {
    #[error("not the shape of a chain")]
    Shape,
    #[error("no such phase")]
    Phase,
    #[error("no such form of the phase")]
    Form,
    #[error("no such rule")]
    Rule,
    #[error("a rule that does not allow the phases")]
    Barred,
    #[error("forms that do not meet so")]
    Meet,
}

/// The first fault of a chain's text: its step, counted from 1, or 0 where the shape is at fault; and why.
#[derive(Clone, Copy, Debug, Error)]
#[error("step {step}: {why}")]
pub struct ChainFault {
    pub step: u32,
    pub why: ChainWhy,
}

/// Why a text was not read as a chain: its first fault, or want of memory.
#[derive(Clone, Copy, Debug, Error)]
pub enum ChainError {
    #[error(transparent)]
    Fault(ChainFault),
    #[error("out of memory")]
    Memory,
}

impl From<ChainFault> for ChainError {
    ghost from_gives = { λ fault e. e ≡ ErrorFault fault };

    fn from(fault: ChainFault) -> ChainError {
        ChainError::Fault(fault)
    }
}

impl From<Memory> for ChainError {
    ghost from_gives = { λ _ e. e ≡ ErrorMemory };

    fn from(_refused: Memory) -> ChainError {
        ChainError::Memory
    }
}

impl From<AllocError> for ChainError {
    ghost from_gives = { λ _ e. e ≡ ErrorMemory };

    fn from(_refused: AllocError) -> ChainError {
        ChainError::Memory
    }
}

impl<T: Drop> From<AllocFailed<T>> for ChainError {
    ghost from_gives = { λ _ e. e ≡ ErrorMemory };

    fn from(_refused: AllocFailed<T>) -> ChainError {
        ChainError::Memory
    }
}
