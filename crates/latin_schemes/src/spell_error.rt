ghost use Rattle.std.specs.Prelude.{◌≡◌};
ghost use Rattle.latin_schemes.specs.declared.spell_error.SpellError.TheVariants.{Fault as ErrorFault, Memory as ErrorMemory};

use super::SpellFault;
use phoneme::Memory;
use thiserror::Error;

/// Why a text was not read: its first fault, or want of memory.
#[derive(Clone, Copy, Debug, PartialEq, Eq, Error)]
pub enum SpellError {
    #[error("{0}")]
    Fault(SpellFault),
    #[error("out of memory")]
    Memory,
}

impl From<SpellFault> for SpellError {
    ghost from_gives = { λ fault e. e ≡ ErrorFault fault };

    fn from(fault: SpellFault) -> SpellError {
        SpellError::Fault(fault)
    }
}

impl From<Memory> for SpellError {
    ghost from_gives = { λ _ e. e ≡ ErrorMemory };

    fn from(_refused: Memory) -> SpellError {
        SpellError::Memory
    }
}
