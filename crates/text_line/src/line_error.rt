ghost use Rattle.std.specs.Prelude.{◌≡◌};
ghost use Rattle.text_line.specs.declared.line_error.LineError.TheVariants.{Spell as ErrorSpell, Memory as ErrorMemory};
ghost use Rattle.text_line.specs.Values.{line_error_of};

use super::TextFault;
use latin_schemes::{SpellError, SpellFault};
use phoneme::Memory;
use thiserror::Error;

/// Why a text was not read as a line: its fault, as `TextFault` has it, or want of memory.
#[derive(Clone, Copy, Debug, Error)]
pub enum LineError {
    #[error("{0}")]
    Spell(SpellFault),
    #[error("no letters")]
    NoLetters,
    #[error("too long")]
    TooLong,
    #[error("out of memory")]
    Memory,
}

impl From<Memory> for LineError {
    ghost from_gives = { λ _ e. e ≡ ErrorMemory };

    fn from(_refused: Memory) -> LineError {
        LineError::Memory
    }
}

impl From<SpellError> for LineError {
    ghost from_gives = { λ error e. e ≡ line_error_of error };

    fn from(error: SpellError) -> LineError {
        match error {
            SpellError::Fault(fault) => LineError::Spell(fault),
            SpellError::Memory => LineError::Memory,
        }
    }
}

impl LineError {
    ghost use Rattle.text_line.specs.Values.{fault_of_error};

    /// The fault of the text; or that there is none, since memory was wanting.
    pub fn fault(self) -> Result<TextFault, Memory>
        ensures { result ≡ fault_of_error self }
    {
        match self {
            LineError::Spell(fault) => Ok(TextFault::Spell(fault)),
            LineError::NoLetters => Ok(TextFault::NoLetters),
            LineError::TooLong => Ok(TextFault::TooLong),
            LineError::Memory => Err(Memory),
        }
    }
}
