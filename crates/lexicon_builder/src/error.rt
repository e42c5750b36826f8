ghost use Rattle.std.specs.Prelude.{◌≡◌};
ghost use Rattle.lexicon_builder.specs.declared.error.BuildError.TheVariants.{Memory as ErrorMemory};

use phoneme::Memory;
use thiserror::Error;

/// Why a lexicon was not built.
#[derive(Clone, Copy, Debug, Error)]
pub enum BuildError {
    /// The lexicon of the sources has too many lines of forms, or its text too many bytes.
    #[error("over a limit")]
    Limit,
    #[error("out of memory")]
    Memory,
}

impl From<Memory> for BuildError {
    ghost from_gives = { λ _ e. e ≡ ErrorMemory };

    fn from(_refused: Memory) -> BuildError {
        BuildError::Memory
    }
}
