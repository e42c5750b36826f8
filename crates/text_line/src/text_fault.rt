use latin_schemes::SpellFault;
use thiserror::Error;

/// Why a text is no line: its first fault of spelling, or else that it has no letter or too many.
#[derive(Clone, Copy, Debug, Error)]
pub enum TextFault {
    #[error("{0}")]
    Spell(SpellFault),
    #[error("no letters")]
    NoLetters,
    #[error("too long")]
    TooLong,
}
