ghost use Rattle.std.specs.Prelude.{◌≡◌};
ghost use Rattle.form_file.specs.declared.error.FileError.TheVariants.{Fault as ErrorFault, Memory as ErrorMemory};

use phase_automaton::GrammarFault;
use phoneme::Memory;
use thiserror::Error;

/// Why a line of a lexicon file is refused. The first reason in this order counts.
#[derive(Clone, Copy, Debug, Error)]
pub enum FileWhy {
    #[error("a line after the end")]
    Trailing,
    #[error("the end is missing")]
    NoEnd,
    #[error("not UTF-8")]
    NotUtf8,
    #[error("not the first line of a lexicon file")]
    Head,
    #[error("a line of this kind may not stand here")]
    Order,
    #[error("not the fields of such a line")]
    Field,
    #[error("not SLP1")]
    Spelling,
    #[error("a rule that is not strict")]
    Strict,
    #[error(transparent)]
    Grammar(GrammarFault),
    #[error("over a limit")]
    Limit,
    #[error("twice")]
    Twice,
    #[error("below the line before")]
    Falling,
}

/// The first fault of a lexicon file: its line, counted from 1, and why this is refused.
#[derive(Clone, Copy, Debug, Error)]
#[error("line {line}: {why}")]
pub struct FileFault {
    pub line: u32,
    pub why: FileWhy,
}

/// Why a lexicon file was not read.
#[derive(Clone, Copy, Debug, Error)]
pub enum FileError {
    #[error(transparent)]
    Fault(FileFault),
    #[error("out of memory")]
    Memory,
}

impl From<FileFault> for FileError {
    ghost from_gives = { λ fault e. e ≡ ErrorFault fault };

    fn from(fault: FileFault) -> FileError {
        FileError::Fault(fault)
    }
}

impl From<Memory> for FileError {
    ghost from_gives = { λ _ e. e ≡ ErrorMemory };

    fn from(_refused: Memory) -> FileError {
        FileError::Memory
    }
}
