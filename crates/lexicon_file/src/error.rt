ghost use Rattle.std.specs.Prelude.{◌≡◌};
ghost use Rattle.lexicon_file.specs.declared.error.FileError.TheVariants.{Fault as ErrorFault, Memory as ErrorMemory};
ghost use Rattle.lexicon_file.specs.Faults.{why_from, error_from};

use form_file::{FileError as FormError, FileWhy as FormWhy};
use phase_automaton::GrammarFault;
use phoneme::Memory;
use thiserror::Error;

/// Why a line of a lexicon file of any version is refused. The first reason in this order counts.
#[derive(Clone, Copy, Debug, Error)]
pub enum FileWhy {
    #[error("a line after the end")]
    Trailing,
    #[error("the end is missing")]
    NoEnd,
    #[error("not UTF-8")]
    NotUtf8,
    #[error("not the first line of a lexicon file")]
    Head,
    #[error("a line of this kind may not stand here")]
    Order,
    #[error("not the fields of such a line")]
    Field,
    #[error("not SLP1")]
    Spelling,
    #[error("a rule that is not strict")]
    Strict,
    #[error(transparent)]
    Grammar(GrammarFault),
    #[error("not a node that may stand below this one")]
    Child,
    #[error("over a limit")]
    Limit,
    #[error("twice")]
    Twice,
    #[error("below the line before")]
    Falling,
    #[error("no root leads to some node")]
    Unused,
    #[error("some delta is not that of a form")]
    Delta,
    #[error("no rule is limited")]
    Unlimited,
}

/// The first fault of a lexicon file: its line, counted from 1, and why this is refused.
#[derive(Clone, Copy, Debug, Error)]
#[error("line {line}: {why}")]
pub struct FileFault {
    pub line: u32,
    pub why: FileWhy,
}

/// Why a lexicon file was not read.
#[derive(Clone, Copy, Debug, Error)]
pub enum FileError {
    #[error(transparent)]
    Fault(FileFault),
    #[error("out of memory")]
    Memory,
}

impl From<FormWhy> for FileWhy {
    ghost from_gives = { λ why w. w ≡ why_from why };

    fn from(why: FormWhy) -> FileWhy {
        match why {
            FormWhy::Trailing => FileWhy::Trailing,
            FormWhy::NoEnd => FileWhy::NoEnd,
            FormWhy::NotUtf8 => FileWhy::NotUtf8,
            FormWhy::Head => FileWhy::Head,
            FormWhy::Order => FileWhy::Order,
            FormWhy::Field => FileWhy::Field,
            FormWhy::Spelling => FileWhy::Spelling,
            FormWhy::Strict => FileWhy::Strict,
            FormWhy::Grammar(fault) => FileWhy::Grammar(fault),
            FormWhy::Limit => FileWhy::Limit,
            FormWhy::Twice => FileWhy::Twice,
            FormWhy::Falling => FileWhy::Falling,
        }
    }
}

impl From<FormError> for FileError {
    ghost from_gives = { λ error e. e ≡ error_from error };

    fn from(error: FormError) -> FileError {
        match error {
            FormError::Fault(fault) => FileError::Fault(FileFault {
                line: fault.line,
                why: fault.why.into(),
            }),
            FormError::Memory => FileError::Memory,
        }
    }
}

impl From<FileFault> for FileError {
    ghost from_gives = { λ fault e. e ≡ ErrorFault fault };

    fn from(fault: FileFault) -> FileError {
        FileError::Fault(fault)
    }
}

impl From<Memory> for FileError {
    ghost from_gives = { λ _ e. e ≡ ErrorMemory };

    fn from(_refused: Memory) -> FileError {
        FileError::Memory
    }
}
