ghost use Rattle.std.specs.Prelude.{◌≡◌};

use super::status::AnyFault;
use annotation::ReadNoteError;
use lexicon_builder::BuildError;
use lexicon_file::FileError;
use more_schemes::ConvertError;
use paradigms::{StemError, StemFault, StemWhy, TableError};
use phoneme::Memory;
use rule_file::RuleError;

/// Why a file is refused, or that memory was wanting.
#[derive(Clone, Copy)]
pub enum AnyError {
    Fault(AnyFault),
    Memory,
}

impl From<Memory> for AnyError {
    ghost use Rattle.commands.specs.declared.any_error.AnyError.TheVariants as variant;

    ghost from_gives = { λ _ e. e ≡ variant.Memory };

    fn from(_refused: Memory) -> AnyError {
        AnyError::Memory
    }
}

impl From<FileError> for AnyError {
    ghost use Rattle.commands.specs.Refusals.{error_of_file};

    ghost from_gives = { λ refused e. e ≡ error_of_file refused };

    fn from(refused: FileError) -> AnyError {
        match refused {
            FileError::Fault(fault) => AnyError::Fault(AnyFault::Lexicon(fault)),
            FileError::Memory => AnyError::Memory,
        }
    }
}

impl From<RuleError> for AnyError {
    ghost use Rattle.commands.specs.Refusals.{error_of_rules};

    ghost from_gives = { λ refused e. e ≡ error_of_rules refused };

    fn from(refused: RuleError) -> AnyError {
        match refused {
            RuleError::Fault(fault) => AnyError::Fault(AnyFault::Rules(fault)),
            RuleError::Memory => AnyError::Memory,
        }
    }
}

impl From<TableError> for AnyError {
    ghost use Rattle.commands.specs.Refusals.{error_of_tables};

    ghost from_gives = { λ refused e. e ≡ error_of_tables refused };

    fn from(refused: TableError) -> AnyError {
        match refused {
            TableError::Fault(fault) => AnyError::Fault(AnyFault::Tables(fault)),
            TableError::Memory => AnyError::Memory,
        }
    }
}

impl From<StemError> for AnyError {
    ghost use Rattle.commands.specs.Refusals.{error_of_stems};

    ghost from_gives = { λ refused e. e ≡ error_of_stems refused };

    fn from(refused: StemError) -> AnyError {
        match refused {
            StemError::Fault(fault) => AnyError::Fault(AnyFault::Stems(fault)),
            StemError::Memory => AnyError::Memory,
        }
    }
}

impl From<ConvertError> for AnyError {
    ghost use Rattle.commands.specs.Refusals.{error_of_conversion};

    ghost from_gives = { λ refused e. e ≡ error_of_conversion refused };

    fn from(refused: ConvertError) -> AnyError {
        match refused {
            ConvertError::Fault(fault) => AnyError::Fault(AnyFault::Spelling(fault)),
            ConvertError::Memory => AnyError::Memory,
        }
    }
}

impl From<ReadNoteError> for AnyError {
    ghost use Rattle.commands.specs.Refusals.{error_of_note};

    ghost from_gives = { λ refused e. e ≡ error_of_note refused };

    fn from(refused: ReadNoteError) -> AnyError {
        match refused {
            ReadNoteError::Fault(why) => AnyError::Fault(AnyFault::Note(why)),
            ReadNoteError::Memory => AnyError::Memory,
        }
    }
}

/// No record of the stem file is at fault where the lexicon is too large; so the fault has the number 0.
impl From<BuildError> for AnyError {
    ghost use Rattle.commands.specs.Refusals.{error_of_lexicon};

    ghost from_gives = { λ refused e. e ≡ error_of_lexicon refused };

    fn from(refused: BuildError) -> AnyError {
        match refused {
            BuildError::Limit => AnyError::Fault(AnyFault::Stems(StemFault {
                number: 0,
                why: StemWhy::Limit,
            })),
            BuildError::Memory => AnyError::Memory,
        }
    }
}
