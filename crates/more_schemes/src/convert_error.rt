ghost use Rattle.std.specs.Prelude.{◌≡◌};

use latin_schemes::SpellFault;
use phoneme::Memory;

/// Why a text can't be converted: the least line that has a fault, counted from 1, and the first fault of this line, whose place
/// is counted in bytes from the beginning of the line, in IAST of the composed line.
#[derive(Clone, Copy)]
pub struct ConvertFault {
    pub line: u32,
    pub fault: SpellFault,
}

/// Why a text was not converted: its first fault, or want of memory.
#[derive(Clone, Copy)]
pub enum ConvertError {
    Fault(ConvertFault),
    Memory,
}

impl From<Memory> for ConvertError {
    ghost use Rattle.more_schemes.specs.declared.convert_error.ConvertError.TheVariants.{Memory as ErrorMemory};

    ghost from_gives = { λ _ e. e ≡ ErrorMemory };

    fn from(_refused: Memory) -> ConvertError {
        ConvertError::Memory
    }
}
