ghost use Rattle.std.specs.Prelude.{◌≡◌};

use thiserror::Error;

/// Why a text spells no word, with the place of the byte at fault, counted from 0. `LoneSign` and `NotUtf8` come in
/// Devanagari alone; `NotUtf8` has the length of the longest valid front in bytes.
#[derive(Clone, Copy, Debug, PartialEq, Eq, Error)]
pub enum SpellFault {
    #[error("no letter at byte {at}")]
    NotLetter { at: u32 },
    #[error("a sign without a consonant at byte {at}")]
    LoneSign { at: u32 },
    #[error("not UTF-8 from byte {at} on")]
    NotUtf8 { at: u32 },
}

impl SpellFault {
    ghost use Rattle.latin_schemes.specs.Faults.{place_of};

    /// The place of the fault in bytes, counted from 0; for `NotUtf8` the length of the longest valid front.
    pub fn place(&self) -> u32
        ensures { result ≡ place_of self.now }
    {
        match self {
            SpellFault::NotLetter { at }
            | SpellFault::LoneSign { at }
            | SpellFault::NotUtf8 { at } => *at,
        }
    }
}
