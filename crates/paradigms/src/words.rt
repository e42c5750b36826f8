ghost use Rattle.std.specs.Prelude.{◌<◌, ◌^◌, length};
ghost use Rattle.text_definitions.specs.Slp1.{word_of_slp1};
ghost use Rattle.paradigms.specs.Answers.{IsSpelled};

use crate::record_error::RecordError;
use latin_schemes::{SpellError, read_slp1};
use phoneme::Word;
use std::alloc::Global;

/// The word that the bytes spell in SLP1. Refused for the given reason where they spell no word.
pub(crate) fn read_word<W: Copy>(alloc: Global, text: &[u8], why: W) -> Result<Word, RecordError<W>>
    requires { length text.now < 2 ^ 32 }
    ensures { IsSpelled (word_of_slp1 text.now) why result }
{
    match read_slp1(alloc, text) {
        Ok(word) => Ok(word),
        Err(SpellError::Fault(_)) => Err(RecordError::Why(why)),
        Err(SpellError::Memory) => Err(RecordError::Memory),
    }
}
