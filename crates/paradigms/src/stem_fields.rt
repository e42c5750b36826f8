ghost use Rattle.std.specs.Prelude.{◌≡◌, ◌<◌, ◌^◌, ℕ, List, length, IfOk};
ghost use Rattle.text_definitions.specs.Slp1.{word_of_slp1};
ghost use Rattle.lexicon_text_definitions.specs.FileSteps.{some_word};
ghost use Rattle.morphology_definitions.specs.Inflection.{Stem as StemValue};
ghost use Rattle.paradigm_file_definitions.specs.StemFiles.{take_classed, take_letters};
ghost use Rattle.paradigms.specs.Answers.{IsRead, stem_why};
ghost use Rattle.paradigms.specs.Rows.{text_stem};

use crate::record_error::RecordError;
use crate::words::read_word;
use crate::{Stem, StemWhy, Tables};
use std::alloc::Global;

/// The stem that these fields of a record tell, over these tables.
pub(crate) fn read_stem(
    alloc: Global,
    tables: &Tables,
    letters: &[u8],
    name: &[u8],
) -> Result<Stem, RecordError<StemWhy>>
    requires { length letters.now < 2 ^ 32 }
    ensures read { (number : ℕ) (stems : List StemValue)
        → IsRead stem_why text_stem (take_classed tables.now number stems)
        (take_letters tables.now number stems (some_word (word_of_slp1 letters.now)) name.now) result }
    ensures class { IfOk result (λ stem. stem.class < length tables.now) }
{
    let letters = read_word(alloc, letters, StemWhy::Spelling)?;
    if letters.is_empty() {
        return Err(RecordError::Why(StemWhy::Spelling));
    }
    let Some(class) = tables.class_named(name) else {
        return Err(RecordError::Why(StemWhy::UnknownClass));
    };
    Ok(Stem { letters, class })
}
