ghost use Rattle.std.specs.Prelude.{◌≡◌, ◌+◌, ◌<◌, ◌^◌, length, None, Some, IfSome, MatchOption};
ghost use Rattle.list_laws.specs.Cuts.{cut as cut_of};
ghost use Rattle.text_definitions.specs.Slp1.{word_of_slp1};
ghost use Rattle.chain_definitions.specs.ChainTexts.{any_word, some_word, closed_by as closed_by_of};
ghost use Rattle.joiner.specs.Shapes.{IsRead};

use crate::shape_error::ShapeError;
use latin_schemes::{SpellError, read_slp1};
use phoneme::{Word, cut_at};
use std::alloc::Global;

/// The parts before and after the first of these bytes.
pub(crate) fn cut(text: &[u8], mark: u8) -> Option<(&[u8], &[u8])>
    ensures cut { MatchOption result (cut_of mark text.now ≡ None) (λ parts. cut_of mark text.now ≡ Some (parts.0.now, parts.1.now)) }
    ensures within { IfSome result (λ parts. length parts.0.now + length parts.1.now < length text.now) }
{
    let Some((front, rest)) = cut_at(text, mark) else {
        return None;
    };
    Some((front, rest))
}

/// What comes before the first of these bytes, where that is the last byte.
pub(crate) fn closed_by(text: &[u8], mark: u8) -> Option<&[u8]>
    ensures closed { MatchOption result (closed_by_of mark text.now ≡ None) (λ front. closed_by_of mark text.now ≡ Some front.now) }
    ensures within { IfSome result (λ front. length front.now < length text.now) }
{
    let Some((front, after)) = cut(text, mark) else {
        return None;
    };
    if after.is_empty() { Some(front) } else { None }
}

/// The word that a text writes in SLP1.
pub(crate) fn read_any_word(alloc: Global, text: &[u8]) -> Result<Word, ShapeError>
    requires { length text.now < 2 ^ 32 }
    ensures { IsRead result (any_word (word_of_slp1 text.now)) }
{
    match read_slp1(alloc, text) {
        Ok(word) => Ok(word),
        Err(SpellError::Fault(_)) => Err(ShapeError::Shape),
        Err(SpellError::Memory) => Err(ShapeError::Memory),
    }
}

/// The same, where the word is not empty.
pub(crate) fn read_some_word(alloc: Global, text: &[u8]) -> Result<Word, ShapeError>
    requires { length text.now < 2 ^ 32 }
    ensures { IsRead result (some_word (word_of_slp1 text.now)) }
{
    match read_any_word(alloc, text) {
        Ok(word) => {
            if word.is_empty() {
                Err(ShapeError::Shape)
            } else {
                Ok(word)
            }
        }
        Err(error) => Err(error),
    }
}
