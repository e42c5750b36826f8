ghost use Rattle.std.specs.Prelude.{◌<◌, ◌^◌, length};
ghost use Rattle.chain_definitions.specs.ChainTexts.{triple_of_notation, triple_of_text, change_between, change_at_end};
ghost use Rattle.joiner.specs.Shapes.{IsReadWith};
ghost use Rattle.joiner.specs.Triples.{words_of, change_of};

use crate::parts::{closed_by, cut, read_any_word, read_some_word};
use crate::shape_error::ShapeError;
use sandhi_rules::Triple;
use std::alloc::Global;

/// `u|v>w`: words in SLP1, of which `v` alone may be empty.
fn read_notation(alloc: Global, text: &[u8]) -> Result<Triple, ShapeError>
    requires { length text.now < 2 ^ 32 }
    ensures { IsReadWith result (triple_of_notation text.now) words_of }
{
    let Some((u, rest)) = cut(text, b'|') else {
        return Err(ShapeError::Shape);
    };
    let Some((v, w)) = cut(rest, b'>') else {
        return Err(ShapeError::Shape);
    };
    let u = read_some_word(alloc, u)?;
    let v = read_any_word(alloc, v)?;
    let w = read_some_word(alloc, w)?;
    Ok(Triple { u, v, w })
}

/// `(u|v>w)`.
fn read_triple(alloc: Global, text: &[u8]) -> Result<Triple, ShapeError>
    requires { length text.now < 2 ^ 32 }
    ensures { IsReadWith result (triple_of_text text.now) words_of }
{
    let [first, rest @ ..] = text else {
        return Err(ShapeError::Shape);
    };
    if *first != b'(' {
        return Err(ShapeError::Shape);
    }
    let Some(notation) = closed_by(rest, b')') else {
        return Err(ShapeError::Shape);
    };
    read_notation(alloc, notation)
}

/// What stands between two forms: `+` for no change, or an inner rule between brackets.
pub(crate) fn read_change_between(alloc: Global, text: &[u8]) -> Result<Option<Triple>, ShapeError>
    requires { length text.now < 2 ^ 32 }
    ensures { IsReadWith result (change_between text.now) change_of }
{
    if text == b"+".as_slice() {
        return Ok(None);
    }
    let triple = read_triple(alloc, text)?;
    if triple.v.is_empty() {
        Err(ShapeError::Shape)
    } else {
        Ok(Some(triple))
    }
}

/// What stands after the last form: a final rule between brackets.
pub(crate) fn read_change_at_end(alloc: Global, text: &[u8]) -> Result<Option<Triple>, ShapeError>
    requires { length text.now < 2 ^ 32 }
    ensures { IsReadWith result (change_at_end text.now) change_of }
{
    let triple = read_triple(alloc, text)?;
    if triple.v.is_empty() {
        Ok(Some(triple))
    } else {
        Err(ShapeError::Shape)
    }
}
