ghost use Rattle.std.specs.Prelude.{◌+◌, ◌<◌, ◌≤◌, ◌^◌, length, IfOk};
ghost use Rattle.chain_definitions.specs.ChainTexts.{form_of_text, steps_of_text};
ghost use Rattle.joiner.specs.Shapes.{IsRead, IsReadWith};

use crate::change::{read_change_at_end, read_change_between};
use crate::parts::{closed_by, cut, read_some_word};
use crate::shape_error::ShapeError;
use crate::written_step::{WrittenForm, WrittenStep};
use sandhi_rules::is_phase_name;
use std::alloc::Global;

/// `FORM[PHASE]`: a word in SLP1 that is not empty, and a phase's name between brackets.
fn read_form(alloc: Global, text: &[u8]) -> Result<WrittenForm, ShapeError>
    requires { length text.now < 2 ^ 32 }
    ensures { IsRead result (form_of_text text.now) }
{
    let Some((letters, rest)) = cut(text, b'[') else {
        return Err(ShapeError::Shape);
    };
    let Some(name) = closed_by(rest, b']') else {
        return Err(ShapeError::Shape);
    };
    if !is_phase_name(name) {
        return Err(ShapeError::Shape);
    }
    let letters = read_some_word(alloc, letters)?;
    let name = Vec::from_slice(alloc, name)?;
    Ok(WrittenForm { letters, name })
}

/// The steps that a text writes, which is cut at its blanks: a form, then a change and a form any number of times, then at most
/// one change. Refused where the text has not this shape.
pub(crate) fn read_steps(alloc: Global, text: &[u8]) -> Result<Vec<WrittenStep>, ShapeError>
    requires { length text.now < 2 ^ 28 }
    ensures steps { IsReadWith result (steps_of_text text.now) (λ steps. steps.items) }
    ensures few { IfOk result (λ steps. length steps.items ≤ length text.now + 1) }
{
    let mut steps = Vec::new(alloc);
    let mut rest = text;
    while let Some((form, after)) = cut(rest, b' ') {
        let form = read_form(alloc, form)?;
        let Some((change, following)) = cut(after, b' ') else {
            let change = read_change_at_end(alloc, after)?;
            steps.push(WrittenStep { form, change })?;
            return Ok(steps);
        };
        let change = read_change_between(alloc, change)?;
        steps.push(WrittenStep { form, change })?;
        rest = following;
    }
    let form = read_form(alloc, rest)?;
    let change = None;
    steps.push(WrittenStep { form, change })?;
    Ok(steps)
}
