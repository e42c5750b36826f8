ghost use Rattle.std.specs.Prelude.{◌≡◌, ◌<◌, ◌^◌, length, map, MatchOption, ◌≤◌, IfSome, IfOk, Some, None, option_map};
ghost use Rattle.form_tags.specs.Analyses.{text_delta};
ghost use Rattle.form_tags.specs.TagTexts.{tag_text};
ghost use Rattle.trie_text_definitions.specs.NodeFields.{delta_shape};
ghost use Rattle.lexicon_file.specs.Fields.{IsTold, delta_told, deltas_told, with_one, deltas_in};

use crate::FileWhy;
use crate::numbers::read_cut;
use crate::parts::{first_part, texts_in, three_parts};
use crate::take_error::TakeError;
use form_tags::{Delta, Tag, read_tag};
use latin_schemes::{SpellError, read_slp1};
use phoneme::Memory;
use std::alloc::Global;

/// The cut, the text of the letters and the tag of a delta `CUT:APPEND:TAG`.
fn delta_parts(text: &[u8]) -> Option<(u32, &[u8], Tag)>
    ensures shape { MatchOption result (delta_shape text.now ≡ None)
        (λ parts. delta_shape text.now ≡ Some (record { cut = parts.0; append = parts.1.now; tag = tag_text parts.2 })) }
    ensures within { IfSome result (λ parts. length parts.1.now ≤ length text.now) }
{
    let Some((cut, append, tag)) = three_parts(text, b':') else {
        return None;
    };
    let Some(cut) = read_cut(cut) else {
        return None;
    };
    let Some(tag) = read_tag(tag) else {
        return None;
    };
    Some((cut, append, tag))
}

/// The delta that the text tells. `None` where its letters are no letters.
fn read_delta(alloc: Global, text: &[u8]) -> Result<Option<Delta>, TakeError>
    requires { length text.now < 2 ^ 32 }
    ensures { IsTold (delta_told text.now) result (λ delta. option_map text_delta delta) }
{
    let Some((cut, append, tag)) = delta_parts(text) else {
        return Err(FileWhy::Field.into());
    };
    match read_slp1(alloc, append) {
        Ok(append) => Ok(Some(Delta { cut, append, tag })),
        Err(SpellError::Fault(_)) => Ok(None),
        Err(SpellError::Memory) => Err(TakeError::Memory),
    }
}

/// The deltas with one more, where all are there.
fn with_delta(
    deltas: Option<Vec<Delta>>,
    delta: Option<Delta>,
) -> Result<Option<Vec<Delta>>, Memory>
    ensures { IfOk result (λ more. deltas_in more ≡ with_one (deltas_in deltas) (option_map text_delta delta)) }
{
    let (Some(mut deltas), Some(delta)) = (deltas, delta) else {
        return Ok(None);
    };
    deltas.push(delta)?;
    Ok(Some(deltas))
}

/// The deltas that a field tells. `None` where the letters of some are no letters.
pub(crate) fn read_deltas(alloc: Global, field: &[u8]) -> Result<Option<Vec<Delta>>, TakeError>
    requires { length field.now < 2 ^ 32 }
    ensures { IsTold (deltas_told field.now) result deltas_in }
{
    let mut deltas = Some(Vec::new(alloc));
    let mut rest = texts_in(field);
    while let Some(texts) = rest {
        let (text, following) = first_part(texts, b',');
        let delta = read_delta(alloc, text)?;
        deltas = with_delta(deltas, delta)?;
        rest = following;
    }
    Ok(deltas)
}
