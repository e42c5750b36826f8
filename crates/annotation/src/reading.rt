ghost use Rattle.std.specs.Prelude.{◌≡◌, ◌↔◌, ◌≤◌, false, length, IsTrue, IfOk};
ghost use Rattle.serde_json.specs.Data.{depth};
ghost use Rattle.serde_json.specs.Read.{max_depth};
ghost use Rattle.serde_json.specs.View.{view};
ghost use Rattle.serde_json.specs.Written.{has_float};
ghost use Rattle.lexicon_text_definitions.specs.declared.limits.TheConstants.{MOST_FILE_BYTES};
ghost use Rattle.derivation.specs.Steps.{StandIn, steps_of};
ghost use Rattle.note_definitions.specs.NoteFaults.{Json};
ghost use Rattle.note_definitions.specs.NoteTexts.{value_of_note};
ghost use Rattle.note_definitions.specs.NoteReadings.{value_of_bytes};
ghost use Rattle.annotation.specs.Readings.{IsNoteReadAs, IsReadOr, AreStepsTold};

use crate::only_answers::only_steps;
use crate::told::{Told, read_told};
use crate::writing::note_value;
use crate::{Note, NoteError, NoteWhy, ReadNoteError};
use annotated_trie::Lexicon;
use derivation::Step;
use phoneme::Memory;
use serde_json::Value;
use std::alloc::{AllocError, Global};

/// The JSON value of the bytes.
fn read_value(alloc: Global, bytes: &[u8]) -> Result<Value, ReadNoteError>
    ensures value { IsReadOr Json result (value_of_bytes bytes.now) view }
    ensures shallow { IfOk result (λ value. depth (view value) ≤ max_depth) }
{
    match Value::from_slice(alloc, bytes) {
        Ok(value) => Ok(value),
        Err(error) if error.is_memory() => Err(ReadNoteError::Memory),
        Err(_) => Err(ReadNoteError::Fault(NoteWhy::Json)),
    }
}

/// The steps of the only answer of the line and the choices that were told.
fn told_steps(alloc: Global, lexicon: &Lexicon, told: &Told) -> Result<Vec<Step>, ReadNoteError>
    ensures { AreStepsTold lexicon.now.lexicon told.now.line told.now.choices result }
{
    match only_steps(alloc, lexicon, &told.line, &told.choices) {
        Ok(steps) => Ok(steps),
        Err(NoteError::NoAnswer) => Err(ReadNoteError::Fault(NoteWhy::NotOnly)),
        Err(NoteError::Several { .. }) => Err(ReadNoteError::Fault(NoteWhy::NotOnly)),
        Err(NoteError::Memory) => Err(ReadNoteError::Memory),
    }
}

/// Whether the values are the same. Values are compared by their texts, from which each is read back.
fn is_same(alloc: Global, left: &Value, right: &Value) -> Result<bool, AllocError>
    requires left { depth (view left.now) ≤ max_depth }
    requires right { depth (view right.now) ≤ max_depth }
    requires plain { has_float (view right.now) ≡ false }
    ensures { IfOk result (λ same. IsTrue same ↔ (view left.now ≡ view right.now)) }
{
    let first = left.to_string(alloc)?;
    let second = right.to_string(alloc)?;
    Ok(first.as_str() == second.as_str())
}

/// Whether the value is that of the note of what was told, with these steps.
fn is_value_of(
    alloc: Global,
    lexicon: &Lexicon,
    value: &Value,
    told: &Told,
    steps: &[Step],
) -> Result<bool, Memory>
    requires shallow { depth (view value.now) ≤ max_depth }
    requires stand { StandIn lexicon.now.lexicon.rules told.now.line.letters steps.now }
    ensures ok { IfOk result (λ same. IsTrue same ↔ (view value.now ≡ value_of_note lexicon.now.lexicon
        (record { line = told.now.line; choices = told.now.choices; steps = steps_of lexicon.now.lexicon.rules told.now.line.letters steps.now }))) }
{
    let note = note_value(alloc, lexicon, &told.line, told.choices.list(), steps)?;
    Ok(is_same(alloc, value, &note)?)
}

/// The note that these bytes, at most `MOST_FILE_BYTES` of them, are over a lexicon (own; choices after Goyal and Huet 2016).
/// Refused with the first fault where they are none: `NotOnly` where the line and the choices have no longer exactly one answer,
/// and `Segments` where the bytes say otherwise than the note of that answer.
pub fn read_note(alloc: Global, lexicon: &Lexicon, bytes: &[u8]) -> Result<Note, ReadNoteError>
    requires { length bytes.now ≤ MOST_FILE_BYTES }
    ensures read { IsNoteReadAs lexicon.now.lexicon bytes.now result }
{
    let value = read_value(alloc, bytes)?;
    let told = read_told(alloc, lexicon, &value)?;
    let steps = told_steps(alloc, lexicon, &told)?;
    if !is_value_of(alloc, lexicon, &value, &told, steps.as_slice())? {
        return Err(ReadNoteError::Fault(NoteWhy::Segments));
    }
    let Told { line, choices } = told;
    Ok(Note {
        line,
        choices,
        steps,
    })
}
