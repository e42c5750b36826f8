ghost use Rattle.std.specs.Prelude.{◌≡◌, false, All, string_bytes, IfOk};
ghost use Rattle.serde_json.specs.View.{view};
ghost use Rattle.serde_json.specs.Written.{has_float, compact_text};
ghost use Rattle.segmentation_definitions.specs.PrintedAnswers.{output_line};
ghost use Rattle.derivation.specs.Steps.{StandIn, steps_of};
ghost use Rattle.note_definitions.specs.Notes.{IsChoiceOver};
ghost use Rattle.note_definitions.specs.NoteTexts.{value_of_note, text_of_note};
ghost use Rattle.annotation.specs.Answers.{IsNoteWritten, IsCountedNote};
ghost use Rattle.annotation.specs.Objects.{note_with};

use crate::only_answers::only_steps;
use crate::segments::segments_value;
use crate::values::choices_value;
use crate::{NoteError, WrittenNote};
use annotated_trie::Lexicon;
use bookmarks::print_line;
use derivation::{Choice, Step};
use phoneme::{Line, Memory};
use reader_choices::Choices;
use serde_json::{Map, Value, put};
use std::alloc::{AllocError, Global};

/// The object of a note with these choices, segments and text.
fn note_object(
    alloc: Global,
    choices: Value,
    segments: Value,
    text: String,
) -> Result<Value, AllocError>
    ensures { IfOk result (λ value. view value ≡ note_with (view choices) (view segments) (string_bytes text)) }
{
    let mut members = Map::new(alloc);
    put(&mut members, alloc, "choices", choices)?;
    put(&mut members, alloc, "segments", segments)?;
    put(&mut members, alloc, "text", Value::String(text))?;
    put(&mut members, alloc, "version", Value::from(1_u32))?;
    Ok(Value::Object(members))
}

/// The JSON value of the note.
pub(crate) fn note_value(
    alloc: Global,
    lexicon: &Lexicon,
    line: &Line,
    choices: &[Choice],
    steps: &[Step],
) -> Result<Value, Memory>
    requires stand { StandIn lexicon.now.lexicon.rules line.now.letters steps.now }
    ensures ok { IfOk result (λ value. view value ≡ value_of_note lexicon.now.lexicon
        (record { line = line.now; choices = choices.now; steps = steps_of lexicon.now.lexicon.rules line.now.letters steps.now })) }
{
    let text = print_line(alloc, line)?;
    let choices = choices_value(alloc, choices)?;
    let segments = segments_value(alloc, lexicon, line, steps)?;
    Ok(note_object(alloc, choices, segments, text)?)
}

/// The compact text of the value, and a line feed.
fn value_text(alloc: Global, value: &Value) -> Result<Vec<u8>, Memory>
    requires { has_float (view value.now) ≡ false }
    ensures { IfOk result (λ bytes. bytes.items ≡ output_line (compact_text (view value.now))) }
{
    let mut bytes = value.to_string(alloc)?.into_bytes();
    bytes.push(b'\n')?;
    Ok(bytes)
}

/// The text of the note.
fn note_text(
    alloc: Global,
    lexicon: &Lexicon,
    line: &Line,
    choices: &[Choice],
    steps: &[Step],
) -> Result<Vec<u8>, Memory>
    requires stand { StandIn lexicon.now.lexicon.rules line.now.letters steps.now }
    ensures ok { IfOk result (λ bytes. bytes.items ≡ text_of_note lexicon.now.lexicon
        (record { line = line.now; choices = choices.now; steps = steps_of lexicon.now.lexicon.rules line.now.letters steps.now })) }
{
    let value = note_value(alloc, lexicon, line, choices, steps)?;
    value_text(alloc, &value)
}

/// The note of the line and the choices, where they have exactly one answer (own; choices after Goyal and Huet 2016). `NoAnswer`
/// comes where they have none, and `Several` where they have two or more, with the keys of the first two.
#[tactic(auto, using(crate::proofs::WrittenNotes::note_counted))]
pub fn write_counted_note(
    alloc: Global,
    lexicon: &Lexicon,
    line: &Line,
    choices: &Choices,
) -> Result<WrittenNote, NoteError>
    requires choices { All (IsChoiceOver lexicon.now.lexicon) choices.now }
    ensures written { IsCountedNote lexicon.now.lexicon line.now choices.now result }
{
    let only = only_steps(alloc, lexicon, line, choices)?;
    let text = note_text(alloc, lexicon, line, choices.list(), only.as_slice())?;
    let segments = only.len();
    Ok(WrittenNote { text, segments })
}

/// The text of this note alone.
#[tactic(auto, using(crate::proofs::WrittenNotes::text_alone))]
pub fn write_note(
    alloc: Global,
    lexicon: &Lexicon,
    line: &Line,
    choices: &Choices,
) -> Result<Vec<u8>, NoteError>
    requires choices { All (IsChoiceOver lexicon.now.lexicon) choices.now }
    ensures written { IsNoteWritten lexicon.now.lexicon line.now choices.now result }
{
    let note = write_counted_note(alloc, lexicon, line, choices)?;
    Ok(note.text)
}
