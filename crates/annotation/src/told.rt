ghost use Rattle.std.specs.Prelude.{◌≡◌, ◌↔◌, ◌++◌, ◌∷◌, [], length, nat_lt, Some, Err, OnOk, OnErr};
ghost use Rattle.serde_json.specs.View.{view};
ghost use Rattle.segmentation_definitions.specs.declared.limits.TheConstants.{MOST_CHOICES};
ghost use Rattle.bookmark_definitions.specs.BookmarkReadings.{line_of};
ghost use Rattle.note_definitions.specs.NoteFaults.{Text, Choice as ChoiceWhy};
ghost use Rattle.note_definitions.specs.NoteReadings.{choices_of, told_with_value};
ghost use Rattle.annotation.specs.Objects.{text_in, texts_in};
ghost use Rattle.annotation.specs.Readings.{IsReadOr, IsToldAs, choice_over, told_of};

use crate::shapes::note_parts;
use crate::{NoteWhy, ReadNoteError};
use annotated_trie::Lexicon;
use bookmarks::{BookmarkError, read_choice, read_line};
use derivation::Choice;
use phoneme::Line;
use reader_choices::{ChoiceError, Choices};
use serde_json::Value;
use std::alloc::Global;

/// The line and the choices that a note tells.
#[derive(Drop)]
pub(crate) struct Told {
    pub(crate) line: Line,
    pub(crate) choices: Choices,
}

/// The line that the text of a note writes.
fn read_text(alloc: Global, text: &str) -> Result<Line, ReadNoteError>
    ensures { IsReadOr Text result (line_of text.now) (λ line. line) }
{
    match read_line(alloc, text.as_bytes()) {
        Ok(line) => Ok(line),
        Err(BookmarkError::Form) => Err(ReadNoteError::Fault(NoteWhy::Text)),
        Err(BookmarkError::Memory) => Err(ReadNoteError::Memory),
    }
}

/// Whether the lexicon has the phase of the choice's item.
fn has_phase(lexicon: &Lexicon, choice: &Choice) -> bool
    ensures { result ≡ nat_lt choice.now.item.phase (length lexicon.now.lexicon.phases) }
{
    (choice.item.phase as usize) < lexicon.rules().phases().len()
}

/// The choice that a text writes, where the lexicon may have it.
fn read_choice_over(alloc: Global, lexicon: &Lexicon, text: &str) -> Result<Choice, ReadNoteError>
    ensures { IsReadOr ChoiceWhy result (choice_over lexicon.now.lexicon text.now) (λ choice. choice) }
{
    let choice = match read_choice(alloc, text.as_bytes()) {
        Ok(choice) => choice,
        Err(BookmarkError::Form) => return Err(ReadNoteError::Fault(NoteWhy::Choice)),
        Err(BookmarkError::Memory) => return Err(ReadNoteError::Memory),
    };
    if has_phase(lexicon, &choice) {
        Ok(choice)
    } else {
        Err(ReadNoteError::Fault(NoteWhy::Choice))
    }
}

/// Adds the choice. Refused where there are too many choices, or for want of memory.
fn add_choice(choices: &mut Choices, choice: Choice) -> Result<(), ChoiceError>
    ensures ok { OnOk result (choices.new ≡ choices.old ++ choice ∷ []) }
    ensures full { (result ≡ Err ChoiceError.Full) ↔ (length choices.old ≡ MOST_CHOICES) }
    ensures unchanged { OnErr result (choices.new ≡ choices.old) }
{
    if choice.kept {
        choices.keep(choice.item)
    } else {
        choices.reject(choice.item)
    }
}

/// The text that a value is. A note with a choice that is no text is refused for its shape, and does not come here.
fn text_in(value: &Value) -> &str
    ensures { result.now ≡ text_in value.now }
{
    match value.as_str() {
        Some(text) => text,
        None => "",
    }
}

/// The choices that the texts write, where the lexicon may have each of them and they are not too many.
fn read_choices(alloc: Global, lexicon: &Lexicon, texts: &[Value]) -> Result<Choices, ReadNoteError>
    ensures { IsReadOr ChoiceWhy result (choices_of lexicon.now.lexicon (texts_in texts.now)) (λ choices. choices) }
{
    let mut choices = Choices::new(alloc);
    for text in texts {
        let choice = read_choice_over(alloc, lexicon, text_in(text))?;
        match add_choice(&mut choices, choice) {
            Ok(()) => {}
            Err(ChoiceError::Full) => return Err(ReadNoteError::Fault(NoteWhy::Choice)),
            Err(ChoiceError::Memory) => return Err(ReadNoteError::Memory),
        }
    }
    Ok(choices)
}

/// The line and the choices that the value tells.
pub(crate) fn read_told(
    alloc: Global,
    lexicon: &Lexicon,
    note: &Value,
) -> Result<Told, ReadNoteError>
    ensures { IsToldAs result (told_with_value lexicon.now.lexicon (Some (view note.now))) (told_of (view note.now)) }
{
    let Some(parts) = note_parts(note) else {
        return Err(ReadNoteError::Fault(NoteWhy::Shape));
    };
    let line = read_text(alloc, parts.text)?;
    let choices = read_choices(alloc, lexicon, parts.choices)?;
    Ok(Told { line, choices })
}
