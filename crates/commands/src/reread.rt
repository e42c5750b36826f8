ghost use Rattle.std.specs.Prelude.{◌≡◌, ◌<◌, false, [], ◌∷◌, length, IfOk, IfErr, None, string_bytes};
ghost use Rattle.segmentation_definitions.specs.PrintedAnswers.{printed_page};
ghost use Rattle.derivation.specs.Steps.{StandIn, steps_of};
ghost use Rattle.note_definitions.specs.NoteReadings.{IsNoteRead};
ghost use Rattle.command_words.specs.Meant.{word_meant};
ghost use Rattle.run_definitions.specs.Ends.{Note as NoteFault};
ghost use Rattle.run_definitions.specs.RereadOutcomes.{IsNoteFileOutcome, IsRereadOutcome};
ghost use Rattle.commands.specs.Rereads.{IsPrintedNote};
ghost use Rattle.commands.specs.RunEnds.{devices, Ran};
ghost use Rattle.commands.specs.SourceErrors.{IsSourceError};

use super::any_error::AnyError;
use super::ending::{finish, refuse_file};
use super::opening::open_lexicon;
use super::reading::read_file;
use super::status::{AnyFault, Status};
use annotated_trie::Lexicon;
use annotation::{Note, read_note};
use command_words::{PlacedWord, RereadWords};
use derivation::print_derivation;
use lexicon_text_definitions::MOST_FILE_BYTES;
use outside::{Shelf, Sink};
use phoneme::Memory;
use std::alloc::Global;

/// The line of the note's answer with the number 1, and `end`.
fn print_note(alloc: Global, lexicon: &Lexicon, note: &Note) -> Result<String, Memory>
    requires stand { StandIn lexicon.now.lexicon.rules note.now.line.letters note.now.steps.items }
    requires some { 0 < length note.now.steps.items }
    ensures ok { IfOk result (λ text. string_bytes text ≡ printed_page lexicon.now.lexicon.rules 1
        (steps_of lexicon.now.lexicon.rules note.now.line.letters note.now.steps.items ∷ []) false) }
{
    let answer = print_derivation(alloc, lexicon.rules(), &note.line, note.steps.as_slice(), 1)?;
    Ok(format!(in alloc; "{answer}\nend\n")?)
}

/// What is printed of the note that the bytes of a file are, whose length is judged before they are looked at.
fn reread_note(alloc: Global, lexicon: &Lexicon, bytes: &[u8]) -> Result<String, AnyError>
    ensures ok { IfOk result (λ output. IsPrintedNote lexicon.now.lexicon bytes.now (string_bytes output)) }
    ensures refused { IfErr result (IsSourceError (IsNoteRead lexicon.now.lexicon) NoteFault bytes.now) }
{
    if bytes.len() > MOST_FILE_BYTES {
        return Err(AnyError::Fault(AnyFault::Large));
    }
    let note = read_note(alloc, lexicon, bytes)?;
    Ok(print_note(alloc, lexicon, &note)?)
}

/// Goes on to the file of the note.
fn reread_over<H: Shelf, O: Sink>(
    alloc: Global,
    lexicon: &Lexicon,
    file: &PlacedWord<'_>,
    shelf: &mut H,
    out: &mut O,
) -> Status
    ensures { Ran (IsNoteFileOutcome lexicon.now.lexicon (word_meant file.now)) (word_meant file.now ∷ []) None result
        (devices (H.files shelf.old) (H.failed_reads shelf.old) (H.failed_writes shelf.old) (O.written out.old) (O.faults out.old))
        (devices (H.files shelf.new) (H.failed_reads shelf.new) (H.failed_writes shelf.new) (O.written out.new) (O.faults out.new)) }
{
    let bytes = match read_file(alloc, file, shelf) {
        Ok(bytes) => bytes,
        Err(status) => return status,
    };
    match reread_note(alloc, lexicon, bytes.as_slice()) {
        Ok(output) => finish(out, output.as_bytes(), Status::Done),
        Err(AnyError::Fault(fault)) => refuse_file(alloc, file, fault, out),
        Err(AnyError::Memory) => Status::Memory,
    }
}

/// `reread LEX FILE`: reads the lexicon, and then the note, and writes its answer.
pub(crate) fn run_reread<H: Shelf, O: Sink>(
    alloc: Global,
    words: &RereadWords<'_>,
    shelf: &mut H,
    out: &mut O,
) -> Status
    ensures { Ran (IsRereadOutcome (word_meant words.now.lex) (word_meant words.now.file)) (word_meant words.now.lex ∷ word_meant words.now.file ∷ []) None result
        (devices (H.files shelf.old) (H.failed_reads shelf.old) (H.failed_writes shelf.old) (O.written out.old) (O.faults out.old))
        (devices (H.files shelf.new) (H.failed_reads shelf.new) (H.failed_writes shelf.new) (O.written out.new) (O.faults out.new)) }
{
    match open_lexicon(alloc, &words.lex, shelf, out) {
        Ok(lexicon) => reread_over(alloc, &*lexicon, &words.file, shelf, out),
        Err(status) => status,
    }
}
