ghost use Rattle.std.specs.Prelude.{◌≡◌, ◌++◌, List, [], ◌∷◌, codes, All, IfOk, Some, string_bytes};
ghost use Rattle.std.specs.Fmt.{decimal};
ghost use Rattle.text_definitions.specs.Lines.{Line};
ghost use Rattle.lexicon_definitions.specs.Lexicons.{Lexicon as DefinedLexicon};
ghost use Rattle.segmentation_definitions.specs.Items.{Choice};
ghost use Rattle.segmentation_definitions.specs.PrintedAnswers.{output_line};
ghost use Rattle.derivation.specs.Steps.{keys_meant};
ghost use Rattle.note_definitions.specs.Notes.{IsChoiceOver};
ghost use Rattle.note_definitions.specs.NoteOutcomes as outcomes;
ghost use Rattle.note_definitions.specs.NoteOutcomes.{IsOutcome};
ghost use Rattle.annotation.specs.Answers.{IsCounted};
ghost use Rattle.command_words.specs.Meant.{word_meant};
ghost use Rattle.run_definitions.specs.AnnotateOutcomes.{IsNotedOutcome, IsMarkOutcome, IsAnnotateOutcome};
ghost use Rattle.commands.specs.Annotations.{IsPrintedSeveral, TellsSeveral};
ghost use Rattle.commands.specs.Ends.{Wrote};
ghost use Rattle.commands.specs.RunEnds.{devices, Ran};

use super::ending::finish;
use super::opening::open_lexicon;
use super::status::Status;
use annotated_trie::Lexicon;
use annotation::{NoteError, WrittenNote, write_counted_note};
use answer_printing::{AnswerPrinter, NextAnswers, RuleTexts, push_answers};
use command_words::{AnnotateWords, PlacedWord};
use derivation::Key;
use outside::{Shelf, Sink, Steps, WriteError};
use phoneme::Memory;
use reader_session::{MarkedLine, read_mark};
use segmenter::Search;
use std::alloc::Global;
use summary_chart::Chart;

/// How many segments a note has, as a line.
fn print_segments(alloc: Global, segments: usize) -> Result<String, Memory>
    ensures ok { IfOk result (λ text. string_bytes text ≡ output_line (codes "segments " ++ decimal segments)) }
{
    Ok(format!(in alloc; "segments {segments}\n")?)
}

/// `several`, and the first two answers of the line with its choices.
fn print_several(alloc: Global, lexicon: &Lexicon, marked: &MarkedLine) -> Result<Vec<u8>, Memory>
    ensures ok { IfOk result (λ output. IsPrintedSeveral lexicon.now.lexicon marked.now.line marked.now.choices output.items) }
{
    let mut steps = Steps::<()>::new();
    let chart = Chart::build(alloc, lexicon, &marked.line, &marked.choices, &mut steps)?;
    let mut search = Search::new(alloc, lexicon, &marked.line, &marked.choices, &chart)?;
    let texts = RuleTexts::new(alloc, lexicon.rules())?;
    let mut printer = AnswerPrinter::new(alloc, &texts, &marked.line)?;
    let mut output = Vec::from_slice(alloc, b"several\n")?;
    let asked = NextAnswers {
        number: 1,
        count: 2,
    };
    let mut last = Vec::new(alloc);
    push_answers(
        &mut output,
        &mut printer,
        &mut search,
        asked,
        &mut last,
        &mut steps,
    )?;
    Ok(output)
}

/// Tells that the line with its choices has several answers, of which these are the keys of the first two.
fn tell_several<O: Sink>(
    alloc: Global,
    lexicon: &Lexicon,
    marked: &MarkedLine,
    first: Vec<Key>,
    second: Vec<Key>,
    out: &mut O,
) -> Status
    requires { IsOutcome lexicon.now.lexicon marked.now.line marked.now.choices (outcomes.Several (keys_meant first.items) (keys_meant second.items)) }
    ensures { Wrote (TellsSeveral lexicon.now.lexicon marked.now.line marked.now.choices) result (O.written out.old) (O.written out.new) (O.faults out.old) (O.faults out.new) }
{
    match print_several(alloc, lexicon, marked) {
        Ok(output) => finish(out, output.as_slice(), Status::Several { first, second }),
        Err(Memory) => Status::Memory,
    }
}

/// Writes the text of the note under the name, and only then how many segments it has.
fn write_noted<H: Shelf, O: Sink>(
    alloc: Global,
    note: &WrittenNote,
    word: &PlacedWord<'_>,
    shelf: &mut H,
    out: &mut O,
) -> Status
    ensures { (lexicon : DefinedLexicon) (line : Line) (choices : List Choice) → IsCounted lexicon line choices note.now
        → Ran (IsNotedOutcome lexicon line choices (word_meant word.now)) [] (Some (word_meant word.now)) result
        (devices (H.files shelf.old) (H.failed_reads shelf.old) (H.failed_writes shelf.old) (O.written out.old) (O.faults out.old))
        (devices (H.files shelf.new) (H.failed_reads shelf.new) (H.failed_writes shelf.new) (O.written out.new) (O.faults out.new)) }
{
    let output = match print_segments(alloc, note.segments) {
        Ok(output) => output,
        Err(Memory) => return Status::Memory,
    };
    match shelf.write(word.name, note.text.as_slice()) {
        Ok(()) => finish(out, output.as_bytes(), Status::Done),
        Err(WriteError::Failed) => Status::WriteFault,
        Err(WriteError::Memory) => Status::Memory,
    }
}

/// Writes the note of the line with its choices, or tells that they have no answer, or several.
fn annotate_line<H: Shelf, O: Sink>(
    alloc: Global,
    lexicon: &Lexicon,
    marked: &MarkedLine,
    word: &PlacedWord<'_>,
    shelf: &mut H,
    out: &mut O,
) -> Status
    requires { All (IsChoiceOver lexicon.now.lexicon) marked.now.choices }
    ensures { Ran (IsNotedOutcome lexicon.now.lexicon marked.now.line marked.now.choices (word_meant word.now)) [] (Some (word_meant word.now)) result
        (devices (H.files shelf.old) (H.failed_reads shelf.old) (H.failed_writes shelf.old) (O.written out.old) (O.faults out.old))
        (devices (H.files shelf.new) (H.failed_reads shelf.new) (H.failed_writes shelf.new) (O.written out.new) (O.faults out.new)) }
{
    match write_counted_note(alloc, lexicon, &marked.line, &marked.choices) {
        Ok(note) => write_noted(alloc, &note, word, shelf, out),
        Err(NoteError::NoAnswer) => finish(out, b"no answer\n", Status::NoAnswer),
        Err(NoteError::Several { first, second }) => {
            tell_several(alloc, lexicon, marked, first, second, out)
        }
        Err(NoteError::Memory) => Status::Memory,
    }
}

/// Goes on to the bookmark, and refuses it where a session over the lexicon would.
fn annotate_over<H: Shelf, O: Sink>(
    alloc: Global,
    lexicon: &Lexicon,
    words: &AnnotateWords<'_>,
    shelf: &mut H,
    out: &mut O,
) -> Status
    ensures { Ran (IsMarkOutcome lexicon.now.lexicon words.now.mark.name.now (word_meant words.now.out)) [] (Some (word_meant words.now.out)) result
        (devices (H.files shelf.old) (H.failed_reads shelf.old) (H.failed_writes shelf.old) (O.written out.old) (O.faults out.old))
        (devices (H.files shelf.new) (H.failed_reads shelf.new) (H.failed_writes shelf.new) (O.written out.new) (O.faults out.new)) }
{
    match read_mark(alloc, lexicon, words.mark.name.as_bytes()) {
        Ok(Some(marked)) => annotate_line(alloc, lexicon, &marked, &words.out, shelf, out),
        Ok(None) => finish(out, b"bad mark\n", Status::BadMark),
        Err(Memory) => Status::Memory,
    }
}

/// `annotate LEX MARK OUT`: reads the lexicon, and then the bookmark, and writes the note of its line and choices.
pub(crate) fn run_annotate<H: Shelf, O: Sink>(
    alloc: Global,
    words: &AnnotateWords<'_>,
    shelf: &mut H,
    out: &mut O,
) -> Status
    ensures { Ran (IsAnnotateOutcome (word_meant words.now.lex) words.now.mark.name.now (word_meant words.now.out)) (word_meant words.now.lex ∷ []) (Some (word_meant words.now.out)) result
        (devices (H.files shelf.old) (H.failed_reads shelf.old) (H.failed_writes shelf.old) (O.written out.old) (O.faults out.old))
        (devices (H.files shelf.new) (H.failed_reads shelf.new) (H.failed_writes shelf.new) (O.written out.new) (O.faults out.new)) }
{
    match open_lexicon(alloc, &words.lex, shelf, out) {
        Ok(lexicon) => annotate_over(alloc, &*lexicon, words, shelf, out),
        Err(status) => status,
    }
}
