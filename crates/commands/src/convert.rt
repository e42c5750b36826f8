ghost use Rattle.std.specs.Prelude.{◌≡◌, ℕ, [], ◌∷◌, Some, length, string_bytes, IfOk, IfErr};
ghost use Rattle.lexicon_text_definitions.specs.FileLines.{lines_of_bytes};
ghost use Rattle.command_words.specs.Meant.{word_meant};
ghost use Rattle.more_schemes.specs.Values.{any_scheme_of};
ghost use Rattle.run_definitions.specs.Ends.{Spelling};
ghost use Rattle.run_definitions.specs.ConvertOutcomes.{IsConversion, printed_lines, IsConvertedOutcome, IsConvertOutcome};
ghost use Rattle.commands.specs.RunEnds.{devices, Ran};
ghost use Rattle.commands.specs.SourceErrors.{IsSourceError};
ghost use Rattle.commands.specs.Conversions.{IsConvertedFile};

use super::any_error::AnyError;
use super::ending::{finish, refuse_file};
use super::reading::read_file;
use super::status::{AnyFault, Status};
use command_words::ConvertWords;
use form_file::first_line;
use lexicon_text_definitions::MOST_FILE_BYTES;
use more_schemes::{AnyScheme, convert};
use outside::{Shelf, Sink, WriteError};
use phoneme::Memory;
use std::alloc::Global;

/// A text in another scheme, and what is printed of it.
#[derive(Drop)]
pub(crate) struct ConvertedFile {
    pub text: Vec<u8>,
    pub output: String,
}

/// How many lines the bytes have; what comes after the last line end is one more, where it is not empty.
fn count_lines(bytes: &[u8]) -> usize
    ensures { result ≡ length (lines_of_bytes bytes.now) }
{
    let mut count = 0;
    let mut rest = bytes;
    while let Some((_line, _ended, following)) = first_line(rest) {
        rest = following;
        count += 1;
    }
    count
}

/// How many lines the text has, as a line.
fn print_lines(alloc: Global, lines: usize) -> Result<String, Memory>
    ensures ok { IfOk result (λ text. string_bytes text ≡ printed_lines lines) }
{
    Ok(format!(in alloc; "lines {lines}\n")?)
}

/// The bytes of a text file in the other scheme, whose length is judged before its lines are looked at.
#[tactic(auto, using(crate::proofs::ConvertRuns::file_converted))]
fn convert_file(
    alloc: Global,
    input: AnyScheme,
    output: AnyScheme,
    bytes: &[u8],
) -> Result<ConvertedFile, AnyError>
    ensures ok { IfOk result (IsConvertedFile (any_scheme_of input) (any_scheme_of output) bytes.now) }
    ensures refused { IfErr result (IsSourceError (IsConversion (any_scheme_of input) (any_scheme_of output)) Spelling bytes.now) }
{
    if bytes.len() > MOST_FILE_BYTES {
        return Err(AnyError::Fault(AnyFault::Large));
    }
    let text = convert(alloc, input, output, bytes)?;
    let output = print_lines(alloc, count_lines(bytes))?;
    Ok(ConvertedFile { text, output })
}

/// `convert FROM TO FILE OUT`: reads the text file, writes its text in the other scheme, and only then the number of its lines.
pub(crate) fn run_convert<H: Shelf, O: Sink>(
    alloc: Global,
    words: &ConvertWords<'_>,
    shelf: &mut H,
    sink: &mut O,
) -> Status
    ensures { Ran (IsConvertOutcome (any_scheme_of words.now.input) (any_scheme_of words.now.output) (word_meant words.now.file) (word_meant words.now.out)) (word_meant words.now.file ∷ []) (Some (word_meant words.now.out)) result
        (devices (H.files shelf.old) (H.failed_reads shelf.old) (H.failed_writes shelf.old) (O.written sink.old) (O.faults sink.old))
        (devices (H.files shelf.new) (H.failed_reads shelf.new) (H.failed_writes shelf.new) (O.written sink.new) (O.faults sink.new)) }
{
    let bytes = match read_file(alloc, &words.file, shelf) {
        Ok(bytes) => bytes,
        Err(status) => return status,
    };
    match convert_file(alloc, words.input, words.output, bytes.as_slice()) {
        Ok(converted) => write_converted(words, &converted, shelf, sink),
        Err(AnyError::Fault(fault)) => refuse_file(alloc, &words.file, fault, sink),
        Err(AnyError::Memory) => Status::Memory,
    }
}

/// Writes the text in the other scheme, and only then the output.
fn write_converted<H: Shelf, O: Sink>(
    words: &ConvertWords<'_>,
    converted: &ConvertedFile,
    shelf: &mut H,
    sink: &mut O,
) -> Status
    ensures { (lines : ℕ) → string_bytes converted.now.output ≡ printed_lines lines
        → Ran (IsConvertedOutcome (record { bytes = converted.now.text.items; lines = lines }) (word_meant words.now.out)) [] (Some (word_meant words.now.out)) result
        (devices (H.files shelf.old) (H.failed_reads shelf.old) (H.failed_writes shelf.old) (O.written sink.old) (O.faults sink.old))
        (devices (H.files shelf.new) (H.failed_reads shelf.new) (H.failed_writes shelf.new) (O.written sink.new) (O.faults sink.new)) }
{
    match shelf.write(words.out.name, converted.text.as_slice()) {
        Ok(()) => finish(sink, converted.output.as_bytes(), Status::Done),
        Err(WriteError::Failed) => Status::WriteFault,
        Err(WriteError::Memory) => Status::Memory,
    }
}
