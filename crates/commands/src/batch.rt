ghost use Rattle.std.specs.Prelude.{◌≡◌, ◌≤◌, ◌^◌, ◌<◌, length};
ghost use Rattle.lexicon_text_definitions.specs.declared.limits.TheConstants.{MOST_FILE_BYTES};
ghost use Rattle.text_line.specs.Values.{scheme_of};
ghost use Rattle.command_words.specs.Meant.{word_meant};
ghost use Rattle.commands.specs.RunEnds.{devices};
ghost use Rattle.commands.specs.Batches.{HasReplied, RanOverText, RanBatch};

use super::ending::refuse_file;
use super::opening::open_lexicon;
use super::reading::read_file;
use super::status::{AnyFault, Status};
use batch_reader::Batch;
use command_words::{BatchWords, PlacedWord};
use lexicon_text_definitions::MOST_FILE_BYTES;
use outside::{Gate, Shelf, Sink, WriteError};
use std::alloc::Global;
use std::thread::Threads;

/// `batch LEX SCHEME FILE N`: reads the lexicon, and then the text file, and writes the replies to its lines.
pub(crate) fn run_batch<R: Threads + Sync, H: Shelf, O: Sink, G: Gate + Sync>(
    rt: &R,
    alloc: Global,
    words: &BatchWords<'_>,
    shelf: &mut H,
    out: &mut O,
    gate: &G,
) -> Status
    ensures { RanBatch (word_meant words.now.lex) (scheme_of words.now.scheme) (word_meant words.now.file) words.now.count result
        (devices (H.files shelf.old) (H.failed_reads shelf.old) (H.failed_writes shelf.old) (O.written out.old) (O.faults out.old))
        (devices (H.files shelf.new) (H.failed_reads shelf.new) (H.failed_writes shelf.new) (O.written out.new) (O.faults out.new)) }
{
    match open_lexicon(alloc, &words.lex, shelf, out) {
        Ok(lexicon) => {
            let batch = Batch {
                lexicon: &*lexicon,
                scheme: words.scheme,
                count: words.count,
                gate,
            };
            batch_over(rt, alloc, &words.file, &batch, shelf, out)
        }
        Err(status) => status,
    }
}

/// Goes on to the text file, whose length is judged before its lines are looked at.
fn batch_over<R: Threads + Sync, H: Shelf, O: Sink, G: Gate + Sync>(
    rt: &R,
    alloc: Global,
    file: &PlacedWord<'_>,
    batch: &Batch<'_, G>,
    shelf: &mut H,
    out: &mut O,
) -> Status
    ensures { RanOverText batch.now.lexicon.now.lexicon (scheme_of batch.now.scheme) (word_meant file.now) batch.now.count result
        (devices (H.files shelf.old) (H.failed_reads shelf.old) (H.failed_writes shelf.old) (O.written out.old) (O.faults out.old))
        (devices (H.files shelf.new) (H.failed_reads shelf.new) (H.failed_writes shelf.new) (O.written out.new) (O.faults out.new)) }
{
    let text = match read_file(alloc, file, shelf) {
        Ok(bytes) => bytes,
        Err(status) => return status,
    };
    if text.len() > MOST_FILE_BYTES {
        return refuse_file(alloc, file, AnyFault::Large, out);
    }
    reply_to_lines(rt, alloc, batch, text.as_slice(), out)
}

/// Writes the replies to the lines of the text.
fn reply_to_lines<R: Threads + Sync, O: Sink, G: Gate + Sync>(
    rt: &R,
    alloc: Global,
    batch: &Batch<'_, G>,
    text: &[u8],
    out: &mut O,
) -> Status
    requires { length text.now ≤ MOST_FILE_BYTES }
    ensures { HasReplied batch.now.lexicon.now.lexicon (scheme_of batch.now.scheme) batch.now.count text.now result
        (O.written out.old) (O.written out.new) (O.faults out.old) (O.faults out.new) }
{
    match batch.serve(rt, alloc, text, out) {
        Ok(()) => Status::Done,
        Err(WriteError::Failed) => Status::WriteFault,
        Err(WriteError::Memory) => Status::Memory,
    }
}
