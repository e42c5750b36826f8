ghost use Rattle.std.specs.Prelude.{◌≡◌};
ghost use Rattle.command_words.specs.Meant.{word_meant};
ghost use Rattle.run_definitions.specs.Commands.{Read};
ghost use Rattle.commands.specs.RunEnds.{devices};
ghost use Rattle.commands.specs.Sessions.{status_at, source_told, RanCommand};

use super::opening::open_lexicon;
use super::status::Status;
use command_words::PlacedWord;
use outside::{Shelf, Sink, Source};
use reader_session::{ServeEnd, serve};
use std::alloc::Global;

/// How a run ends with the session that it served.
fn status_of(end: ServeEnd) -> Status
    ensures { result ≡ status_at end }
{
    match end {
        ServeEnd::Done => Status::Done,
        ServeEnd::Memory => Status::Memory,
        ServeEnd::ReadFault => Status::ReadFault,
        ServeEnd::WriteFault => Status::WriteFault,
        ServeEnd::TooMuch => Status::TooMuch,
    }
}

/// `read LEX`: reads the lexicon, and then serves a reading session over the input.
pub(crate) fn run_read<H: Shelf, I: Source, O: Sink>(
    alloc: Global,
    lex: &PlacedWord<'_>,
    shelf: &mut H,
    input: &mut I,
    out: &mut O,
) -> Status
    ensures { RanCommand (Read (word_meant lex.now)) (input.new ≡ input.old) result
        (devices (H.files shelf.old) (H.failed_reads shelf.old) (H.failed_writes shelf.old) (O.written out.old) (O.faults out.old))
        (devices (H.files shelf.new) (H.failed_reads shelf.new) (H.failed_writes shelf.new) (O.written out.new) (O.faults out.new))
        (source_told (I.left input.old) (I.faults input.old)) (source_told (I.left input.new) (I.faults input.new)) }
{
    match open_lexicon(alloc, lex, shelf, out) {
        Ok(lexicon) => status_of(serve(alloc, &*lexicon, input, out)),
        Err(status) => status,
    }
}
