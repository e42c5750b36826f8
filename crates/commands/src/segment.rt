ghost use Rattle.std.specs.Prelude.{◌<◌, ◌^◌, [], ◌∷◌, length, None};
ghost use Rattle.text_line.specs.Values.{scheme_of};
ghost use Rattle.command_words.specs.Meant.{word_meant};
ghost use Rattle.run_definitions.specs.SegmentOutcomes.{IsSegmentOutcome};
ghost use Rattle.commands.specs.Ends.{Wrote};
ghost use Rattle.commands.specs.RunEnds.{devices, Ran};
ghost use Rattle.commands.specs.Segments.{WritesSegmented};

use super::ending::{finish, refuse_text};
use super::opening::open_lexicon;
use super::status::Status;
use annotated_trie::Lexicon;
use batch_reader::first_page;
use command_words::PlacedWord;
use outside::{Shelf, Sink};
use phoneme::Memory;
use run_definitions::SEGMENT_PAGE;
use std::alloc::Global;
use text_line::{Scheme, read_line};

/// Writes the page of the text's line, or refuses the text.
fn write_segmented<O: Sink>(
    alloc: Global,
    lexicon: &Lexicon,
    scheme: Scheme,
    text: &str,
    out: &mut O,
) -> Status
    requires { length text.now < 2 ^ 32 }
    ensures { Wrote (WritesSegmented (scheme_of scheme) text.now lexicon.now.lexicon) result (O.written out.old) (O.written out.new) (O.faults out.old) (O.faults out.new) }
{
    let line = match read_line(alloc, scheme, text.as_bytes()) {
        Ok(line) => line,
        Err(error) => match error.fault() {
            Ok(fault) => return refuse_text(alloc, fault, out),
            Err(Memory) => return Status::Memory,
        },
    };
    match first_page(alloc, lexicon, &line, SEGMENT_PAGE) {
        Ok(output) => finish(out, output.as_slice(), Status::Done),
        Err(Memory) => Status::Memory,
    }
}

/// `segment LEX TEXT`: reads the lexicon and the text, lists the answers, and writes one page of them.
pub(crate) fn run_segment<H: Shelf, O: Sink>(
    alloc: Global,
    lex: &PlacedWord<'_>,
    scheme: Scheme,
    text: &str,
    shelf: &mut H,
    out: &mut O,
) -> Status
    requires { length text.now < 2 ^ 32 }
    ensures { Ran (IsSegmentOutcome (word_meant lex.now) (scheme_of scheme) text.now) (word_meant lex.now ∷ []) None result
        (devices (H.files shelf.old) (H.failed_reads shelf.old) (H.failed_writes shelf.old) (O.written out.old) (O.faults out.old))
        (devices (H.files shelf.new) (H.failed_reads shelf.new) (H.failed_writes shelf.new) (O.written out.new) (O.faults out.new)) }
{
    match open_lexicon(alloc, lex, shelf, out) {
        Ok(lexicon) => write_segmented(alloc, &*lexicon, scheme, text, out),
        Err(status) => status,
    }
}
