ghost use Rattle.std.specs.Prelude.{◌≡◌, List, ℕ, Some};
ghost use Rattle.outside.specs.Counts.{Rose};
ghost use Rattle.reader_session.specs.declared.serve_end.ServeEnd.TheVariants as end;
ghost use Rattle.reader_session.specs.Served.{IsEnd, WroteSession, WroteFront, RepliedToTaken};
ghost use Rattle.session_definitions.specs.States.{opening};
ghost use Rattle.reader_session.specs.Serving.{end_at};

use super::ServeEnd;
use super::after::After;
use super::lines::{serve_piece, serve_rest};
use super::session::Session;
use annotated_trie::Lexicon;
use outside::{Sink, Source, WriteError};
use session_definitions::MOST_INPUT_BYTES;
use std::alloc::Global;

/// The greatest number of bytes that one read of the source asks for.
const PIECE: usize = 4_096;

/// Serves a reading session over the lexicon: reads the lines of the source and writes the reply to each complete line before
/// the next is looked at, up to a `quit` line or the end of the input (after the lean reader of Goyal and Huet 2016; the
/// language of commands is our own).
pub fn serve<I: Source, O: Sink>(
    alloc: Global,
    lexicon: &Lexicon,
    source: &mut I,
    sink: &mut O,
) -> ServeEnd
    ensures session { IsEnd result → (input old : List ℕ) → I.left source.old ≡ Some input → O.written sink.old ≡ Some old
        → WroteSession lexicon.now.lexicon input old (O.written sink.new) result }
    ensures prefix { (input : List ℕ) → I.left source.old ≡ Some input → WroteFront lexicon.now.lexicon input (O.written sink.old) (O.written sink.new) }
    ensures replies { result ≡ end.ReadFault → (input old : List ℕ) → I.left source.old ≡ Some input → O.written sink.old ≡ Some old
        → RepliedToTaken lexicon.now.lexicon input old (I.left source.new) (O.written sink.new) }
    ensures read_fault { result ≡ end.ReadFault → Rose (I.faults source.old) (I.faults source.new) }
    ensures write_fault { result ≡ end.WriteFault → Rose (O.faults sink.old) (O.faults sink.new) }
{
    let Ok(mut session) = Session::new(alloc, lexicon) else {
        return ServeEnd::Memory;
    };
    serve_lines(alloc, &mut session, source, sink)
}

/// The same by a session that has replied to no line.
fn serve_lines<I: Source, O: Sink>(
    alloc: Global,
    session: &mut Session,
    source: &mut I,
    sink: &mut O,
) -> ServeEnd
    requires { session.old.state ≡ opening }
    ensures session { IsEnd result → (input old : List ℕ) → I.left source.old ≡ Some input → O.written sink.old ≡ Some old
        → WroteSession session.old.searched.lexicon input old (O.written sink.new) result }
    ensures prefix { (input : List ℕ) → I.left source.old ≡ Some input
        → WroteFront session.old.searched.lexicon input (O.written sink.old) (O.written sink.new) }
    ensures replies { result ≡ end.ReadFault → (input old : List ℕ) → I.left source.old ≡ Some input → O.written sink.old ≡ Some old
        → RepliedToTaken session.old.searched.lexicon input old (I.left source.new) (O.written sink.new) }
    ensures read_fault { result ≡ end.ReadFault → Rose (I.faults source.old) (I.faults source.new) }
    ensures write_fault { result ≡ end.WriteFault → Rose (O.faults sink.old) (O.faults sink.new) }
{
    let mut rest = Vec::new(alloc);
    let mut piece = [0u8; PIECE];
    let mut allowed = MOST_INPUT_BYTES;
    loop {
        let Ok(count) = source.read(&mut piece) else {
            return ServeEnd::ReadFault;
        };
        if count == 0 {
            if let Err(error) = serve_rest(alloc, session, &rest, sink) {
                return end_by(error);
            }
            return ServeEnd::Done;
        }
        let within = count.min(allowed);
        match serve_piece(alloc, session, &mut rest, &piece[..within], sink) {
            Ok(After::Open) => {}
            Ok(After::Over) => return ServeEnd::Done,
            Err(error) => return end_by(error),
        }
        if within < count {
            return ServeEnd::TooMuch;
        }
        allowed -= count;
    }
}

/// How serving ends where the sink answers this error.
fn end_by(error: WriteError) -> ServeEnd
    ensures { result ≡ end_at error }
{
    match error {
        WriteError::Failed => ServeEnd::WriteFault,
        WriteError::Memory => ServeEnd::Memory,
    }
}
