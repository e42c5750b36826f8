ghost use Rattle.std.specs.Prelude.{◌≡◌, [], ◌∷◌, ◌++◌, OnOk, OnErr, IfOk};
ghost use Rattle.outside.specs.Answers.{OnFailedWrite};
ghost use Rattle.outside.specs.Counts.{Rose};
ghost use Rattle.lexicon_text_definitions.specs.FileLines.{lines_of_bytes};
ghost use Rattle.reader_session.specs.Serving.{HasNoEnd, HasServed, HasStopped, HasServedWithin, HasStoppedWithin};

use super::after::After;
use super::session::Session;
use outside::{Sink, WriteError, write_all};
use phoneme::cut_at;
use std::alloc::Global;

/// Writes the reply to one line of the input, whose line end is not among its bytes, and answers how the session stands then. The reply
/// is put into the memory of another one.
fn serve_line<O: Sink>(
    alloc: Global,
    session: &mut Session,
    line: &[u8],
    ended: bool,
    reply: &mut Vec<u8>,
    sink: &mut O,
) -> Result<After, WriteError>
    ensures ok { IfOk result (HasServed (record { bytes = line.now; ended = ended } ∷ []) session.old session.new
        (O.written sink.old) (O.written sink.new)) }
    ensures stopped { OnErr result (HasStopped (record { bytes = line.now; ended = ended } ∷ []) session.old
        (O.written sink.old) (O.written sink.new)) }
    ensures fault { OnFailedWrite result (Rose (O.faults sink.old) (O.faults sink.new)) }
    ensures faults { OnOk result (O.faults sink.new ≡ O.faults sink.old) }
{
    reply.clear();
    let after = session.reply(alloc, line, ended, reply)?;
    write_all(sink, reply)?;
    Ok(after)
}

/// Serves the lines that end within the next piece of the input, where `rest` has the line that began before it, and leaves in
/// `rest` what comes after the last line end. After a line that ends the session, the bytes are not looked at.
pub(crate) fn serve_piece<O: Sink>(
    alloc: Global,
    session: &mut Session,
    rest: &mut Vec<u8>,
    piece: &[u8],
    sink: &mut O,
) -> Result<After, WriteError>
    requires { HasNoEnd rest.old.items }
    ensures ok { IfOk result (HasServedWithin (rest.old.items ++ piece.now) rest.new.items session.old session.new
        (O.written sink.old) (O.written sink.new)) }
    ensures stopped { OnErr result (HasStoppedWithin (rest.old.items ++ piece.now) session.old
        (O.written sink.old) (O.written sink.new)) }
    ensures fault { OnFailedWrite result (Rose (O.faults sink.old) (O.faults sink.new)) }
    ensures faults { OnOk result (O.faults sink.new ≡ O.faults sink.old) }
{
    let mut reply = Vec::new(alloc);
    let mut left = piece;
    while let Some((line, following)) = cut_at(left, b'\n') {
        rest.extend_from_slice(line)?;
        let After::Open = serve_line(alloc, session, rest, true, &mut reply, sink)? else {
            return Ok(After::Over);
        };
        rest.clear();
        left = following;
    }
    rest.extend_from_slice(left)?;
    Ok(After::Open)
}

/// Serves what is left after the last line end of the input, which is a line where it is not empty.
pub(crate) fn serve_rest<O: Sink>(
    alloc: Global,
    session: &mut Session,
    rest: &[u8],
    sink: &mut O,
) -> Result<After, WriteError>
    requires { HasNoEnd rest.now }
    ensures ok { IfOk result (HasServed (lines_of_bytes rest.now) session.old session.new
        (O.written sink.old) (O.written sink.new)) }
    ensures stopped { OnErr result (HasStopped (lines_of_bytes rest.now) session.old
        (O.written sink.old) (O.written sink.new)) }
    ensures fault { OnFailedWrite result (Rose (O.faults sink.old) (O.faults sink.new)) }
{
    if rest.is_empty() {
        return Ok(After::Open);
    }
    serve_line(alloc, session, rest, false, &mut Vec::new(alloc), sink)
}
