//! The adapters of standard input and standard output over streams that fail, that are interrupted and that would block: what no
//! clause says and no run of the program can wait for.

use super::scripted_clock::ScriptedClock;
use super::scripted_input::ScriptedInput;
use super::scripted_printer::ScriptedPrinter;
use outside::{Failed, InputSource, OutputSink, Source, WriteError, write_all};
use std::io::{self, ErrorKind};
use std::test::Fail;

fn next_of<'b, I: Source>(source: &mut I, buf: &'b mut [u8; 4]) -> Result<&'b [u8], Failed> {
    let count = source.read(buf)?;
    Ok(&buf[..count])
}

fn kind_of(fault: Option<io::Error>) -> Option<ErrorKind> {
    Some(fault?.kind())
}

// A fault loses nothing: what comes after it is what would have come without it. What a signal interrupted is tried again at
// once, and what would have blocked after a millisecond; neither is a fault.
#[test]
fn an_input_that_fails_in_between(rt: HostRuntime) {
    let input = ScriptedInput {
        reads: &[
            Ok(b"deva"),
            Err(ErrorKind::Other),
            Err(ErrorKind::WouldBlock),
            Err(ErrorKind::Interrupted),
            Err(ErrorKind::WouldBlock),
            Ok(b"dat"),
        ],
        ends: true,
    };
    let clock = ScriptedClock::new();
    let mut source = InputSource::new(&clock, input);
    for wanted in [
        Ok(b"deva".as_slice()),
        Err(Failed),
        Ok(b"dat".as_slice()),
        Ok(b"".as_slice()),
    ] {
        assert_eq!(rt; next_of(&mut source, &mut [0; 4]), wanted);
    }
    assert_eq!(rt; clock.slept(), 2);
    assert_eq!(rt; kind_of(source.last_fault()), Some(ErrorKind::Other));
}

// So it is with what is written.
#[test]
fn an_output_that_fails_in_between(rt: HostRuntime) -> Result<(), Fail> {
    let printer = ScriptedPrinter::new(
        rt.alloc(),
        &[
            Ok(4),
            Err(ErrorKind::Other),
            Err(ErrorKind::WouldBlock),
            Ok(2),
            Err(ErrorKind::Interrupted),
            Ok(0),
        ],
    );
    let mut out = OutputSink::new(&printer);
    for (bytes, wanted, cause) in [
        (
            b"devadatta".as_slice(),
            Err(WriteError::Failed),
            ErrorKind::Other,
        ),
        (
            b"datta".as_slice(),
            Err(WriteError::Failed),
            ErrorKind::WriteZero,
        ),
        (b"tta".as_slice(), Ok(()), ErrorKind::WriteZero),
    ] {
        assert_eq!(rt; write_all(&mut out, bytes), wanted);
        assert_eq!(rt; kind_of(out.last_fault()), Some(cause));
    }
    assert_eq!(rt; printer.into_taken().as_slice(), b"devadatta".as_slice());
    Ok(())
}

// An input that only blocks is a fault after a day.
#[test]
fn a_stream_that_blocks_for_a_day(rt: HostRuntime) {
    let input = ScriptedInput {
        reads: &[],
        ends: false,
    };
    let clock = ScriptedClock::new();
    let mut source = InputSource::new(&clock, input);
    assert_eq!(rt; next_of(&mut source, &mut [0; 4]), Err(Failed));
    assert_eq!(rt; clock.slept(), 86_400_000);
    assert_eq!(rt; kind_of(source.last_fault()), Some(ErrorKind::TimedOut));
}
