ghost use Rattle.std.specs.Prelude.{◌≡◌, ◌<◌, ◌≤◌, length, take, IfOk, OnErr};
ghost use Rattle.std.specs.Io.KnownBytes.{Consumes, Appends, Keeps, IsAtEnd};

use std::io::{self, ErrorKind, Read, Write};
use std::rt::Clock;
use std::thread;
use std::time::Duration;

/// How many milliseconds a call rests that would have blocked, before it is tried again in the first second.
const SHORT_PAUSE: u64 = 1;

/// How many pauses are short.
const SHORT_PAUSES: u32 = 1_000;

/// How many milliseconds it rests after that.
const LONG_PAUSE: u64 = 250;

/// How often a call is tried: with a pause after each, for a day.
const MOST_TRIES: u32 = 346_596;

/// Whether a call that failed so, with so many tries before it, is tried again: at once where a signal interrupted it, and
/// after a pause where it would have blocked, as on a pipe whose other user made it not block.
fn may_try_again<C: Clock>(clock: &C, error: &io::Error, tries: u32) -> bool {
    match error.kind() {
        ErrorKind::Interrupted => true,
        ErrorKind::WouldBlock => {
            let pause = if tries < SHORT_PAUSES {
                SHORT_PAUSE
            } else {
                LONG_PAUSE
            };
            thread::sleep(clock, Duration::from_millis(pause));
            true
        }
        _ => false,
    }
}

/// One read, tried again where it was interrupted or would have blocked.
pub(crate) fn read_some<C: Clock, F: Read>(
    clock: &C,
    reader: &mut F,
    buf: &mut [u8],
) -> io::Result<usize>
    ensures bound { IfOk result (λ n. n ≤ length buf.new) }
    ensures bytes { IfOk result (λ n. Consumes (F.remaining reader.old) (F.remaining reader.new) (take n buf.new)) }
    ensures end { IfOk result (λ n. n ≡ 0 → 0 < length buf.old → IsAtEnd (F.remaining reader.new)) }
    ensures unchanged { OnErr result (Keeps (F.remaining reader.old) (F.remaining reader.new)) }
{
    for tries in 0..MOST_TRIES {
        match reader.read(buf) {
            Ok(count) => return Ok(count),
            Err(error) => {
                if !may_try_again(clock, &error, tries) {
                    return Err(error);
                }
            }
        }
    }
    Err(io::Error::from(ErrorKind::TimedOut))
}

/// One write, of one byte at least, tried again where it was interrupted or would have blocked.
pub(crate) fn write_some<C: Clock, F: Write>(
    clock: &C,
    writer: &mut F,
    bytes: &[u8],
) -> io::Result<usize>
    ensures some { IfOk result (λ n. 0 < n) }
    ensures bound { IfOk result (λ n. n ≤ length bytes.now) }
    ensures bytes { IfOk result (λ n. Appends (F.contents writer.old) (F.contents writer.new) (take n bytes.now)) }
{
    for tries in 0..MOST_TRIES {
        match writer.write(bytes) {
            Ok(0) => return Err(io::Error::from(ErrorKind::WriteZero)),
            Ok(count) => return Ok(count),
            Err(error) => {
                if !may_try_again(clock, &error, tries) {
                    return Err(error);
                }
            }
        }
    }
    Err(io::Error::from(ErrorKind::TimedOut))
}
