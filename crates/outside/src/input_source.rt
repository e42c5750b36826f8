ghost use Rattle.std.specs.Prelude.{◌≡◌, ◌<◌, ◌≤◌, length, take, drop, None, OnErr, IfOk};
ghost use Rattle.std.specs.Io.KnownBytes.{Consumes, Keeps, IsAtEnd};

use super::retrying::read_some;
use super::{Failed, Source};
use std::io::{self, Read};
use std::marker::Model;
use std::rt::Clock;

/// The greatest number of bytes that one read of the input asks for.
const PIECE: usize = 8192;

/// Standard input as a source. It doesn't tell the bytes left, and each `Err` of the input is a fault, of which it keeps the
/// last for whoever tells a person. Contracts see it as its count of faults.
#[derive(Drop)]
pub struct InputSource<'a, C, R> {
    clock: &'a C,
    reader: R,
    faults: u64,
    last_fault: Option<io::Error>,
}

impl<'a, C, R> Model for InputSource<'a, C, R> {
    ghost use Rattle.std.specs.Prelude.{ℕ, ◌-◌, ◌^◌, ◌≤◌};

    ghost Value = { ℕ };

    ghost view = { λ s. s.faults };

    ghost invariant = { λ s. s.faults ≤ 2 ^ 64 - 1 };
}

impl<'a, C: Clock, R: Read> InputSource<'a, C, R> {
    /// A source of what the reader gives, with no fault so far. Where a read would have blocked it waits by the clock.
    pub fn new(clock: &'a C, reader: R) -> InputSource<'a, C, R>
        ensures { result ≡ 0 }
    {
        InputSource {
            clock,
            reader,
            faults: 0,
            last_fault: None,
        }
    }

    /// What the system said of the last read that failed, for a message to a person; `None` where none did.
    pub fn last_fault(&self) -> Option<io::Error> {
        self.last_fault
    }
}

impl<'a, C: Clock, R: Read> Source for InputSource<'a, C, R> {
    ghost left = { λ _. None };

    ghost faults = { λ s. s };

    fn read(&mut self, buf: &mut [u8]) -> Result<usize, Failed> {
        match read_piece(self.clock, &mut self.reader, buf) {
            Ok(count) => Ok(count),
            Err(cause) => {
                self.last_fault = Some(cause);
                self.faults = self.faults.saturating_add(1);
                Err(Failed)
            }
        }
    }
}

/// The next bytes of the reader. std's `read` says nothing of its buffer after the bytes that it gives, so
/// it gets one of its own.
fn read_piece<C: Clock, R: Read>(clock: &C, reader: &mut R, buf: &mut [u8]) -> io::Result<usize>
    requires { 0 < length buf.old }
    ensures bound { IfOk result (λ n. n ≤ length buf.new) }
    ensures bytes { IfOk result (λ n. Consumes (R.remaining reader.old) (R.remaining reader.new) (take n buf.new)) }
    ensures end { IfOk result (λ n. n ≡ 0 → IsAtEnd (R.remaining reader.new)) }
    ensures rest { IfOk result (λ n. drop n buf.new ≡ drop n buf.old) }
    ensures unchanged { OnErr result (Keeps (R.remaining reader.old) (R.remaining reader.new)) }
    ensures buffer { OnErr result (buf.new ≡ buf.old) }
{
    let mut piece = [0u8; PIECE];
    let wanted = PIECE.min(buf.len());
    let count = read_some(clock, reader, &mut piece[..wanted])?;
    buf[..count].copy_from_slice(&piece[..count]);
    Ok(count)
}
