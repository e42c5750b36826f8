ghost use Rattle.std.specs.Prelude.{◌≡◌, ℕ, ◌-◌, ◌^◌, ◌<◌, ◌≤◌, List, length, take, Option, OnOk, OnErr, IfOk};
ghost use Rattle.outside.specs.Answers.{OnFailedWrite, OnOtherWrite};
ghost use Rattle.outside.specs.Counts.{Rose};
ghost use Rattle.outside.specs.Told.{bytes_after, GrowsByPrefix};

use phoneme::Memory;
use std::alloc::AllocError;
use std::error::Error;
use std::fmt;

/// Why a write of a shelf or of a sink failed. A sink then took nothing; of the shelf's file nothing is said.
#[derive(Clone, Copy, Debug, PartialEq, Eq)]
pub enum WriteError {
    /// The device failed, and counted it.
    Failed,
    /// Want of memory.
    Memory,
}

impl fmt::Display for WriteError {
    fn fmt<W: fmt::Write>(&self, f: &mut fmt::Formatter<W>) -> fmt::Result {
        match self {
            WriteError::Failed => write!(f, "the output could not be written"),
            WriteError::Memory => write!(f, "{Memory}"),
        }
    }
}

impl Error for WriteError {}

impl From<AllocError> for WriteError {
    ghost use Rattle.outside.specs.declared.sink.WriteError.TheVariants as variant;

    ghost from_gives = { λ _ e. e ≡ variant.Memory };

    fn from(_refused: AllocError) -> WriteError {
        WriteError::Memory
    }
}

impl From<Memory> for WriteError {
    ghost use Rattle.outside.specs.declared.sink.WriteError.TheVariants as variant;

    ghost from_gives = { λ _ e. e ≡ variant.Memory };

    fn from(_refused: Memory) -> WriteError {
        WriteError::Memory
    }
}

/// Bytes that go out in order. Whether a sink tells the bytes written is fixed. Failed writes are counted; the
/// count never falls and rises only where a write fails. It stops at 2^64 - 1, and there counts as having risen.
pub trait Sink {
    /// The bytes written so far, where the sink tells them.
    ghost written: { Self → Option (List ℕ) };

    /// How many writes have failed.
    ghost faults: { Self → ℕ };

    /// Takes the first of the bytes, of which there is one at least, and answers how many, from 1 on. `Failed` only
    /// where the count of faults rose, `Memory` for a sink that grows in memory; an error takes nothing.
    fn write(&mut self, bytes: &[u8]) -> Result<usize, WriteError>
        requires { 0 < length bytes.now }
        ensures some { IfOk result (λ n. 0 < n) }
        ensures bound { IfOk result (λ n. n ≤ length bytes.now) }
        ensures ok { IfOk result (λ n. written self.new ≡ bytes_after (written self.old) (take n bytes.now)) }
        ensures fault { OnFailedWrite result (Rose (faults self.old) (faults self.new)) }

        // What stays.
        ensures unchanged { OnErr result (written self.new ≡ written self.old) }
        ensures faults { OnOtherWrite result (faults self.new ≡ faults self.old) }
        ensures never_falls { faults self.old ≤ faults self.new }
        ensures limit { faults self.new ≤ 2 ^ 64 - 1 };
}

/// Writes all the bytes, in as many calls as the sink takes; where there are no bytes, in no call. It stops at the sink's
/// first error, which it answers: the sink has then taken a prefix of them. `Failed` only where its count of faults
/// rose.
pub fn write_all<O: Sink>(out: &mut O, bytes: &[u8]) -> Result<(), WriteError>
    ensures ok { OnOk result (O.written out.new ≡ bytes_after (O.written out.old) bytes.now) }
    ensures prefix { OnErr result (GrowsByPrefix (O.written out.old) (O.written out.new) bytes.now) }
    ensures fault { OnFailedWrite result (Rose (O.faults out.old) (O.faults out.new)) }
    ensures faults { OnOtherWrite result (O.faults out.new ≡ O.faults out.old) }
    ensures never_falls { O.faults out.old ≤ O.faults out.new }
{
    let mut taken = 0;
    while taken < bytes.len() {
        taken += out.write(&bytes[taken..])?;
    }
    Ok(())
}
