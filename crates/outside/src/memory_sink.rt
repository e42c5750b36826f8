ghost use Rattle.std.specs.Prelude.{◌≡◌, ◌↔◌, ◌-◌, ◌^◌, ◌<◌, ◌≤◌, [], ◌++◌, length, take, min, IfOk, IsErrOf, Some};
ghost use Rattle.outside.specs.Answers.{OnFailedWrite};
ghost use Rattle.outside.specs.Counts.{one_more};
ghost use Rattle.outside.specs.States.{NextFails};

use super::schedule::Schedule;
use super::{Sink, WriteError};
use std::alloc::Global;
use std::marker::Model;

/// A sink in memory, which tells the bytes written and fails at the calls that it is given, and at no other but for
/// want of memory.
#[derive(Drop)]
pub struct MemorySink {
    written: Vec<u8>,
    piece: usize,
    schedule: Schedule,
    faults: u64,
}

impl Model for MemorySink {
    ghost use Rattle.std.specs.Prelude.{◌<◌};
    ghost use Rattle.outside.specs.States.{SinkState};

    ghost Value = { SinkState };

    ghost view = { λ s. record {
      written = s.written.items;
      piece = s.piece;
      failing = s.schedule.failing.items;
      calls = s.schedule.calls;
      faults = s.faults;
    } };

    ghost invariant = { λ s. 0 < s.piece };
}

impl MemorySink {
    /// An empty sink that takes at most `piece` bytes a call, 1 at least. `failing` has the numbers of the calls that
    /// are to fail, counted from 1, and all after number 2^64 - 1 have that number too.
    pub fn new(alloc: Global, piece: usize, failing: Vec<u64>) -> MemorySink
        requires { 0 < piece }
        ensures { result ≡ record {
          written = [];
          piece = piece;
          failing = failing.items;
          calls = 0;
          faults = 0;
        } }
    {
        MemorySink {
            written: Vec::new(alloc),
            piece,
            schedule: Schedule::new(failing),
            faults: 0,
        }
    }

    /// The bytes written. No call of the device.
    pub fn bytes(&self) -> &[u8]
        ensures { result.now ≡ self.now.written }
    {
        self.written.as_slice()
    }
}

impl Sink for MemorySink {
    ghost written = { λ s. Some s.written };

    ghost faults = { λ s. s.faults };

    fn write(&mut self, bytes: &[u8]) -> Result<usize, WriteError>
        requires { 0 < length bytes.now }
        ensures failing { IsErrOf result WriteError.Failed ↔ NextFails self.old.failing self.old.calls }
        ensures count { IfOk result (λ n. n ≡ min self.old.piece (length bytes.now)) }
        ensures some { IfOk result (λ n. 0 < n) }

        // What the call leaves.
        ensures ok { IfOk result (λ n. self.new ≡ record self.old {
          written = self.old.written ++ take n bytes.now;
          calls = one_more self.old.calls;
        }) }
        ensures failed { OnFailedWrite result (self.new ≡ record self.old {
          calls = one_more self.old.calls;
          faults = one_more self.old.faults;
        }) }
        ensures memory { IsErrOf result WriteError.Memory → self.new ≡ record self.old {
          calls = one_more self.old.calls;
        } }
        ensures never_falls { self.old.faults ≤ self.new.faults }
        ensures limit { self.new.faults ≤ 2 ^ 64 - 1 }
    {
        if self.schedule.next_fails() {
            self.faults = self.faults.saturating_add(1);
            return Err(WriteError::Failed);
        }
        let count = self.piece.min(bytes.len());
        self.written.extend_from_slice(&bytes[..count])?;
        Ok(count)
    }
}
