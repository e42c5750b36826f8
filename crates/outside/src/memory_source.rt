ghost use Rattle.std.specs.Prelude.{◌≡◌, ◌↔◌, ◌-◌, ◌^◌, ◌<◌, ◌≤◌, [], length, take, drop, min, OnErr, IfOk, IsErr, Some};
ghost use Rattle.outside.specs.Counts.{one_more};
ghost use Rattle.outside.specs.States.{NextFails};

use super::schedule::Schedule;
use super::{Failed, Source};
use std::marker::Model;

/// A source in memory, which tells the bytes left and fails at the calls that it is given, and at no other.
#[derive(Drop)]
pub struct MemorySource {
    bytes: Vec<u8>,
    taken: usize,
    piece: usize,
    schedule: Schedule,
    faults: u64,
}

impl Model for MemorySource {
    ghost use Rattle.std.specs.Prelude.{◌<◌, ◌≤◌, drop, length};
    ghost use Rattle.outside.specs.States.{SourceState};

    ghost Value = { SourceState };

    ghost view = { λ s. record {
      left = drop s.taken s.bytes.items;
      piece = s.piece;
      failing = s.schedule.failing.items;
      calls = s.schedule.calls;
      faults = s.faults;
    } };

    ghost invariant = { λ s. (0 < s.piece) × (s.taken ≤ length s.bytes.items) };
}

impl MemorySource {
    /// A source of these bytes that gives at most `piece` of them a call, 1 at least. `failing` has the numbers of
    /// the calls that are to fail, counted from 1, and all after number 2^64 - 1 have that number too.
    pub fn new(bytes: Vec<u8>, piece: usize, failing: Vec<u64>) -> MemorySource
        requires { 0 < piece }
        ensures { result ≡ record {
          left = bytes.items;
          piece = piece;
          failing = failing.items;
          calls = 0;
          faults = 0;
        } }
    {
        MemorySource {
            bytes,
            taken: 0,
            piece,
            schedule: Schedule::new(failing),
            faults: 0,
        }
    }
}

impl Source for MemorySource {
    ghost left = { λ s. Some s.left };

    ghost faults = { λ s. s.faults };

    fn read(&mut self, buf: &mut [u8]) -> Result<usize, Failed>
        requires { 0 < length buf.old }
        ensures failing { IsErr result ↔ NextFails self.old.failing self.old.calls }
        ensures count { IfOk result (λ n. n ≡ min self.old.piece (min (length buf.old) (length self.old.left))) }
        ensures end { IfOk result (λ n. n ≡ 0 → self.old.left ≡ []) }
        ensures bytes { IfOk result (λ n. take n buf.new ≡ take n self.old.left) }

        // What the call leaves.
        ensures rest { IfOk result (λ n. drop n buf.new ≡ drop n buf.old) }
        ensures buffer { OnErr result (buf.new ≡ buf.old) }
        ensures ok { IfOk result (λ n. self.new ≡ record self.old {
          left = drop n self.old.left;
          calls = one_more self.old.calls;
        }) }
        ensures failed { OnErr result (self.new ≡ record self.old {
          calls = one_more self.old.calls;
          faults = one_more self.old.faults;
        }) }
        ensures never_falls { self.old.faults ≤ self.new.faults }
        ensures limit { self.new.faults ≤ 2 ^ 64 - 1 }
    {
        if self.schedule.next_fails() {
            self.faults = self.faults.saturating_add(1);
            return Err(Failed);
        }
        let left = &self.bytes[self.taken..];
        let count = self.piece.min(buf.len()).min(left.len());
        buf[..count].copy_from_slice(&left[..count]);
        self.taken += count;
        Ok(count)
    }
}
