ghost use Rattle.std.specs.Prelude.{◌≡◌, ◌↔◌, ◌-◌, ◌^◌, ◌≤◌, vec_len, OnOk, OnErr, IfOk, IsErrOf, Some, None};
ghost use Rattle.outside.specs.Answers.{OnMissing, OnFailedRead, OnOtherRead, OnFailedWrite};
ghost use Rattle.std.specs.Option.{option_copied};
ghost use Rattle.outside.specs.Counts.{one_more};
ghost use Rattle.outside.specs.Files.{no_files, contents_of, with_file, first_bytes};
ghost use Rattle.outside.specs.States.{NextFails};

use super::schedule::Schedule;
use super::{Shelf, ShelfError, WriteError};
use phoneme::Memory;
use std::alloc::Global;
use std::collections::BTreeMap;
use std::marker::Model;

/// A shelf in memory, which tells its files and fails at the calls that it is given, and at no other. A failed write
/// changes no file.
#[derive(Drop)]
pub struct MemoryShelf {
    alloc: Global,
    files: BTreeMap<String, Vec<u8>>,
    schedule: Schedule,
    failed_reads: u64,
    failed_writes: u64,
}

impl Model for MemoryShelf {
    ghost use Rattle.outside.specs.States.{ShelfState, shelf_code};

    ghost Value = { ShelfState };

    ghost coded = { shelf_code };

    ghost use Rattle.outside.specs.Entries.{files_of};

    ghost view = { λ s. record {
      files = files_of s.files.entries;
      failing = s.schedule.failing.items;
      calls = s.schedule.calls;
      failed_reads = s.failed_reads;
      failed_writes = s.failed_writes;
    } };

    ghost use Rattle.std.specs.Prelude.{◌-◌, ◌^◌, ◌≤◌};

    ghost invariant = { λ s. (s.failed_reads ≤ 2 ^ 64 - 1) × (s.failed_writes ≤ 2 ^ 64 - 1) };
}

impl MemoryShelf {
    /// A shelf without files. `failing` has the numbers of the calls that are to fail: reads and writes together,
    /// counted from 1, and all after number 2^64 - 1 have that number too.
    pub fn new(alloc: Global, failing: Vec<u64>) -> MemoryShelf
        ensures { result ≡ record {
          files = no_files;
          failing = failing.items;
          calls = 0;
          failed_reads = 0;
          failed_writes = 0;
        } }
    {
        MemoryShelf {
            alloc,
            files: BTreeMap::new(alloc),
            schedule: Schedule::new(failing),
            failed_reads: 0,
            failed_writes: 0,
        }
    }

    /// Puts the bytes under the name, in place of what was there. No call of the device. It refuses for want of
    /// memory alone, and then changes nothing.
    pub fn put(&mut self, name: &str, bytes: &[u8]) -> Result<(), Memory>
        ensures ok { OnOk result (self.new ≡ record self.old {
          files = with_file self.old.files name.now bytes.now;
        }) }
        ensures unchanged { OnErr result (self.new ≡ self.old) }
    {
        let key = String::from_str(self.alloc, name)?;
        let value = Vec::from_slice(self.alloc, bytes)?;
        self.files.insert(key, value)?;
        Ok(())
    }

    /// The bytes under the name, or `None` where it is not there. No call of the device.
    pub fn get(&self, name: &str) -> Option<&[u8]>
        ensures { option_copied result ≡ contents_of self.now.files name.now }
    {
        let bytes = self.files.get(name)?;
        Some(bytes.as_slice())
    }
}

impl Shelf for MemoryShelf {
    ghost files = { λ s. Some s.files };

    ghost failed_reads = { λ s. s.failed_reads };

    ghost failed_writes = { λ s. s.failed_writes };

    fn read(&mut self, alloc: Global, name: &str, most: usize) -> Result<Vec<u8>, ShelfError>
        ensures value { IfOk result (λ bytes. first_bytes self.old.files name.now most ≡ Some bytes.items) }
        ensures most { IfOk result (λ bytes. vec_len bytes ≤ most) }
        ensures missing { OnMissing result (contents_of self.old.files name.now ≡ None) }
        ensures failing { IsErrOf result ShelfError.Failed ↔ NextFails self.old.failing self.old.calls }

        // What the call leaves.
        ensures failed { OnFailedRead result (self.new ≡ record self.old {
          calls = one_more self.old.calls;
          failed_reads = one_more self.old.failed_reads;
        }) }
        ensures other { OnOtherRead result (self.new ≡ record self.old { calls = one_more self.old.calls }) }
        ensures never_falls { self.old.failed_reads ≤ self.new.failed_reads }
        ensures limit { self.new.failed_reads ≤ 2 ^ 64 - 1 }
    {
        if self.schedule.next_fails() {
            self.failed_reads = self.failed_reads.saturating_add(1);
            return Err(ShelfError::Failed);
        }
        let Some(bytes) = self.get(name) else {
            return Err(ShelfError::Missing);
        };
        let count = most.min(bytes.len());
        Ok(Vec::from_slice(alloc, &bytes[..count])?)
    }

    fn write(&mut self, name: &str, bytes: &[u8]) -> Result<(), WriteError>
        ensures failing { IsErrOf result WriteError.Failed ↔ NextFails self.old.failing self.old.calls }

        // What the call leaves.
        ensures ok { OnOk result (self.new ≡ record self.old {
          files = with_file self.old.files name.now bytes.now;
          calls = one_more self.old.calls;
        }) }
        ensures failed { OnFailedWrite result (self.new ≡ record self.old {
          calls = one_more self.old.calls;
          failed_writes = one_more self.old.failed_writes;
        }) }
        ensures memory { IsErrOf result WriteError.Memory → self.new ≡ record self.old {
          calls = one_more self.old.calls;
        } }
        ensures never_falls { self.old.failed_writes ≤ self.new.failed_writes }
        ensures limit { self.new.failed_writes ≤ 2 ^ 64 - 1 }
    {
        if self.schedule.next_fails() {
            self.failed_writes = self.failed_writes.saturating_add(1);
            return Err(WriteError::Failed);
        }
        self.put(name, bytes)?;
        Ok(())
    }
}
