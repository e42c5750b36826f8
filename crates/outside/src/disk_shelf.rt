ghost use Rattle.std.specs.Prelude.{◌≡◌, ◌<◌, ◌≤◌, vec_len, None, IfOk};
ghost use Rattle.std.specs.Io.KnownBytes.{Consumes, IsAtEnd};

use super::refused::Refused;
use super::replacing::write_file;
use super::retrying::read_some;
use super::{Shelf, ShelfError, WriteError};
use std::alloc::{AllocGlobal, Global};
use std::fs;
use std::io::{self, Read};
use std::marker::Model;
use std::random::RandomSource;
use std::rt::{Clock, Files};

/// The greatest number of bytes that one read of a file asks for.
const PIECE: usize = 8192;

/// What a person may be told of a call that failed on a file of the machine. No clause speaks of it.
#[derive(Drop)]
pub struct DiskFault {
    /// The name of the file, where memory was found to keep it.
    pub name: Option<String>,
    /// What the system said.
    pub cause: io::Error,
    /// Whether this was said of a new file in the same folder, which was to take the place of the file.
    pub is_of_new_file: bool,
}

/// The files of the machine as a shelf, by their paths. It doesn't tell them, so it never answers `Missing`: a file
/// that is not there is a failed read, as each `Err` of the machine is. A write that is refused leaves a regular file as it was.
/// It keeps its last fault for whoever tells a person. Contracts see it as its counts of faults.
#[derive(Drop)]
pub struct DiskShelf<'a, R> {
    rt: &'a R,
    failed_reads: u64,
    failed_writes: u64,
    last_fault: Option<DiskFault>,
}

impl<'a, R> Model for DiskShelf<'a, R> {
    ghost use Rattle.std.specs.Prelude.{◌-◌, ◌^◌, ◌≤◌};
    ghost use Rattle.outside.specs.Adapters.{FaultCounts};

    ghost Value = { FaultCounts };

    ghost view = { λ s. record { failed_reads = s.failed_reads; failed_writes = s.failed_writes } };

    ghost invariant = { λ s. (s.failed_reads ≤ 2 ^ 64 - 1) × (s.failed_writes ≤ 2 ^ 64 - 1) };
}

impl<'a, R: Files> DiskShelf<'a, R> {
    /// The files that the runtime reaches, with no failed read or write so far.
    pub fn new(rt: &'a R) -> DiskShelf<'a, R>
        ensures { result ≡ record { failed_reads = 0; failed_writes = 0 } }
    {
        DiskShelf {
            rt,
            failed_reads: 0,
            failed_writes: 0,
            last_fault: None,
        }
    }

    /// The last call that failed, for a message to a person; `None` where none did.
    pub fn last_fault(&self) -> Option<&DiskFault> {
        self.last_fault.as_ref()
    }
}

impl<'a, R: AllocGlobal> DiskShelf<'a, R> {
    /// Keeps what is told of a call that failed.
    fn keep_fault(&mut self, name: &str, cause: io::Error, is_of_new_file: bool)
        ensures { self.new ≡ self.old }
    {
        self.last_fault = Some(DiskFault {
            name: String::from_str(self.rt.alloc(), name).ok(),
            cause,
            is_of_new_file,
        });
    }
}

impl<'a, R: Files + AllocGlobal + RandomSource + Clock> Shelf for DiskShelf<'a, R> {
    ghost files = { λ _. None };

    ghost failed_reads = { λ s. s.failed_reads };

    ghost failed_writes = { λ s. s.failed_writes };

    fn read(&mut self, alloc: Global, name: &str, most: usize) -> Result<Vec<u8>, ShelfError> {
        match read_file(self.rt, alloc, name, most) {
            Ok(bytes) => Ok(bytes),
            Err(Refused::Memory) => Err(ShelfError::Memory),
            Err(Refused::Failed(cause) | Refused::NoNewFile(cause)) => {
                self.keep_fault(name, cause, false);
                self.failed_reads = self.failed_reads.saturating_add(1);
                Err(ShelfError::Failed)
            }
        }
    }

    fn write(&mut self, name: &str, bytes: &[u8]) -> Result<(), WriteError> {
        let (cause, is_of_new_file) = match write_file(self.rt, name, bytes) {
            Ok(()) => return Ok(()),
            Err(Refused::Memory) => return Err(WriteError::Memory),
            Err(Refused::Failed(cause)) => (cause, false),
            Err(Refused::NoNewFile(cause)) => (cause, true),
        };
        self.keep_fault(name, cause, is_of_new_file);
        self.failed_writes = self.failed_writes.saturating_add(1);
        Err(WriteError::Failed)
    }
}

/// The first `most` bytes of the file, all that it has where they are fewer.
fn read_file<R: Files + Clock>(
    rt: &R,
    alloc: Global,
    name: &str,
    most: usize,
) -> Result<Vec<u8>, Refused>
    ensures most { IfOk result (λ bytes. vec_len bytes ≤ most) }
{
    let mut file = fs::open(rt, name)?;
    read_pieces(rt, &mut file, alloc, most)
}

/// The next `most` bytes of the reader, all that are left where they are fewer.
fn read_pieces<C: Clock, F: Read>(
    clock: &C,
    file: &mut F,
    alloc: Global,
    most: usize,
) -> Result<Vec<u8>, Refused>
    ensures most { IfOk result (λ bytes. vec_len bytes ≤ most) }
    ensures bytes { IfOk result (λ bytes. Consumes (F.remaining file.old) (F.remaining file.new) bytes.items) }
    ensures end { IfOk result (λ bytes. vec_len bytes < most → IsAtEnd (F.remaining file.new)) }
{
    let mut bytes = Vec::new(alloc);
    let mut piece = [0u8; PIECE];
    while bytes.len() < most {
        let wanted = PIECE.min(most - bytes.len());
        let count = read_some(clock, file, &mut piece[..wanted])?;
        if count == 0 {
            return Ok(bytes);
        }
        bytes.extend_from_slice(&piece[..count])?;
    }
    Ok(bytes)
}
