ghost use Rattle.std.specs.Prelude.{◌≡◌, ℕ, ◌-◌, ◌^◌, ◌≤◌, Option, OnOk, OnErr, IfOk, vec_len};
ghost use Rattle.outside.specs.Answers.{OnMissing, OnFailedRead, OnOtherRead, OnFailedWrite, OnOtherWrite};
ghost use Rattle.outside.specs.Counts.{Rose};
ghost use Rattle.outside.specs.Files.{Files, AreFirstBytes, Lacks, told_with, told_without};

use super::WriteError;
use phoneme::Memory;
use std::alloc::{AllocError, Global};
use std::error::Error;
use std::fmt;

/// Why a read of a shelf gave no bytes.
#[derive(Clone, Copy, Debug, PartialEq, Eq)]
pub enum ShelfError {
    /// The shelf tells its files, and has no file of this name.
    Missing,
    /// The device failed, and counted it.
    Failed,
    /// Want of memory.
    Memory,
}

impl fmt::Display for ShelfError {
    fn fmt<W: fmt::Write>(&self, f: &mut fmt::Formatter<W>) -> fmt::Result {
        match self {
            ShelfError::Missing => write!(f, "no such file"),
            ShelfError::Failed => write!(f, "the file could not be read"),
            ShelfError::Memory => write!(f, "{Memory}"),
        }
    }
}

impl Error for ShelfError {}

impl From<AllocError> for ShelfError {
    ghost use Rattle.outside.specs.declared.shelf.ShelfError.TheVariants as variant;

    ghost from_gives = { λ _ e. e ≡ variant.Memory };

    fn from(_refused: AllocError) -> ShelfError {
        ShelfError::Memory
    }
}

/// Files by name. Whether a shelf tells its files is fixed. Failed reads and failed writes are counted apart; a
/// count never falls and rises only where a call fails. It stops at 2^64 - 1, and there counts as having risen.
pub trait Shelf {
    /// The files, where the shelf tells them.
    ghost files: { Self → Option Files };

    /// How many reads have failed.
    ghost failed_reads: { Self → ℕ };

    /// How many writes have failed.
    ghost failed_writes: { Self → ℕ };

    /// The first `most` bytes of the file, all of them where they are fewer. `Missing` only where the shelf tells
    /// its files and has no file of this name, `Failed` only where the count of failed reads rose, `Memory` for want
    /// of memory. The files stay.
    fn read(&mut self, alloc: Global, name: &str, most: usize) -> Result<Vec<u8>, ShelfError>
        ensures value { IfOk result (λ bytes. AreFirstBytes (files self.old) name.now most bytes.items) }
        ensures most { IfOk result (λ bytes. vec_len bytes ≤ most) }
        ensures missing { OnMissing result (Lacks (files self.old) name.now) }
        ensures fault { OnFailedRead result (Rose (failed_reads self.old) (failed_reads self.new)) }

        // What stays.
        ensures files { files self.new ≡ files self.old }
        ensures reads { OnOtherRead result (failed_reads self.new ≡ failed_reads self.old) }
        ensures never_falls { failed_reads self.old ≤ failed_reads self.new }
        ensures limit { failed_reads self.new ≤ 2 ^ 64 - 1 }
        ensures writes { failed_writes self.new ≡ failed_writes self.old };

    /// Puts the bytes under the name, in place of what was there. After an error nothing is said of this name, and
    /// all other files stay. `Failed` only where the count of failed writes rose, `Memory` for a shelf that grows
    /// in memory.
    fn write(&mut self, name: &str, bytes: &[u8]) -> Result<(), WriteError>
        ensures ok { OnOk result (files self.new ≡ told_with (files self.old) name.now bytes.now) }
        ensures others { OnErr result
            (told_without (files self.new) name.now ≡ told_without (files self.old) name.now) }
        ensures fault { OnFailedWrite result (Rose (failed_writes self.old) (failed_writes self.new)) }

        // What stays.
        ensures writes { OnOtherWrite result (failed_writes self.new ≡ failed_writes self.old) }
        ensures never_falls { failed_writes self.old ≤ failed_writes self.new }
        ensures limit { failed_writes self.new ≤ 2 ^ 64 - 1 }
        ensures reads { failed_reads self.new ≡ failed_reads self.old };
}
