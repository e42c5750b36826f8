ghost use Rattle.std.specs.Prelude.{◌≡◌, ◌+◌, IfOk, IfErr, OnOk};
ghost use Rattle.outside.specs.Counts.{Rose};
ghost use Rattle.outside.specs.Files.{AreFirstBytes, Lacks};
ghost use Rattle.lexicon_text_definitions.specs.declared.limits.TheConstants.{MOST_FILE_BYTES};
ghost use Rattle.commands.specs.Ends.{IsUnread};

use super::status::Status;
use command_words::PlacedWord;
use lexicon_text_definitions::MOST_FILE_BYTES;
use outside::{Shelf, ShelfError};
use std::alloc::Global;

/// The bytes of the file that this word names, or how the run ends where it was not read. One byte more is read than a file
/// may have, so that a longer one is told from one that ends there.
pub(crate) fn read_file<H: Shelf>(
    alloc: Global,
    word: &PlacedWord<'_>,
    shelf: &mut H,
) -> Result<Vec<u8>, Status>
    ensures ok { IfOk result (λ bytes. AreFirstBytes (H.files shelf.old) word.now.name.now (MOST_FILE_BYTES + 1) bytes.items) }
    ensures unread { IfErr result (λ status. IsUnread status (Rose (H.failed_reads shelf.old) (H.failed_reads shelf.new)) (Lacks (H.files shelf.old) word.now.name.now)) }
    ensures files { H.files shelf.new ≡ H.files shelf.old }
    ensures reads { OnOk result (H.failed_reads shelf.new ≡ H.failed_reads shelf.old) }
    ensures writes { H.failed_writes shelf.new ≡ H.failed_writes shelf.old }
{
    match shelf.read(alloc, word.name, MOST_FILE_BYTES + 1) {
        Ok(bytes) => Ok(bytes),
        Err(ShelfError::Missing | ShelfError::Failed) => Err(Status::ReadFault),
        Err(ShelfError::Memory) => Err(Status::Memory),
    }
}
