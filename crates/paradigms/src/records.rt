ghost use Rattle.std.specs.Prelude.{◌≡◌, ◌∷◌, ◌<◌, ◌≤◌, ◌^◌, length, true, All, IfOk};
ghost use Rattle.csv.specs.Records.{fields_of};
ghost use Rattle.paradigm_file_definitions.specs.Records.{records_of};
ghost use Rattle.paradigms.specs.RecordsLeft.{IsReading, IsNextOf, records_left};

use csv::{ByteRecord, Reader, ReaderBuilder};
use lexicon_text_definitions::MOST_FILE_BYTES;
use phoneme::Memory;
use std::alloc::Global;

/// A reader of the records of these bytes. No record is a header, and records may differ in their number of fields.
pub(crate) fn records_in(alloc: Global, bytes: &[u8]) -> Reader<&[u8]>
    requires { length bytes.now ≤ MOST_FILE_BYTES }
    ensures reading { IsReading result }
    ensures all { records_left result ≡ records_of bytes.now }
{
    ReaderBuilder::new()
        .has_headers(false)
        .flexible(true)
        .from_reader(alloc, bytes)
}

/// Reads the next record, and tells whether there was one. Bytes in memory that are read as flexible byte records have no
/// refusal of the reader's own, so each error of it is want of memory.
pub(crate) fn next_record(
    reader: &mut Reader<&[u8]>,
    csv_record: &mut ByteRecord,
) -> Result<bool, Memory>
    requires { IsReading reader.old }
    ensures reading { IfOk result (λ found. found ≡ true → IsReading reader.new) }
    ensures next { IfOk result (λ found. IsNextOf (records_left reader.old) found (fields_of csv_record.new) (records_left reader.new)) }
    ensures fits { IfOk result (λ found. found ≡ true → All (λ field. length field < 2 ^ 32) (fields_of csv_record.new)) }
    ensures falls { IfOk result (λ found. found ≡ true → length (records_left reader.new) < length (records_left reader.old)) }
{
    let Ok(found) = reader.read_byte_record(csv_record) else {
        return Err(Memory);
    };
    Ok(found)
}
