ghost use Rattle.std.specs.Prelude.{◌≡◌, ◌≤◌, [], length, map, All, Ok, OnOk, IfOk, IfErr};
ghost use Rattle.std.specs.String.{string_bytes};
ghost use Rattle.lexicon_definitions.specs.declared.limits.TheConstants.{MOST_PHASES};
ghost use Rattle.morphology_definitions.specs.Inflection.{IsInflectableStem};
ghost use Rattle.paradigm_file_definitions.specs.Records.{read_records};
ghost use Rattle.paradigm_file_definitions.specs.StemFiles.{stems_of, take_stem};
ghost use Rattle.paradigm_file_definitions.specs.TableFiles.{tables_of, take_table};
ghost use Rattle.paradigms.specs.Answers.{IsStemFault, IsTableFault, stem_error_of, table_error_of};
ghost use Rattle.paradigms.specs.RecordsLeft.{IsReading, records_left};

use crate::record_error::RecordError;
use crate::records::{next_record, records_in};
use crate::{StemError, StemFault, StemWhy, Stems, TableError, TableFault, TableWhy, Tables};
use csv::{ByteRecord, Reader};
use lexicon_text_definitions::MOST_FILE_BYTES;
use std::alloc::Global;

/// The error of the record with this number.
fn table_error(number: u32, error: RecordError<TableWhy>) -> TableError
    ensures { result ≡ table_error_of number error }
{
    match error {
        RecordError::Why(why) => TableError::Fault(TableFault { number, why }),
        RecordError::Memory => TableError::Memory,
    }
}

/// The error of the record with this number.
fn stem_error(number: u32, error: RecordError<StemWhy>) -> StemError
    ensures { result ≡ stem_error_of number error }
{
    match error {
        RecordError::Why(why) => StemError::Fault(StemFault { number, why }),
        RecordError::Memory => StemError::Memory,
    }
}

/// Takes the records that are left as those of a table file over these names of phases. After a refusal the tables are of no
/// more use.
fn take_tables(
    alloc: Global,
    phases: &[String],
    reader: &mut Reader<&[u8]>,
    csv_record: &mut ByteRecord,
    tables: &mut Tables,
) -> Result<(), TableError>
    requires phases { length phases.now ≤ MOST_PHASES }
    requires reading { IsReading reader.old }
    requires empty { tables.old ≡ [] }
    ensures ok { OnOk result (read_records (take_table (map string_bytes phases.now)) 1 [] (records_left reader.old) ≡ Ok tables.new) }
    ensures fault { IfErr result (IsTableFault (read_records (take_table (map string_bytes phases.now)) 1 [] (records_left reader.old))) }
{
    let mut number = 1;
    while next_record(reader, csv_record)? {
        if let Err(error) = tables.take(alloc, phases, number, csv_record) {
            return Err(table_error(number, error));
        }
        number += 1;
    }
    Ok(())
}

/// Takes the records of a table file over these names of phases. After a refusal the tables are of no more use.
fn take_table_file(
    alloc: Global,
    phases: &[String],
    bytes: &[u8],
    tables: &mut Tables,
) -> Result<(), TableError>
    requires bytes { length bytes.now ≤ MOST_FILE_BYTES }
    requires phases { length phases.now ≤ MOST_PHASES }
    requires empty { tables.old ≡ [] }
    ensures ok { OnOk result (tables_of (map string_bytes phases.now) bytes.now ≡ Ok tables.new) }
    ensures fault { IfErr result (IsTableFault (tables_of (map string_bytes phases.now) bytes.now)) }
{
    let mut reader = records_in(alloc, bytes);
    let mut csv_record = ByteRecord::new(alloc);
    take_tables(alloc, phases, &mut reader, &mut csv_record, tables)
}

/// The tables of a table file over these names of phases, or the file's first fault (own format, CSV by RFC 4180).
pub fn read_tables(alloc: Global, phases: &[String], bytes: &[u8]) -> Result<Tables, TableError>
    requires bytes { length bytes.now ≤ MOST_FILE_BYTES }
    requires phases { length phases.now ≤ MOST_PHASES }
    ensures ok { IfOk result (λ tables. tables_of (map string_bytes phases.now) bytes.now ≡ Ok tables) }
    ensures fault { IfErr result (IsTableFault (tables_of (map string_bytes phases.now) bytes.now)) }
{
    let mut tables = Tables::new(alloc);
    take_table_file(alloc, phases, bytes, &mut tables)?;
    Ok(tables)
}

/// Takes the records that are left as those of a stem file over these tables. After a refusal the stems are of no more use.
fn take_stems(
    alloc: Global,
    tables: &Tables,
    reader: &mut Reader<&[u8]>,
    csv_record: &mut ByteRecord,
    stems: &mut Stems,
) -> Result<(), StemError>
    requires reading { IsReading reader.old }
    requires empty { stems.old ≡ [] }
    ensures ok { OnOk result (read_records (take_stem tables.now) 1 [] (records_left reader.old) ≡ Ok stems.new) }
    ensures fault { IfErr result (IsStemFault (read_records (take_stem tables.now) 1 [] (records_left reader.old))) }
{
    let mut number = 1;
    let mut forms = 0;
    while next_record(reader, csv_record)? {
        forms = match stems.take(alloc, tables, number, forms, csv_record) {
            Ok(forms) => forms,
            Err(error) => return Err(stem_error(number, error)),
        };
        number += 1;
    }
    Ok(())
}

/// Takes the records of a stem file over these tables. After a refusal the stems are of no more use.
fn take_stem_file(
    alloc: Global,
    tables: &Tables,
    bytes: &[u8],
    stems: &mut Stems,
) -> Result<(), StemError>
    requires bytes { length bytes.now ≤ MOST_FILE_BYTES }
    requires empty { stems.old ≡ [] }
    ensures ok { OnOk result (stems_of tables.now bytes.now ≡ Ok stems.new) }
    ensures fault { IfErr result (IsStemFault (stems_of tables.now bytes.now)) }
{
    let mut reader = records_in(alloc, bytes);
    let mut csv_record = ByteRecord::new(alloc);
    take_stems(alloc, tables, &mut reader, &mut csv_record, stems)
}

/// The stems of a stem file over these tables, or the file's first fault (own format, CSV by RFC 4180). Each stem that is read
/// has a class of the tables, and a form for each row of it.
pub fn read_stems(alloc: Global, tables: &Tables, bytes: &[u8]) -> Result<Stems, StemError>
    requires { length bytes.now ≤ MOST_FILE_BYTES }
    ensures ok { IfOk result (λ stems. stems_of tables.now bytes.now ≡ Ok stems) }
    ensures inflectable { IfOk result (λ stems. All (IsInflectableStem tables.now) stems) }
    ensures fault { IfErr result (IsStemFault (stems_of tables.now bytes.now)) }
{
    let mut stems = Stems::new(alloc);
    take_stem_file(alloc, tables, bytes, &mut stems)?;
    Ok(stems)
}
