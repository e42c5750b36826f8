ghost use Rattle.std.specs.Prelude.{◌≡◌, ◌<◌, ◌≤◌, ◌+◌, ◌++◌, ◌∷◌, [], length, map, false, None, Some, IfSome, IfOk, OnOk, All, ◌^◌};
ghost use Rattle.std.specs.List.{position};
ghost use Rattle.csv.specs.Records.{fields_of};
ghost use Rattle.std.specs.String.{string_bytes};
ghost use Rattle.lexicon_definitions.specs.declared.limits.TheConstants.{MOST_PHASES};
ghost use Rattle.morphology_definitions.specs.Inflection.{rows_of};
ghost use Rattle.paradigm_file_definitions.specs.TableFiles.{has_name, passes_row_limits as passes_row_limits_of, take_row as take_row_of, take_table as take_table_of};
ghost use Rattle.paradigms.specs.Rows.{text_row};
ghost use Rattle.paradigms.specs.Answers.{IsAnswer, table_why};

use crate::fields::{is_class_name, table_fields};
use crate::record_error::RecordError;
use crate::row_fields::read_row;
use crate::{Row, TableWhy};
use csv::ByteRecord;
use indexmap::IndexSet;
use paradigm_file_definitions::{MOST_AFFIX_LETTERS, MOST_TABLE_RECORDS};
use phoneme::Memory;
use std::alloc::Global;
use std::marker::Model;

/// The rows of a table file, by class. Classes are numbered from 0, as they first appear in the file.
#[derive(Drop)]
pub struct Tables {
    names: IndexSet<Vec<u8>>,
    rows: Vec<IndexSet<Row>>,
}

/// Whether the record with this number is one too many, or the row's prefix or its ending is too long.
fn passes_row_limits(number: u32, row: &Row) -> bool
    ensures { result ≡ passes_row_limits_of number (text_row row.now) }
{
    row.prefix.len() > MOST_AFFIX_LETTERS
        || row.ending.len() > MOST_AFFIX_LETTERS
        || number as usize > MOST_TABLE_RECORDS
}

/// The set of one row.
fn one_row(alloc: Global, row: Row) -> Result<IndexSet<Row>, Memory>
    ensures { IfOk result (λ rows. rows.keys ≡ row ∷ []) }
{
    let mut rows = IndexSet::new(alloc);
    rows.insert(row)?;
    Ok(rows)
}

impl Model for Tables {
    ghost use Rattle.std.specs.Prelude.{List, map};
    ghost use Rattle.morphology_definitions.specs.Inflection.{Class};
    ghost use Rattle.paradigms.specs.Rows.{classes_of, text_row};
    ghost use Rattle.paradigms.specs.Kept.{AreKept};

    ghost Value = { List Class };

    ghost view = { λ t. classes_of (map (λ name. name.items) t.names.keys) (map (λ rows. map text_row rows.keys) t.rows.items) };

    ghost invariant = { λ t. AreKept (map (λ name. name.items) t.names.keys) (map (λ rows. map text_row rows.keys) t.rows.items) };
}

impl Tables {
    pub(crate) fn new(alloc: Global) -> Tables
        ensures { result ≡ [] }
    {
        Tables {
            names: IndexSet::new(alloc),
            rows: Vec::new(alloc),
        }
    }

    /// The rows of a class, in the order of the file. Takes no memory.
    pub fn rows(&self, class: u32) -> &[Row]
        requires { class < length self.now }
        ensures { map text_row result.now ≡ rows_of self.now class }
    {
        self.rows[class as usize].as_slice()
    }

    /// The number of the class with this name.
    pub(crate) fn class_named(&self, name: &[u8]) -> Option<u32>
        ensures named { result ≡ position (has_name name.now) self.now }
        ensures within { IfSome result (λ class. class < length self.now) }
    {
        match self.names.get_index_of(name) {
            Some(class) => Some(class as u32),
            None => None,
        }
    }

    /// Appends a row to a class, where the class has no such row. A refusal leaves the rows as they were.
    fn add_to_class(
        &mut self,
        number: u32,
        name: &[u8],
        class: usize,
        row: Row,
    ) -> Result<(), RecordError<TableWhy>>
        requires class { position (has_name name.now) self.old ≡ Some class }
        requires limits { passes_row_limits_of number (text_row row) ≡ false }
        ensures answer { IsAnswer table_why (take_row_of number self.old name.now (text_row row)) result self.new }
        ensures grows { OnOk result (length self.new ≡ length self.old) }
    {
        if !self.rows[class].insert(row)? {
            return Err(RecordError::Why(TableWhy::Twice));
        }
        Ok(())
    }

    /// Appends a class with one row. A refusal leaves the rows as they were.
    fn add_class(
        &mut self,
        alloc: Global,
        number: u32,
        name: &[u8],
        row: Row,
    ) -> Result<(), RecordError<TableWhy>>
        requires class { position (has_name name.now) self.old ≡ None }
        requires limits { passes_row_limits_of number (text_row row) ≡ false }
        requires before { length self.old < number }
        ensures answer { IsAnswer table_why (take_row_of number self.old name.now (text_row row)) result self.new }
        ensures grows { OnOk result (length self.new ≡ length self.old + 1) }
    {
        let name = Vec::from_slice(alloc, name)?;
        // Room is taken first, so that the rows are appended wherever their name was put in.
        self.rows.reserve(1)?;
        let rows = one_row(alloc, row)?;
        self.names.insert(name)?;
        self.rows.push(rows)?;
        Ok(())
    }

    fn take_row(
        &mut self,
        alloc: Global,
        number: u32,
        name: &[u8],
        row: Row,
    ) -> Result<(), RecordError<TableWhy>>
        requires { length self.old < number }
        ensures answer { IsAnswer table_why (take_row_of number self.old name.now (text_row row)) result self.new }
        ensures grows { OnOk result (length self.new ≤ length self.old + 1) }
        ensures within { OnOk result (number ≤ MOST_TABLE_RECORDS) }
    {
        if passes_row_limits(number, &row) {
            return Err(RecordError::Why(TableWhy::Limit));
        }
        match self.class_named(name) {
            Some(class) => self.add_to_class(number, name, class as usize, row),
            None => self.add_class(alloc, number, name, row),
        }
    }

    /// Takes the next record, whose number counts from 1.
    pub(crate) fn take(
        &mut self,
        alloc: Global,
        phases: &[String],
        number: u32,
        csv_record: &ByteRecord,
    ) -> Result<(), RecordError<TableWhy>>
        requires few { length phases.now ≤ MOST_PHASES }
        requires number { length self.old < number }
        requires fits { All (λ field. length field < 2 ^ 32) (fields_of csv_record.now) }
        ensures answer { IsAnswer table_why (take_table_of (map string_bytes phases.now) number self.old (fields_of csv_record.now)) result self.new }
        ensures grows { OnOk result (length self.new ≤ length self.old + 1) }
        ensures within { OnOk result (number ≤ MOST_TABLE_RECORDS) }
    {
        let Some(fields) = table_fields(csv_record) else {
            return Err(RecordError::Why(TableWhy::Fields));
        };
        if !is_class_name(fields.class) {
            return Err(RecordError::Why(TableWhy::Fields));
        }
        let row = read_row(alloc, phases, &fields)?;
        self.take_row(alloc, number, fields.class, row)
    }
}
