ghost use Rattle.std.specs.Prelude.{◌≡◌, ◌<◌, ◌≤◌, ◌-◌, ◌^◌, ◌||◌, nat_lt, min, [], length, map, All, IfOk, OnOk};
ghost use Rattle.std.specs.List.{list_any};
ghost use Rattle.csv.specs.Records.{fields_of};
ghost use Rattle.morphology_definitions.specs.Inflection.{form_length as form_length_of, rows_of};
ghost use Rattle.paradigm_file_definitions.specs.StemFiles.{count_inflections, is_too_long as is_too_long_of, is_too_short as is_too_short_of, take_classed as take_classed_of, take_stem as take_stem_of};
ghost use Rattle.paradigms.specs.Answers.{IsAnswer, stem_why};
ghost use Rattle.paradigms.specs.Rows.{text_row, text_stem};

use crate::fields::stem_fields;
use crate::record_error::RecordError;
use crate::stem_fields::read_stem;
use crate::{Row, Stem, StemWhy, Tables};
use csv::ByteRecord;
use indexmap::IndexSet;
use lexicon_definitions::MOST_FORM_LETTERS;
use paradigm_file_definitions::{MOST_INFLECTIONS, MOST_STEM_RECORDS};
use phoneme::Word;
use std::alloc::Global;
use std::marker::Model;

/// The stems of a stem file, in the order of its records.
#[derive(Drop)]
pub struct Stems {
    list: IndexSet<Stem>,
}

impl Model for Stems {
    ghost use Rattle.std.specs.Prelude.{List, map};
    ghost use Rattle.morphology_definitions.specs.Inflection.{Stem as StemValue};
    ghost use Rattle.paradigms.specs.Rows.{text_stem};

    ghost Value = { List StemValue };

    ghost view = { λ s. map text_stem s.list.keys };
}

/// How many letters the form of a row and a stem has, as far as this can be counted.
fn form_length(stem: &Word, row: &Row) -> usize
    ensures { result ≡ min (form_length_of (text_row row.now) stem.now) (2 ^ 64 - 1) }
{
    let base = stem.len().saturating_sub(row.cut as usize);
    base.saturating_add(row.prefix.len())
        .saturating_add(row.ending.len())
}

/// Whether the row cuts more letters than the stem has, or leaves a form without letters.
fn is_too_short(stem: &Word, row: &Row) -> bool
    ensures { result ≡ is_too_short_of stem.now (text_row row.now) }
{
    row.cut as usize > stem.len() || form_length(stem, row) == 0
}

/// Whether the row's form of the stem has too many letters.
fn is_too_long(stem: &Word, row: &Row) -> bool
    ensures { result ≡ is_too_long_of stem.now (text_row row.now) }
{
    form_length(stem, row) > MOST_FORM_LETTERS
}

/// Whether the stem is too short for one of the rows.
fn has_short(stem: &Word, rows: &[Row]) -> bool
    ensures { result ≡ list_any (λ row. is_too_short_of stem.now (text_row row)) rows.now }
{
    rows.iter().any(|row| is_too_short(stem, row))
}

/// Whether one of the rows has too long a form of the stem.
fn has_long(stem: &Word, rows: &[Row]) -> bool
    ensures { result ≡ list_any (λ row. is_too_long_of stem.now (text_row row)) rows.now }
{
    rows.iter().any(|row| is_too_long(stem, row))
}

/// Whether the stem or some form of it is too long, the record with this number is one too many, or there are too many forms.
fn passes_limits(stem: &Word, rows: &[Row], number: u32, forms: usize) -> bool
    ensures { result ≡ (nat_lt MOST_FORM_LETTERS (length stem.now) || list_any (λ row. is_too_long_of stem.now (text_row row)) rows.now || nat_lt MOST_STEM_RECORDS number || nat_lt MOST_INFLECTIONS forms) }
{
    stem.len() > MOST_FORM_LETTERS
        || has_long(stem, rows)
        || number as usize > MOST_STEM_RECORDS
        || forms > MOST_INFLECTIONS
}

impl Stems {
    pub(crate) fn new(alloc: Global) -> Stems
        ensures { result ≡ [] }
    {
        Stems {
            list: IndexSet::new(alloc),
        }
    }

    /// The stems, in the order of the file. Takes no memory.
    pub fn list(&self) -> &[Stem]
        ensures { map text_stem result.now ≡ self.now }
    {
        self.list.as_slice()
    }

    /// Takes a stem as the record with this number, after stems that have so many forms. Gives the number of forms with those
    /// of the stem.
    fn take_classed(
        &mut self,
        tables: &Tables,
        number: u32,
        forms: usize,
        stem: Stem,
    ) -> Result<usize, RecordError<StemWhy>>
        requires class { stem.class < length tables.now }
        requires forms { forms ≡ count_inflections tables.now self.old }
        requires few { forms ≤ MOST_INFLECTIONS }
        ensures answer { IsAnswer stem_why (take_classed_of tables.now number self.old (text_stem stem)) result self.new }
        ensures forms { IfOk result (λ forms. forms ≡ count_inflections tables.now self.new) }
        ensures few { IfOk result (λ forms. forms ≤ MOST_INFLECTIONS) }
        ensures within { OnOk result (number ≤ MOST_STEM_RECORDS) }
    {
        let rows = tables.rows(stem.class);
        if has_short(&stem.letters, rows) {
            return Err(RecordError::Why(StemWhy::Short));
        }
        let forms = forms + rows.len();
        if passes_limits(&stem.letters, rows, number, forms) {
            return Err(RecordError::Why(StemWhy::Limit));
        }
        if !self.list.insert(stem)? {
            return Err(RecordError::Why(StemWhy::Twice));
        }
        Ok(forms)
    }

    /// Takes the next record, whose number counts from 1, after stems that have so many forms. Gives the number of forms with
    /// those of its stem.
    pub(crate) fn take(
        &mut self,
        alloc: Global,
        tables: &Tables,
        number: u32,
        forms: usize,
        csv_record: &ByteRecord,
    ) -> Result<usize, RecordError<StemWhy>>
        requires forms { forms ≡ count_inflections tables.now self.old }
        requires few { forms ≤ MOST_INFLECTIONS }
        requires fits { All (λ field. length field < 2 ^ 32) (fields_of csv_record.now) }
        ensures answer { IsAnswer stem_why (take_stem_of tables.now number self.old (fields_of csv_record.now)) result self.new }
        ensures forms { IfOk result (λ forms. forms ≡ count_inflections tables.now self.new) }
        ensures few { IfOk result (λ forms. forms ≤ MOST_INFLECTIONS) }
        ensures within { OnOk result (number ≤ MOST_STEM_RECORDS) }
    {
        let Some((letters, name)) = stem_fields(csv_record) else {
            return Err(RecordError::Why(StemWhy::Fields));
        };
        let stem = read_stem(alloc, tables, letters, name)?;
        self.take_classed(tables, number, forms, stem)
    }
}
