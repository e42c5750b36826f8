ghost use Rattle.std.specs.Prelude.{◌≡◌, ◌<◌, ◌≤◌, ◌^◌, ℕ, List, length, map};
ghost use Rattle.std.specs.String.{string_bytes};
ghost use Rattle.lexicon_definitions.specs.declared.limits.TheConstants.{MOST_PHASES};
ghost use Rattle.morphology_definitions.specs.Inflection.{Class};
ghost use Rattle.paradigm_file_definitions.specs.TableFiles.{cut_of, take_cut, take_row};
ghost use Rattle.paradigms.specs.Rows.{text_row};
ghost use Rattle.paradigms.specs.Answers.{IsRead, table_why};

use crate::fields::{TableFields, read_cut};
use crate::record_error::RecordError;
use crate::words::read_word;
use crate::{Row, TableWhy};
use form_tags::read_tag;
use sandhi_rules::phase_named;
use std::alloc::Global;

/// The row that the fields of a record tell, all but the class, over these names of phases.
pub(crate) fn read_row(
    alloc: Global,
    phases: &[String],
    fields: &TableFields<'_>,
) -> Result<Row, RecordError<TableWhy>>
    requires few { length phases.now ≤ MOST_PHASES }
    requires prefix { length fields.now.prefix.now < 2 ^ 32 }
    requires ending { length fields.now.ending.now < 2 ^ 32 }
    ensures { (number : ℕ) (classes : List Class) (name : List ℕ)
        → IsRead table_why text_row (take_row number classes name)
        (take_cut (map string_bytes phases.now) number classes name fields.now.tag.now fields.now.phase.now (cut_of fields.now.cut.now) fields.now.prefix.now fields.now.ending.now) result }
{
    let Some(cut) = read_cut(fields.cut) else {
        return Err(RecordError::Why(TableWhy::Fields));
    };
    let Some(tag) = read_tag(fields.tag) else {
        return Err(RecordError::Why(TableWhy::Tag));
    };
    let Some(phase) = phase_named(phases, fields.phase) else {
        return Err(RecordError::Why(TableWhy::Phase));
    };
    let prefix = read_word(alloc, fields.prefix, TableWhy::Spelling)?;
    let ending = read_word(alloc, fields.ending, TableWhy::Spelling)?;
    Ok(Row {
        tag,
        phase: phase as u32,
        prefix,
        cut,
        ending,
    })
}
