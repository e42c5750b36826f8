ghost use Rattle.std.specs.Prelude.{◌≡◌, ◌≤◌, length, map, All, IfOk};
ghost use Rattle.std.specs.List.{AllZip, flat_map};
ghost use Rattle.form_tags.specs.Entries.{text_entry};
ghost use Rattle.morphology_definitions.specs.Inflection.{AreAllInflected, AreInflected, IsInflectable, IsInflectableStem, IsInflected};
ghost use Rattle.paradigms.specs.Rows.{text_row, text_stem};
ghost use Rattle.paradigms.specs.Parts.{IsPartOf};

use crate::{Row, Stem, Stems, Tables};
use form_tags::{Analysis, Entry};
use internal_sandhi::join_parts;
use phoneme::Memory;
use rayon::prelude::*;
use std::alloc::Global;
use std::thread::Threads;

/// The entry of a row and a stem.
fn inflect_by(alloc: Global, row: &Row, stem: &Stem) -> Result<Entry, Memory>
    requires { row.now.cut ≤ length stem.now.letters }
    ensures { IfOk result (λ entry. IsInflected (text_row row.now) stem.now.letters (text_entry entry)) }
{
    let letters = stem.letters.as_slice();
    let base = &letters[..letters.len() - row.cut as usize];
    let form = join_parts(alloc, row.prefix.as_slice(), base, row.ending.as_slice())?;
    let analysis = Analysis {
        stem: stem.letters.copy(alloc)?,
        tag: row.tag,
    };
    Ok(Entry {
        phase: row.phase,
        form,
        analysis,
    })
}

/// The entries of a stem by these rows, one for each row, in their order. Refused only for want of memory.
pub fn inflect(alloc: Global, rows: &[Row], stem: &Stem) -> Result<Vec<Entry>, Memory>
    requires { All (IsInflectable stem.now.letters) (map text_row rows.now) }
    ensures ok { IfOk result (λ entries. AreInflected (map text_row rows.now) stem.now.letters (map text_entry entries.items)) }
{
    let mut entries = Vec::new(alloc);
    entries.reserve(rows.len())?;
    for row in rows {
        entries.push(inflect_by(alloc, row, stem)?)?;
    }
    Ok(entries)
}

/// How many stems a thread is given at least. A thread takes some 72 MiB of address space, mostly without use, and inflecting is
/// a small part of the work on a lexicon.
const LEAST_PIECE: usize = 5_000;

/// The entries of each stem by the rows of its class.
fn inflect_each(
    rt: &(impl Threads + Sync),
    alloc: Global,
    tables: &Tables,
    stems: &[Stem],
) -> Result<Vec<Vec<Entry>>, Memory>
    requires { All (IsInflectableStem tables.now) (map text_stem stems.now) }
    ensures { IfOk result (λ parts. AllZip (IsPartOf tables.now) stems.now parts.items) }
{
    stems
        .par_iter()
        .map(
            |stem: &Stem| -> Result<Vec<Entry>, Memory>
                requires { IsInflectableStem tables.now (text_stem stem.now) }
                ensures { IfOk result (λ part. IsPartOf tables.entry.now stem.now part) }
            { inflect(alloc, tables.rows(stem.class), stem) },
        )
        .with_min_len(LEAST_PIECE)
        .collect::<Result<Vec<Vec<Entry>>, Memory>>(rt, alloc)?
}

/// The lists one after another.
fn joined(alloc: Global, parts: Vec<Vec<Entry>>) -> Result<Vec<Entry>, Memory>
    ensures { IfOk result (λ entries. entries.items ≡ flat_map (λ part. part.items) parts.items) }
{
    let mut entries = Vec::new(alloc);
    for mut part in parts {
        entries.append(&mut part)?;
    }
    Ok(entries)
}

/// The entries of all stems by the rows of their classes: stem by stem, and those of a stem in the order of the rows, whatever
/// the number of threads. Refused only for want of memory.
pub fn inflect_all(
    rt: &(impl Threads + Sync),
    alloc: Global,
    tables: &Tables,
    stems: &Stems,
) -> Result<Vec<Entry>, Memory>
    requires { All (IsInflectableStem tables.now) stems.now }
    ensures ok { IfOk result (λ entries. AreAllInflected tables.now stems.now (map text_entry entries.items)) }
{
    let parts = inflect_each(rt, alloc, tables, stems.list())?;
    joined(alloc, parts)
}
