ghost use Rattle.std.specs.Prelude.{◌≡◌, ◌≤◌, length, map, ◌++◌, codes, IfOk, IfErr, string_bytes};
ghost use Rattle.std.specs.Fmt.{decimal};
ghost use Rattle.segmentation_definitions.specs.PrintedAnswers.{output_line};
ghost use Rattle.lexicon_definitions.specs.declared.limits.TheConstants.{MOST_PHASES};
ghost use Rattle.lexicon_definitions.specs.Limits.{count_lines};
ghost use Rattle.lexicon_definitions.specs.Tries.{IsTrieOf};
ghost use Rattle.trie_text_definitions.specs.TrieForms.{phases_of};
ghost use Rattle.form_file.specs.Contents.{lexicon_of};
ghost use Rattle.lexicon_file.specs.Writing.{HasNewestText};
ghost use Rattle.rule_file_definitions.specs.RuleFileReadings.{IsReadAs};
ghost use Rattle.run_definitions.specs.BuildOutcomes.{AreTables, AreStems};
ghost use Rattle.run_definitions.specs.Ends.{Rules, Tables as OfTables, Stems as OfStems};
ghost use Rattle.run_definitions.specs.SourceLexicons.{IsLexiconOf};
ghost use Rattle.lexicon_builder.specs.Sources.{AreSources, HaveTooManyLines, IfLimit};
ghost use Rattle.commands.specs.Sources.{HoldsSource, IsBuilt};
ghost use Rattle.commands.specs.SourceErrors.{IsSourceError, IsLimitError};

use super::any_error::AnyError;
use super::boxed::in_box;
use super::status::AnyFault;
use lexicon_builder::{BuildError, BuiltLexicon, build_lexicon, lexicon_text};
use lexicon_text_definitions::MOST_FILE_BYTES;
use paradigms::{Stems, Tables, read_stems, read_tables};
use phoneme::Memory;
use rule_file::{RuleFile, read};
use std::alloc::Global;
use std::thread::Threads;

/// What a rule file holds, whose length is judged before its bytes are looked at.
pub(crate) fn read_rule_file(alloc: Global, bytes: &[u8]) -> Result<Box<RuleFile>, AnyError>
    ensures ok { IfOk result (λ file. HoldsSource IsReadAs bytes.now file.value.rules) }
    ensures refused { IfErr result (IsSourceError IsReadAs Rules bytes.now) }
{
    if bytes.len() > MOST_FILE_BYTES {
        return Err(AnyError::Fault(AnyFault::Large));
    }
    let file = read(alloc, bytes)?;
    Ok(in_box(alloc, file)?)
}

/// The tables of a table file over these phases. Its length is judged first too.
pub(crate) fn read_table_file(
    alloc: Global,
    phases: &[String],
    bytes: &[u8],
) -> Result<Box<Tables>, AnyError>
    requires { length phases.now ≤ MOST_PHASES }
    ensures ok { IfOk result (λ tables. HoldsSource (AreTables (map string_bytes phases.now)) bytes.now tables.value) }
    ensures refused { IfErr result (IsSourceError (AreTables (map string_bytes phases.now)) OfTables bytes.now) }
{
    if bytes.len() > MOST_FILE_BYTES {
        return Err(AnyError::Fault(AnyFault::Large));
    }
    let tables = read_tables(alloc, phases, bytes)?;
    Ok(in_box(alloc, tables)?)
}

/// The stems of a stem file over these tables. Its length is judged first too.
pub(crate) fn read_stem_file(
    alloc: Global,
    tables: &Tables,
    bytes: &[u8],
) -> Result<Box<Stems>, AnyError>
    ensures ok { IfOk result (λ stems. HoldsSource (AreStems tables.now) bytes.now stems.value) }
    ensures refused { IfErr result (IsSourceError (AreStems tables.now) OfStems bytes.now) }
{
    if bytes.len() > MOST_FILE_BYTES {
        return Err(AnyError::Fault(AnyFault::Large));
    }
    let stems = read_stems(alloc, tables, bytes)?;
    Ok(in_box(alloc, stems)?)
}

/// What was read of a rule file and of a table file.
#[derive(Drop)]
pub(crate) struct ReadTables {
    pub file: Box<RuleFile>,
    pub tables: Box<Tables>,
}

/// What was read of all three source files.
#[derive(Drop)]
pub(crate) struct ReadSources {
    pub read: ReadTables,
    pub stems: Box<Stems>,
}

/// The text of the lexicon file that is built, and what is printed of it.
#[derive(Drop)]
pub(crate) struct Built {
    pub text: Vec<u8>,
    pub output: String,
}

/// How many lines of forms the lexicon has, as a line.
fn print_forms(alloc: Global, forms: u32) -> Result<String, Memory>
    ensures ok { IfOk result (λ text. string_bytes text ≡ output_line (codes "forms " ++ decimal forms)) }
{
    Ok(format!(in alloc; "forms {forms}\n")?)
}

/// The lexicon of what was read of the three files, of which nothing else is kept.
fn build_sources(
    rt: &(impl Threads + Sync),
    alloc: Global,
    sources: ReadSources,
) -> Result<Box<BuiltLexicon>, BuildError>
    requires { AreSources sources.read.file.value.rules sources.read.tables.value sources.stems.value }
    ensures ok { IfOk result (λ built. IsLexiconOf sources.read.file.value.rules sources.read.tables.value sources.stems.value (lexicon_of built.value.contents)) }
    ensures trie { IfOk result (λ built. IsTrieOf built.value.contents.store (phases_of built.value.contents.store)) }
    ensures text { IfOk result (λ built. HasNewestText (lexicon_of built.value.contents)) }
    ensures lines { IfOk result (λ built. built.value.lines ≡ count_lines (phases_of built.value.contents.store)) }
    ensures limit { IfErr result (λ error. IfLimit error (HaveTooManyLines sources.read.file.value.rules sources.read.tables.value sources.stems.value)) }
{
    let ReadSources { read, stems } = sources;
    let ReadTables { file, tables } = read;
    let RuleFile { rules, automaton } = Box::into_inner(file);
    let built = build_lexicon(rt, alloc, rules, automaton, &*tables, &*stems)?;
    Ok(in_box(alloc, built)?)
}

/// The lexicon of the sources in its newest text, and how many lines of forms it has.
pub(crate) fn build(
    rt: &(impl Threads + Sync),
    alloc: Global,
    sources: ReadSources,
) -> Result<Built, AnyError>
    requires { AreSources sources.read.file.value.rules sources.read.tables.value sources.stems.value }
    ensures ok { IfOk result (IsBuilt sources.read.file.value.rules sources.read.tables.value sources.stems.value) }
    ensures refused { IfErr result (IsLimitError sources.read.file.value.rules sources.read.tables.value sources.stems.value) }
{
    let built = build_sources(rt, alloc, sources)?;
    let text = lexicon_text(alloc, &built.contents)?;
    let output = print_forms(alloc, built.lines)?;
    Ok(Built { text, output })
}
