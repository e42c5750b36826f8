ghost use Rattle.std.specs.Prelude.{List, [], ◌∷◌, Some};
ghost use Rattle.command_words.specs.Meant.{word_meant};
ghost use Rattle.lexicon_definitions.specs.Lexicons.{RuleSet};
ghost use Rattle.morphology_definitions.specs.Inflection.{Class, Stem};
ghost use Rattle.lexicon_builder.specs.Sources.{AreSources};
ghost use Rattle.run_definitions.specs.BuildOutcomes.{IsBuildOutcome, IsTablesOutcome, IsStemsOutcome, IsLexiconOutcome};
ghost use Rattle.commands.specs.RunEnds.{devices, Ran};
ghost use Rattle.commands.specs.Sources.{AreReadRules, AreReadTables, IsBuilt};

use super::any_error::AnyError;
use super::build::{
    Built, ReadSources, ReadTables, build, read_rule_file, read_stem_file, read_table_file,
};
use super::ending::{finish, refuse_file};
use super::reading::read_file;
use super::status::Status;
use command_words::BuildWords;
use outside::{Shelf, Sink, WriteError};
use rule_file::RuleFile;
use std::alloc::Global;
use std::thread::Threads;

/// `build RULES TABLES STEMS OUT`: reads and checks each source file before the next is read, inflects all stems, writes the
/// lexicon file, and only then the number of its forms.
pub(crate) fn run_build<H: Shelf, O: Sink>(
    rt: &(impl Threads + Sync),
    alloc: Global,
    words: &BuildWords<'_>,
    shelf: &mut H,
    sink: &mut O,
) -> Status
    ensures { Ran (IsBuildOutcome (word_meant words.now.rules) (word_meant words.now.tables) (word_meant words.now.stems) (word_meant words.now.out)) (word_meant words.now.rules ∷ word_meant words.now.tables ∷ word_meant words.now.stems ∷ []) (Some (word_meant words.now.out)) result
        (devices (H.files shelf.old) (H.failed_reads shelf.old) (H.failed_writes shelf.old) (O.written sink.old) (O.faults sink.old))
        (devices (H.files shelf.new) (H.failed_reads shelf.new) (H.failed_writes shelf.new) (O.written sink.new) (O.faults sink.new)) }
{
    let bytes = match read_file(alloc, &words.rules, shelf) {
        Ok(bytes) => bytes,
        Err(status) => return status,
    };
    match read_rule_file(alloc, bytes.as_slice()) {
        Ok(file) => build_with_rules(rt, alloc, words, file, shelf, sink),
        Err(AnyError::Fault(fault)) => refuse_file(alloc, &words.rules, fault, sink),
        Err(AnyError::Memory) => Status::Memory,
    }
}

/// Goes on to the table file.
fn build_with_rules<H: Shelf, O: Sink>(
    rt: &(impl Threads + Sync),
    alloc: Global,
    words: &BuildWords<'_>,
    file: Box<RuleFile>,
    shelf: &mut H,
    sink: &mut O,
) -> Status
    requires { AreReadRules file.value.rules }
    ensures { Ran (IsTablesOutcome file.value.rules (word_meant words.now.tables) (word_meant words.now.stems) (word_meant words.now.out)) (word_meant words.now.tables ∷ word_meant words.now.stems ∷ []) (Some (word_meant words.now.out)) result
        (devices (H.files shelf.old) (H.failed_reads shelf.old) (H.failed_writes shelf.old) (O.written sink.old) (O.faults sink.old))
        (devices (H.files shelf.new) (H.failed_reads shelf.new) (H.failed_writes shelf.new) (O.written sink.new) (O.faults sink.new)) }
{
    let bytes = match read_file(alloc, &words.tables, shelf) {
        Ok(bytes) => bytes,
        Err(status) => return status,
    };
    match read_table_file(alloc, file.rules.phases(), bytes.as_slice()) {
        Ok(tables) => {
            let read = ReadTables { file, tables };
            build_with_tables(rt, alloc, words, read, shelf, sink)
        }
        Err(AnyError::Fault(fault)) => refuse_file(alloc, &words.tables, fault, sink),
        Err(AnyError::Memory) => Status::Memory,
    }
}

/// Goes on to the stem file.
fn build_with_tables<H: Shelf, O: Sink>(
    rt: &(impl Threads + Sync),
    alloc: Global,
    words: &BuildWords<'_>,
    read: ReadTables,
    shelf: &mut H,
    sink: &mut O,
) -> Status
    requires rules { AreReadRules read.file.value.rules }
    requires tables { AreReadTables read.file.value.rules read.tables.value }
    ensures { Ran (IsStemsOutcome read.file.value.rules read.tables.value (word_meant words.now.stems) (word_meant words.now.out)) (word_meant words.now.stems ∷ []) (Some (word_meant words.now.out)) result
        (devices (H.files shelf.old) (H.failed_reads shelf.old) (H.failed_writes shelf.old) (O.written sink.old) (O.faults sink.old))
        (devices (H.files shelf.new) (H.failed_reads shelf.new) (H.failed_writes shelf.new) (O.written sink.new) (O.faults sink.new)) }
{
    let bytes = match read_file(alloc, &words.stems, shelf) {
        Ok(bytes) => bytes,
        Err(status) => return status,
    };
    match read_stem_file(alloc, &*read.tables, bytes.as_slice()) {
        Ok(stems) => {
            let sources = ReadSources { read, stems };
            build_with_stems(rt, alloc, words, sources, shelf, sink)
        }
        Err(AnyError::Fault(fault)) => refuse_file(alloc, &words.stems, fault, sink),
        Err(AnyError::Memory) => Status::Memory,
    }
}

/// Goes on to the lexicon of the three. Where it is too large, the stem file is refused.
fn build_with_stems<H: Shelf, O: Sink>(
    rt: &(impl Threads + Sync),
    alloc: Global,
    words: &BuildWords<'_>,
    sources: ReadSources,
    shelf: &mut H,
    sink: &mut O,
) -> Status
    requires sources { AreSources sources.read.file.value.rules sources.read.tables.value sources.stems.value }
    ensures { Ran (IsLexiconOutcome sources.read.file.value.rules sources.read.tables.value sources.stems.value (word_meant words.now.stems) (word_meant words.now.out)) ([]) (Some (word_meant words.now.out)) result
        (devices (H.files shelf.old) (H.failed_reads shelf.old) (H.failed_writes shelf.old) (O.written sink.old) (O.faults sink.old))
        (devices (H.files shelf.new) (H.failed_reads shelf.new) (H.failed_writes shelf.new) (O.written sink.new) (O.faults sink.new)) }
{
    match build(rt, alloc, sources) {
        Ok(built) => write_built(words, &built, shelf, sink),
        Err(AnyError::Fault(fault)) => refuse_file(alloc, &words.stems, fault, sink),
        Err(AnyError::Memory) => Status::Memory,
    }
}

/// Writes the lexicon file, and only then the output.
fn write_built<H: Shelf, O: Sink>(
    words: &BuildWords<'_>,
    built: &Built,
    shelf: &mut H,
    sink: &mut O,
) -> Status
    ensures { (rules : RuleSet) (classes : List Class) (stems : List Stem) → IsBuilt rules classes stems built.now
        → Ran (IsLexiconOutcome rules classes stems (word_meant words.now.stems) (word_meant words.now.out)) [] (Some (word_meant words.now.out)) result
        (devices (H.files shelf.old) (H.failed_reads shelf.old) (H.failed_writes shelf.old) (O.written sink.old) (O.faults sink.old))
        (devices (H.files shelf.new) (H.failed_reads shelf.new) (H.failed_writes shelf.new) (O.written sink.new) (O.faults sink.new)) }
{
    match shelf.write(words.out.name, built.text.as_slice()) {
        Ok(()) => finish(sink, built.output.as_bytes(), Status::Done),
        Err(WriteError::Failed) => Status::WriteFault,
        Err(WriteError::Memory) => Status::Memory,
    }
}
