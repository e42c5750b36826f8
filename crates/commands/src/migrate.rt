ghost use Rattle.std.specs.Prelude.{◌≡◌, List, [], ◌∷◌, length, IfOk, MatchOption, Some, string_bytes};
ghost use Rattle.lexicon_definitions.specs.Lexicons.{Lexicon};
ghost use Rattle.lexicon_definitions.specs.Tries.{Trie, IsTrieOf};
ghost use Rattle.trie_text_definitions.specs.TrieForms.{phases_of};
ghost use Rattle.trie_text_definitions.specs.VersionTexts.{IsOrderedTrieOf};
ghost use Rattle.form_file.specs.Contents.{lexicon_of};
ghost use Rattle.command_words.specs.Meant.{word_meant};
ghost use Rattle.run_definitions.specs.LongTexts.{HasLongText};
ghost use Rattle.run_definitions.specs.MigrateOutcomes.{text_fault, printed_nodes, IsMigratedOutcome, IsMigrateOutcome};
ghost use Rattle.commands.specs.Faults.{file_fault};
ghost use Rattle.commands.specs.LexiconFiles.{IsBuildable};
ghost use Rattle.commands.specs.Migrations.{IsMigrated};
ghost use Rattle.commands.specs.RunEnds.{devices, Ran};

use super::ending::{finish, refuse_file};
use super::opening::open_contents;
use super::status::{AnyFault, Status};
use command_words::MigrateWords;
use lexicon_file::{Contents, FileFault, FileWhy, write_within};
use lexicon_text_definitions::MOST_FILE_BYTES;
use outside::{Shelf, Sink, WriteError};
use phoneme::Memory;
use shared_trie::{Node, Store};
use std::alloc::Global;

/// The newest text of a lexicon, and what is printed of it.
#[derive(Drop)]
pub(crate) struct Migrated {
    pub text: Vec<u8>,
    pub output: String,
}

/// Why a lexicon file is refused whose newest text would be too long for a file: no line of it is at fault, so the line is 0.
fn long_text() -> AnyFault
    ensures { file_fault result ≡ text_fault }
{
    AnyFault::Lexicon(FileFault {
        line: 0,
        why: FileWhy::Limit,
    })
}

/// How many nodes these are, as a line.
fn print_count(alloc: Global, nodes: &[Node]) -> Result<String, Memory>
    ensures ok { IfOk result (λ text. string_bytes text ≡ printed_nodes (length nodes.now)) }
{
    let count = nodes.len();
    Ok(format!(in alloc; "nodes {count}\n")?)
}

/// How many nodes the newest text tells of the trie, as a line.
fn print_nodes(alloc: Global, store: &Store) -> Result<String, Memory>
    requires { IsTrieOf store.now (phases_of store.now) }
    ensures ok { IfOk result (λ text. (trie : Trie) → IsOrderedTrieOf trie (phases_of store.now) → string_bytes text ≡ printed_nodes (length trie.rows)) }
{
    let nodes = store.canonical(alloc)?;
    let line = print_count(alloc, nodes.as_slice())?;
    Ok(line)
}

/// The newest text of the lexicon, or `None` where it is too long for a file.
fn newest_text(alloc: Global, contents: &Contents) -> Result<Option<Migrated>, Memory>
    requires { IsBuildable contents.now }
    ensures ok { IfOk result (λ written. MatchOption written (HasLongText (lexicon_of contents.now)) (IsMigrated (lexicon_of contents.now))) }
{
    let Some(text) = write_within(alloc, contents, MOST_FILE_BYTES)? else {
        return Ok(None);
    };
    let output = print_nodes(alloc, &contents.store)?;
    Ok(Some(Migrated { text, output }))
}

/// Writes the newest text, and only then the output.
fn write_migrated<H: Shelf, O: Sink>(
    words: &MigrateWords<'_>,
    migrated: &Migrated,
    shelf: &mut H,
    sink: &mut O,
) -> Status
    ensures { (lexicon : Lexicon) → IsMigrated lexicon migrated.now
        → Ran (IsMigratedOutcome lexicon (word_meant words.now.lex) (word_meant words.now.out)) [] (Some (word_meant words.now.out)) result
        (devices (H.files shelf.old) (H.failed_reads shelf.old) (H.failed_writes shelf.old) (O.written sink.old) (O.faults sink.old))
        (devices (H.files shelf.new) (H.failed_reads shelf.new) (H.failed_writes shelf.new) (O.written sink.new) (O.faults sink.new)) }
{
    match shelf.write(words.out.name, migrated.text.as_slice()) {
        Ok(()) => finish(sink, migrated.output.as_bytes(), Status::Done),
        Err(WriteError::Failed) => Status::WriteFault,
        Err(WriteError::Memory) => Status::Memory,
    }
}

/// Goes on to write the lexicon, and refuses its file where the text would be too long.
fn migrate_contents<H: Shelf, O: Sink>(
    alloc: Global,
    contents: &Contents,
    words: &MigrateWords<'_>,
    shelf: &mut H,
    sink: &mut O,
) -> Status
    requires { IsBuildable contents.now }
    ensures { Ran (IsMigratedOutcome (lexicon_of contents.now) (word_meant words.now.lex) (word_meant words.now.out)) [] (Some (word_meant words.now.out)) result
        (devices (H.files shelf.old) (H.failed_reads shelf.old) (H.failed_writes shelf.old) (O.written sink.old) (O.faults sink.old))
        (devices (H.files shelf.new) (H.failed_reads shelf.new) (H.failed_writes shelf.new) (O.written sink.new) (O.faults sink.new)) }
{
    match newest_text(alloc, contents) {
        Ok(Some(migrated)) => write_migrated(words, &migrated, shelf, sink),
        Ok(None) => refuse_file(alloc, &words.lex, long_text(), sink),
        Err(Memory) => Status::Memory,
    }
}

/// `migrate LEX OUT`: reads a lexicon file of any version, writes its lexicon in the newest text, and only then the number of its
/// nodes.
pub(crate) fn run_migrate<H: Shelf, O: Sink>(
    alloc: Global,
    words: &MigrateWords<'_>,
    shelf: &mut H,
    sink: &mut O,
) -> Status
    ensures { Ran (IsMigrateOutcome (word_meant words.now.lex) (word_meant words.now.out)) (word_meant words.now.lex ∷ []) (Some (word_meant words.now.out)) result
        (devices (H.files shelf.old) (H.failed_reads shelf.old) (H.failed_writes shelf.old) (O.written sink.old) (O.faults sink.old))
        (devices (H.files shelf.new) (H.failed_reads shelf.new) (H.failed_writes shelf.new) (O.written sink.new) (O.faults sink.new)) }
{
    match open_contents(alloc, &words.lex, shelf, sink) {
        Ok(contents) => migrate_contents(alloc, &*contents, words, shelf, sink),
        Err(status) => status,
    }
}
