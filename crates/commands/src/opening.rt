ghost use Rattle.std.specs.Prelude.{◌≡◌, ◌≤◌, [], ◌∷◌, length, IfOk, IfErr, Ok, Option};
ghost use Rattle.trie_text_definitions.specs.VersionReadings.{IsReadAs};
ghost use Rattle.form_file.specs.Contents.{lexicon_of};
ghost use Rattle.command_words.specs.Meant.{word_meant};
ghost use Rattle.run_definitions.specs.Commands.{FileWord};
ghost use Rattle.commands.specs.RunEnds.{devices, Ran};
ghost use Rattle.commands.specs.LexiconFiles.{IsBuildable, IsLexiconFile, IsFileError};
ghost use Rattle.commands.specs.Openings.{HasOpened, IsUnopened};

use super::any_error::AnyError;
use super::boxed::in_box;
use super::ending::refuse_file;
use super::reading::read_file;
use super::status::{AnyFault, Status};
use annotated_trie::Lexicon;
use command_words::PlacedWord;
use lexicon_file::{Contents, read};
use lexicon_text_definitions::MOST_FILE_BYTES;
use outside::{Shelf, Sink};
use phoneme::Memory;
use std::alloc::Global;

/// The contents of a lexicon file, whose length is judged before its bytes are looked at.
fn read_contents(alloc: Global, bytes: &[u8]) -> Result<Box<Contents>, AnyError>
    ensures within { IfOk result (λ contents. length bytes.now ≤ MOST_FILE_BYTES) }
    ensures ok { IfOk result (λ contents. IsReadAs bytes.now (Ok (lexicon_of contents.value))) }
    ensures buildable { IfOk result (λ contents. IsBuildable contents.value) }
    ensures refused { IfErr result (IsFileError bytes.now) }
{
    if bytes.len() > MOST_FILE_BYTES {
        return Err(AnyError::Fault(AnyFault::Large));
    }
    let contents = read(alloc, bytes)?;
    Ok(in_box(alloc, contents)?)
}

/// The lexicon of a file's contents, as it is searched. The forms themselves are not kept.
fn build_lexicon(alloc: Global, contents: Box<Contents>) -> Result<Box<Lexicon>, Memory>
    requires { IsBuildable contents.value }
    ensures ok { IfOk result (λ lexicon. lexicon.value.lexicon ≡ lexicon_of contents.value) }
{
    let Contents {
        rules,
        automaton,
        store,
    } = Box::into_inner(contents);
    let lexicon = Lexicon::build(alloc, store, rules, automaton)?;
    in_box(alloc, lexicon)
}

/// The lexicon of a file's bytes, as it is searched.
pub fn read_lexicon(alloc: Global, bytes: &[u8]) -> Result<Box<Lexicon>, AnyError>
    ensures ok { IfOk result (λ lexicon. IsLexiconFile bytes.now lexicon.value.lexicon) }
    ensures refused { IfErr result (IsFileError bytes.now) }
{
    let contents = read_contents(alloc, bytes)?;
    Ok(build_lexicon(alloc, contents)?)
}

/// The contents of the lexicon file that this word names; or how the run ends where it has none, once the file's refusal is written.
pub(crate) fn open_contents<H: Shelf, O: Sink>(
    alloc: Global,
    word: &PlacedWord<'_>,
    shelf: &mut H,
    out: &mut O,
) -> Result<Box<Contents>, Status>
    ensures opened { IfOk result (λ contents. HasOpened (word_meant word.now) (lexicon_of contents.value)
        (devices (H.files shelf.old) (H.failed_reads shelf.old) (H.failed_writes shelf.old) (O.written out.old) (O.faults out.old))
        (devices (H.files shelf.new) (H.failed_reads shelf.new) (H.failed_writes shelf.new) (O.written out.new) (O.faults out.new))) }
    ensures buildable { IfOk result (λ contents. IsBuildable contents.value) }
    ensures ended { IfErr result (λ status. (writes : Option FileWord) → Ran (IsUnopened (word_meant word.now)) (word_meant word.now ∷ []) writes status
        (devices (H.files shelf.old) (H.failed_reads shelf.old) (H.failed_writes shelf.old) (O.written out.old) (O.faults out.old))
        (devices (H.files shelf.new) (H.failed_reads shelf.new) (H.failed_writes shelf.new) (O.written out.new) (O.faults out.new))) }
{
    let bytes = read_file(alloc, word, shelf)?;
    match read_contents(alloc, bytes.as_slice()) {
        Ok(contents) => Ok(contents),
        Err(AnyError::Fault(fault)) => Err(refuse_file(alloc, word, fault, out)),
        Err(AnyError::Memory) => Err(Status::Memory),
    }
}

/// The same of the lexicon as it is searched.
pub(crate) fn open_lexicon<H: Shelf, O: Sink>(
    alloc: Global,
    word: &PlacedWord<'_>,
    shelf: &mut H,
    out: &mut O,
) -> Result<Box<Lexicon>, Status>
    ensures opened { IfOk result (λ lexicon. HasOpened (word_meant word.now) lexicon.value.lexicon
        (devices (H.files shelf.old) (H.failed_reads shelf.old) (H.failed_writes shelf.old) (O.written out.old) (O.faults out.old))
        (devices (H.files shelf.new) (H.failed_reads shelf.new) (H.failed_writes shelf.new) (O.written out.new) (O.faults out.new))) }
    ensures ended { IfErr result (λ status. (writes : Option FileWord) → Ran (IsUnopened (word_meant word.now)) (word_meant word.now ∷ []) writes status
        (devices (H.files shelf.old) (H.failed_reads shelf.old) (H.failed_writes shelf.old) (O.written out.old) (O.faults out.old))
        (devices (H.files shelf.new) (H.failed_reads shelf.new) (H.failed_writes shelf.new) (O.written out.new) (O.faults out.new))) }
{
    let contents = open_contents(alloc, word, shelf, out)?;
    match build_lexicon(alloc, contents) {
        Ok(lexicon) => Ok(lexicon),
        Err(Memory) => Err(Status::Memory),
    }
}
