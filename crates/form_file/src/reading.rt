ghost use Rattle.std.specs.Prelude.{◌≡◌, ◌≤◌, length, Ok, Err, IfOk, IfErr, OnOk};
ghost use Rattle.lexicon_definitions.specs.Lexicons.{tree_of};
ghost use Rattle.lexicon_definitions.specs.Tries.{IsTrieOf};
ghost use Rattle.phase_automaton.specs.Automata.{Recognizes};
ghost use Rattle.lexicon_text_definitions.specs.FileLines.{End, lines_of_bytes};
ghost use Rattle.lexicon_text_definitions.specs.FileContents.{lexicon_told};
ghost use Rattle.lexicon_text_definitions.specs.FileReadings.{read_lines, IsResult, IsReadAs};
ghost use Rattle.trie_text_definitions.specs.TrieForms.{phases_of};
ghost use Rattle.form_file.specs.Contents.{lexicon_of, error_of, IfFault};

use crate::cutting::first_line;
use crate::kind::Kind;
use crate::take_error::TakeError;
use crate::told::Told;
use crate::{Contents, FileError, FileFault, FileWhy};
use lexicon_text_definitions::MOST_FILE_BYTES;
use std::alloc::Global;

/// The error of the line with this number.
fn error_at(line: u32, error: TakeError) -> FileError
    ensures { result ≡ error_of line error }
{
    match error {
        TakeError::Why(why) => FileFault { line, why }.into(),
        TakeError::Memory => FileError::Memory,
    }
}

/// Takes each line of the bytes, the last of which is to be the end.
fn take_lines(alloc: Global, told: &mut Told, bytes: &[u8]) -> Result<(), FileError>
    requires { length bytes.now ≤ MOST_FILE_BYTES }
    ensures ended { OnOk result (told.new.last ≡ End) }
    ensures ok { OnOk result (IsResult (read_lines told.old 1 (lines_of_bytes bytes.now)) (Ok (lexicon_told told.new))) }
    ensures fault { IfErr result (λ error. IfFault error (λ fault. IsResult (read_lines told.old 1 (lines_of_bytes bytes.now)) (Err fault))) }
{
    let mut rest = bytes;
    let mut number = 1;
    while let Some((line, ended, following)) = first_line(rest) {
        if let Err(error) = told.take_line(alloc, line, ended) {
            return Err(error_at(number, error));
        }
        rest = following;
        number += 1;
    }
    let Kind::End = told.last_kind() else {
        return Err(error_at(number, FileWhy::NoEnd.into()));
    };
    Ok(())
}

/// What all lines of the bytes tell, the last of which is the end.
fn lines_told(alloc: Global, bytes: &[u8]) -> Result<Told, FileError>
    requires { length bytes.now ≤ MOST_FILE_BYTES }
    ensures ended { IfOk result (λ told. told.last ≡ End) }
    ensures ok { IfOk result (λ told. IsReadAs bytes.now (Ok (lexicon_told told))) }
    ensures fault { IfErr result (λ error. IfFault error (λ fault. IsReadAs bytes.now (Err fault))) }
{
    let mut told = Told::new(alloc)?;
    take_lines(alloc, &mut told, bytes)?;
    Ok(told)
}

/// The contents of a lexicon file of version 1, or its first fault (own format).
pub fn read(alloc: Global, bytes: &[u8]) -> Result<Contents, FileError>
    requires { length bytes.now ≤ MOST_FILE_BYTES }
    ensures ok { IfOk result (λ contents. IsReadAs bytes.now (Ok (lexicon_of contents))) }
    ensures trie { IfOk result (λ contents. IsTrieOf contents.store (phases_of contents.store)) }
    ensures automaton { IfOk result (λ contents. Recognizes contents.automaton (tree_of contents.rules)) }
    ensures phases { IfOk result (λ contents. contents.automaton.phases ≡ length contents.rules.names) }
    ensures fault { IfErr result (λ error. IfFault error (λ fault. IsReadAs bytes.now (Err fault))) }
{
    let told = lines_told(alloc, bytes)?;
    Ok(told.finish(alloc)?)
}
