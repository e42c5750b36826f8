ghost use Rattle.std.specs.Prelude.{◌≡◌, ◌≤◌, length, drop, MatchOption, None, Some, Ok, Err, IfSome, IfOk, IfErr};
ghost use Rattle.lexicon_definitions.specs.Lexicons.{tree_of};
ghost use Rattle.lexicon_definitions.specs.Tries.{IsTrieOf};
ghost use Rattle.lexicon_text_definitions.specs.FileLines.{lines_of_bytes};
ghost use Rattle.phase_automaton.specs.Automata.{Recognizes};
ghost use Rattle.trie_text_definitions.specs.TrieForms.{phases_of};
ghost use Rattle.trie_text_definitions.specs.Versions.{version_of as version_of_bytes};
ghost use Rattle.trie_text_definitions.specs.VersionReadings.{IsReadAs, IsResult, read_lines as read_lines_of};
ghost use Rattle.trie_text_definitions.specs.VersionSteps.{head_told};
ghost use Rattle.form_file.specs.Contents.{lexicon_of};
ghost use Rattle.lexicon_file.specs.Contents.{error_of, IfFault};
ghost use Rattle.lexicon_file.specs.Kinds.{version_of};

use crate::take_error::TakeError;
use crate::told::TrieTold;
use crate::version::{Version, version_told};
use crate::{Contents, FileError, FileFault};
use form_file::{first_line, read as read_forms};
use lexicon_text_definitions::MOST_FILE_BYTES;
use std::alloc::Global;

/// The error of the line with this number.
fn error_at(line: u32, error: TakeError) -> FileError
    ensures { result ≡ error_of line error }
{
    match error {
        TakeError::Why(why) => FileFault { line, why }.into(),
        TakeError::Memory => FileError::Memory,
    }
}

/// The contents of a file of this version, whose lines after the first these are.
fn read_lines(alloc: Global, version: Version, lines: &[u8]) -> Result<Contents, FileError>
    requires { length lines.now ≤ MOST_FILE_BYTES }
    ensures ok { IfOk result (λ contents. IsResult (read_lines_of (version_of version) head_told 2 (lines_of_bytes lines.now)) (Ok (lexicon_of contents))) }
    ensures trie { IfOk result (λ contents. IsTrieOf contents.store (phases_of contents.store)) }
    ensures automaton { IfOk result (λ contents. Recognizes contents.automaton (tree_of contents.rules)) }
    ensures phases { IfOk result (λ contents. contents.automaton.phases ≡ length contents.rules.names) }
    ensures fault { IfErr result (λ error. IfFault error (λ fault. IsResult (read_lines_of (version_of version) head_told 2 (lines_of_bytes lines.now)) (Err fault))) }
{
    let mut told = TrieTold::new(alloc)?;
    let mut rest = lines;
    let mut number = 2;
    while let Some((line, ended, following)) = first_line(rest) {
        if let Err(error) = told.take_line(alloc, version, line, ended) {
            return Err(error_at(number, error));
        }
        rest = following;
        number += 1;
    }
    match TrieTold::finish(told, alloc) {
        Ok(contents) => Ok(contents),
        Err(error) => Err(error_at(number, error)),
    }
}

/// The version that the first line tells, and the lines after it. `None` where it is version 1 or tells none.
fn version_and_lines(bytes: &[u8]) -> Option<(Version, &[u8])>
    ensures told { MatchOption result (version_of_bytes bytes.now ≡ None)
        (λ parts. (version_of_bytes bytes.now ≡ Some (version_of parts.0)) × (drop 1 (lines_of_bytes bytes.now) ≡ lines_of_bytes parts.1.now)) }
    ensures within { IfSome result (λ parts. length parts.1.now ≤ length bytes.now) }
{
    let Some((head, ended, lines)) = first_line(bytes) else {
        return None;
    };
    let Some(version) = version_told(head, ended) else {
        return None;
    };
    Some((version, lines))
}

/// The contents of a lexicon file of any version, or its first fault (own format).
pub fn read(alloc: Global, bytes: &[u8]) -> Result<Contents, FileError>
    requires { length bytes.now ≤ MOST_FILE_BYTES }
    ensures ok { IfOk result (λ contents. IsReadAs bytes.now (Ok (lexicon_of contents))) }
    ensures trie { IfOk result (λ contents. IsTrieOf contents.store (phases_of contents.store)) }
    ensures automaton { IfOk result (λ contents. Recognizes contents.automaton (tree_of contents.rules)) }
    ensures phases { IfOk result (λ contents. contents.automaton.phases ≡ length contents.rules.names) }
    ensures fault { IfErr result (λ error. IfFault error (λ fault. IsReadAs bytes.now (Err fault))) }
{
    if let Some((version, lines)) = version_and_lines(bytes) {
        return read_lines(alloc, version, lines);
    }
    let contents = read_forms(alloc, bytes)?;
    Ok(contents)
}
