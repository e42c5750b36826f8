ghost use Rattle.std.specs.Prelude.{◌≡◌, ◌≤◌, length, MatchOption, IfOk, IfErr};
ghost use Rattle.lexicon_definitions.specs.Limits.{count_lines};
ghost use Rattle.lexicon_definitions.specs.Tries.{IsTrieOf};
ghost use Rattle.trie_text_definitions.specs.TrieForms.{phases_of};
ghost use Rattle.trie_text_definitions.specs.VersionTexts.{IsNewestText};
ghost use Rattle.run_definitions.specs.LongTexts.{HasLongText};
ghost use Rattle.run_definitions.specs.SourceLexicons.{IsLexiconOf};
ghost use Rattle.form_file.specs.Contents.{lexicon_of};
ghost use Rattle.lexicon_file.specs.Writing.{HasNewestText};
ghost use Rattle.lexicon_builder.specs.Sources.{AreSources, HaveTooManyLines, IfLimit};

use crate::BuildError;
use crate::collecting::{collected, sort_entries};
use lexicon_file::{Contents, write_within};
use lexicon_text_definitions::MOST_FILE_BYTES;
use paradigms::{Stems, Tables, inflect_all};
use phase_automaton::Automaton;
use sandhi_rules::RuleSet;
use std::alloc::Global;
use std::thread::Threads;

/// A lexicon that was built of its sources.
#[derive(Drop)]
pub struct BuiltLexicon {
    pub contents: Contents,
    /// How many pairs of a form and an analysis of it there are.
    pub lines: u32,
}

/// The lexicon of a rule set, tables and stems: its forms are those of all stems, each with its stem and its tag (after Huet
/// 2005). Refused where it has more pairs of a form and an analysis than a lexicon may have. The automaton is that of the rule set's
/// grammar.
pub fn build_lexicon(
    rt: &(impl Threads + Sync),
    alloc: Global,
    rules: RuleSet,
    automaton: Automaton,
    tables: &Tables,
    stems: &Stems,
) -> Result<BuiltLexicon, BuildError>
    requires { AreSources rules tables.now stems.now }
    ensures ok { IfOk result (λ built. IsLexiconOf rules tables.now stems.now (lexicon_of built.contents)) }
    ensures trie { IfOk result (λ built. IsTrieOf built.contents.store (phases_of built.contents.store)) }
    ensures text { IfOk result (λ built. HasNewestText (lexicon_of built.contents)) }
    ensures automaton { IfOk result (λ built. built.contents.automaton ≡ automaton) }
    ensures lines { IfOk result (λ built. built.lines ≡ count_lines (phases_of built.contents.store)) }
    ensures limit { IfErr result (λ error. IfLimit error (HaveTooManyLines rules tables.now stems.now)) }
{
    let mut entries = inflect_all(rt, alloc, tables, stems)?;
    sort_entries(&mut entries)?;
    let phases = rules.phases().len() as u32;
    let builder = collected(alloc, phases, entries)?;
    let lines = builder.lines();
    let store = builder.finish(alloc)?;
    let contents = Contents {
        rules,
        automaton,
        store,
    };
    Ok(BuiltLexicon { contents, lines })
}

/// The newest text of a lexicon, as its file holds it (own format). Refused where it has more bytes than a file may have.
pub fn lexicon_text(alloc: Global, contents: &Contents) -> Result<Vec<u8>, BuildError>
    requires trie { IsTrieOf contents.now.store (phases_of contents.now.store) }
    requires text { HasNewestText (lexicon_of contents.now) }
    ensures ok { IfOk result (λ text. IsNewestText (lexicon_of contents.now) text.items) }
    ensures fits { IfOk result (λ text. length text.items ≤ MOST_FILE_BYTES) }
    ensures limit { IfErr result (λ error. IfLimit error (HasLongText (lexicon_of contents.now))) }
{
    let Some(text) = write_within(alloc, contents, MOST_FILE_BYTES)? else {
        return Err(BuildError::Limit);
    };
    Ok(text)
}
