ghost use Rattle.std.specs.Prelude.{◌≡◌, ℕ, Ok, IfOk, length, map, string_bytes};
ghost use Rattle.lexicon_definitions.specs.Lexicons.{tree_of};
ghost use Rattle.lexicon_definitions.specs.Limits.{count_lines};
ghost use Rattle.trie_text_definitions.specs.TrieForms.{phases_of};
ghost use Rattle.phase_automaton.specs.Automata.{Recognizes};
ghost use Rattle.paradigm_file_definitions.specs.StemFiles.{stems_of};
ghost use Rattle.demo_definitions.specs.SourceTexts.{demo_stems};
ghost use Rattle.demo_definitions.specs.SourceContents.{demo_rule_set, demo_classes};
ghost use Rattle.demo_counts.specs.Inputs.{AreDemoContents, IsStemFile};

use lexicon_builder::{BuildError, BuiltLexicon, build_lexicon};
use paradigms::{StemError, Stems, TableError, Tables, read_stems, read_tables};
use phoneme::Memory;
use rule_file::{RuleError, RuleFile, read};
use std::alloc::Global;
use std::thread::Threads;

const RULES: &[u8] =
    b"phases = [\"noun\", \"ind\"]\ngrammar = \"(ind | noun)+\"\nplain = [\"H <p>\", \"a <k>\", \"e <k>\"]\nrules = [\"aH|<b>>o<b>\"]\n\n[classes]\nk = \"kgcjtdpbmy\"\np = \"kctp\"\nb = \"gjdbmy\"\n";

const TABLES: &[u8] =
    b"a,m.sg.nom,noun,,1,aH\na,m.sg.ins,noun,,1,ena\na,m.sg.dat,noun,,1,Aya\na,m.sg.loc,noun,,1,e\na,ind,ind,,1,e\n";

/// What the rule file holds, which has no fault.
fn read_rule_file(alloc: Global) -> Result<RuleFile, Memory>
    ensures ok { IfOk result (λ file. file.rules ≡ demo_rule_set) }
    ensures automaton { IfOk result (λ file. Recognizes file.automaton (tree_of file.rules)) }
    ensures phases { IfOk result (λ file. file.automaton.phases ≡ length file.rules.names) }
{
    match read(alloc, RULES) {
        Ok(file) => Ok(file),
        Err(RuleError::Memory) => Err(Memory),
        Err(RuleError::Fault(_)) => unreachable!(),
    }
}

/// What the table file holds over the phases of the rule file. It has no fault.
fn read_table_file(alloc: Global, phases: &[String]) -> Result<Tables, Memory>
    requires { map string_bytes phases.now ≡ demo_rule_set.names }
    ensures ok { IfOk result (λ tables. tables ≡ demo_classes) }
{
    match read_tables(alloc, phases, TABLES) {
        Ok(tables) => Ok(tables),
        Err(TableError::Memory) => Err(Memory),
        Err(TableError::Fault(_)) => unreachable!(),
    }
}

/// What the stem file of a number holds over the tables. It has no fault.
fn read_stem_file(alloc: Global, tables: &Tables, bytes: &[u8]) -> Result<Stems, Memory>
    requires tables { tables.now ≡ demo_classes }
    requires bytes { IsStemFile bytes.now }
    ensures ok { IfOk result (λ stems. stems_of demo_classes bytes.now ≡ Ok stems) }
{
    match read_stems(alloc, tables, bytes) {
        Ok(stems) => Ok(stems),
        Err(StemError::Memory) => Err(Memory),
        Err(StemError::Fault(_)) => unreachable!(),
    }
}

/// The lexicon of the rule file, the table file and the stem file of a number. It is within the limits.
pub(crate) fn build(
    rt: &(impl Threads + Sync),
    alloc: Global,
    stem_bytes: &[u8],
) -> Result<BuiltLexicon, Memory>
    requires { IsStemFile stem_bytes.now }
    ensures ok { IfOk result (λ built. (number : ℕ) → stem_bytes.now ≡ demo_stems number → AreDemoContents number built.contents) }
    ensures lines { IfOk result (λ built. built.lines ≡ count_lines (phases_of built.contents.store)) }
{
    let RuleFile { rules, automaton } = read_rule_file(alloc)?;
    let tables = read_table_file(alloc, rules.phases())?;
    let stems = read_stem_file(alloc, &tables, stem_bytes)?;
    match build_lexicon(rt, alloc, rules, automaton, &tables, &stems) {
        Ok(built) => Ok(built),
        Err(BuildError::Memory) => Err(Memory),
        Err(BuildError::Limit) => unreachable!(),
    }
}
