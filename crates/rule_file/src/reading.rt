ghost use Rattle.std.specs.Prelude.{◌≡◌, ◌≤◌, ◌<◌, Ok, Err, IfOk, OnOk, IfErr, length, map, string_bytes};
ghost use Rattle.toml.specs.View.{table_view};
ghost use Rattle.lexicon_definitions.specs.GrammarTexts.{grammar_of};
ghost use Rattle.lexicon_definitions.specs.GrammarFaults.{IsGrammarTextWithinLimits};
ghost use Rattle.lexicon_definitions.specs.Lexicons.{tree_of};
ghost use Rattle.phase_automaton.specs.Automata.{Recognizes};
ghost use Rattle.rule_file_definitions.specs.RuleFileReadings.{read_set as read_set_of, IsDecided, IsReadAs};
ghost use Rattle.rule_file.specs.Faults.{IfFault, IsGrammarFault};
ghost use Rattle.rule_file.specs.Held.{texts_of, texts_with_classes, set_of};

use crate::classes::check_classes;
use crate::document::{Texts, classes_in, read_document, texts_in};
use crate::entries::read_entries;
use crate::phases::check_phases;
use crate::plain::read_plain;
use crate::{RuleError, RuleFault, RuleFile};
use lexicon_definitions::MOST_PHASES;
use lexicon_text_definitions::MOST_FILE_BYTES;
use phase_automaton::{Automaton, GrammarError, read_grammar};
use phoneme::Letter;
use sandhi_rules::{Rule, RuleSet};
use std::alloc::Global;
use toml::Table;

/// The automaton of the grammar's text.
fn automaton_of(alloc: Global, text: &[u8], names: &[String]) -> Result<Automaton, RuleError>
    requires some { 0 < length names.now }
    requires few { length names.now ≤ MOST_PHASES }
    ensures text { OnOk result (IsGrammarTextWithinLimits (map string_bytes names.now) text.now) }
    ensures grammar { IfOk result (λ automaton. Recognizes automaton (grammar_of (map string_bytes names.now) text.now)) }
    ensures phases { IfOk result (λ automaton. automaton.phases ≡ length names.now) }
    ensures fault { IfErr result (λ error. IfFault error (IsGrammarFault (map string_bytes names.now) text.now)) }
{
    match read_grammar(alloc, text, names) {
        Ok(automaton) => Ok(automaton),
        Err(GrammarError::Fault(fault)) => Err(RuleFault::Grammar(fault).into()),
        Err(GrammarError::Memory) => Err(RuleError::Memory),
    }
}

/// The plain pairs and the rules of a file, and the automaton of its grammar.
#[derive(Drop)]
struct Parts {
    plain: Vec<(Letter, Letter)>,
    rules: Vec<Rule>,
    automaton: Automaton,
}

/// What is read of these texts and the classes.
fn read_parts(
    alloc: Global,
    phases: &[String],
    grammar: &[u8],
    plain: &[String],
    rules: &[String],
    classes: &Table,
) -> Result<Parts, RuleError>
    ensures ok { IfOk result (λ parts. IsDecided (read_set_of (texts_of phases.now grammar.now plain.now rules.now (table_view classes.now)))
        (Ok (set_of phases.now grammar.now parts.plain.items parts.rules.items))) }
    ensures automaton { IfOk result (λ parts. Recognizes parts.automaton (grammar_of (map string_bytes phases.now) grammar.now)) }
    ensures phases { IfOk result (λ parts. parts.automaton.phases ≡ length phases.now) }
    ensures fault { IfErr result (λ error. IfFault error (λ fault.
        IsDecided (read_set_of (texts_of phases.now grammar.now plain.now rules.now (table_view classes.now))) (Err fault))) }
{
    check_phases(phases)?;
    check_classes(alloc, classes)?;
    let plain = read_plain(alloc, classes, plain)?;
    let rules = read_entries(alloc, phases, classes, rules)?;
    let automaton = automaton_of(alloc, grammar, phases)?;
    Ok(Parts {
        plain,
        rules,
        automaton,
    })
}

/// What is read of the texts and the classes.
fn read_set(alloc: Global, texts: Texts, classes: &Table) -> Result<RuleFile, RuleError>
    ensures ok { IfOk result (λ file. IsDecided (read_set_of (texts_with_classes texts (table_view classes.now))) (Ok file.rules)) }
    ensures automaton { IfOk result (λ file. Recognizes file.automaton (tree_of file.rules)) }
    ensures phases { IfOk result (λ file. file.automaton.phases ≡ length file.rules.names) }
    ensures fault { IfErr result (λ error. IfFault error (λ fault. IsDecided (read_set_of (texts_with_classes texts (table_view classes.now))) (Err fault))) }
{
    let Texts {
        phases,
        grammar,
        plain,
        rules,
    } = texts;
    let parts = read_parts(
        alloc,
        phases.as_slice(),
        grammar.as_bytes(),
        plain.as_slice(),
        rules.as_slice(),
        classes,
    )?;
    let grammar = Vec::from_slice(alloc, grammar.as_bytes())?;
    let set = RuleSet::new(alloc, phases, grammar, parts.plain, parts.rules)?;
    Ok(RuleFile {
        rules: set,
        automaton: parts.automaton,
    })
}

/// The rule set of a rule file with the automaton of its grammar, or the file's first fault (own format).
pub fn read(alloc: Global, bytes: &[u8]) -> Result<RuleFile, RuleError>
    requires { length bytes.now ≤ MOST_FILE_BYTES }
    ensures ok { IfOk result (λ file. IsReadAs bytes.now (Ok file.rules)) }
    ensures automaton { IfOk result (λ file. Recognizes file.automaton (tree_of file.rules)) }
    ensures phases { IfOk result (λ file. file.automaton.phases ≡ length file.rules.names) }
    ensures fault { IfErr result (λ error. IfFault error (λ fault. IsReadAs bytes.now (Err fault))) }
{
    let root = read_document(alloc, bytes)?;
    let none = Table::new(alloc);
    let texts = texts_in(alloc, &root)?;
    let classes = classes_in(&root, &none)?;
    read_set(alloc, texts, classes)
}

/// The rule set of a rule file, or its first fault (own format).
pub fn read_rules(alloc: Global, bytes: &[u8]) -> Result<RuleSet, RuleError>
    requires { length bytes.now ≤ MOST_FILE_BYTES }
    ensures ok { IfOk result (λ rules. IsReadAs bytes.now (Ok rules)) }
    ensures fault { IfErr result (λ error. IfFault error (λ fault. IsReadAs bytes.now (Err fault))) }
{
    Ok(read(alloc, bytes)?.rules)
}
