ghost use Rattle.std.specs.Prelude.{◌≡◌, ◌<◌, ◌≤◌, length, map, IfOk, OnOk, IfErr};
ghost use Rattle.std.specs.String.{string_bytes};
ghost use Rattle.lexicon_definitions.specs.GrammarTexts.{grammar_of};
ghost use Rattle.lexicon_definitions.specs.GrammarFaults.{IsGrammarTextWithinLimits, IsFirstFault};
ghost use Rattle.phase_automaton.specs.Faults.{IfFault};
ghost use Rattle.phase_automaton.specs.Automata.{Recognizes};

use super::automaton::Automaton;
use super::fault::{GrammarError, GrammarFault};
use super::names::read_positions;
use super::net::link_positions;
use super::subsets::build;
use super::walk::syntax_fault;
use lexicon_definitions::{MOST_GRAMMAR_BYTES, MOST_GRAMMAR_NAMES, MOST_PHASES};
use std::alloc::Global;

/// The position of each name, and position 0 before them.
const MOST_POSITIONS: usize = MOST_GRAMMAR_NAMES + 1;

/// The automaton of a grammar's text over the names of the phases, which are numbered from 0 in this order. Refuses a text that
/// is no grammar text within the limits on bytes, names and states, with its first fault.
pub fn read_grammar(alloc: Global, text: &[u8], names: &[String]) -> Result<Automaton, GrammarError>
    requires some { 0 < length names.now }
    requires few { length names.now ≤ MOST_PHASES }
    ensures text { OnOk result (IsGrammarTextWithinLimits (map string_bytes names.now) text.now) }
    ensures grammar { IfOk result (λ automaton.
        Recognizes automaton (grammar_of (map string_bytes names.now) text.now)) }
    ensures phases { IfOk result (λ automaton. automaton.phases ≡ length names.now) }
    ensures fault { IfErr result (λ e. IfFault e (IsFirstFault (map string_bytes names.now) text.now)) }
{
    if text.len() > MOST_GRAMMAR_BYTES {
        return Err(GrammarFault::Long.into());
    }
    if let Some(at) = syntax_fault(text) {
        return Err(GrammarFault::Syntax { at }.into());
    }
    let mut positions = read_positions(alloc, text, names)?;
    if positions.len() > MOST_POSITIONS {
        return Err(GrammarFault::Places.into());
    }
    let ends = link_positions(alloc, text, positions.as_mut_slice())?;
    build(alloc, positions.as_slice(), ends, names.len() as u32)
}
