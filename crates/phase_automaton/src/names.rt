ghost use Rattle.std.specs.Prelude.{◌≡◌, ◌≤◌, length, map, position, IfOk, OnOk, IfErr, Some, None};
ghost use Rattle.std.specs.Option.{option_map};
ghost use Rattle.std.specs.Str.{bytes_eq};
ghost use Rattle.std.specs.String.{string_bytes};
ghost use Rattle.lexicon_definitions.specs.GrammarFaults.{names_from, first_unknown, UnknownPhase as UnknownName};
ghost use Rattle.phase_automaton.specs.Faults.{IfFault};
ghost use Rattle.phase_automaton.specs.Names.{first_name as first_name_of, positions_of};

use super::fault::{GrammarError, GrammarFault};
use super::position::Position;
use super::walk::is_name_byte;
use lexicon_definitions::{MOST_GRAMMAR_BYTES, MOST_PHASES};
use std::alloc::Global;

/// The name that a text begins with; empty where it begins with no name.
fn first_name(text: &[u8]) -> &[u8]
    ensures { result.now ≡ first_name_of text.now }
{
    for (at, byte) in text.iter().enumerate() {
        if !is_name_byte(*byte) {
            return &text[..at];
        }
    }
    text
}

/// The number of the phase with this name, counted from 0.
fn phase_of(names: &[String], name: &[u8]) -> Option<u32>
    requires { length names.now ≤ MOST_PHASES }
    ensures { result ≡ position (bytes_eq name.now) (map string_bytes names.now) }
{
    for (phase, known) in names.iter().enumerate() {
        if name == known.as_bytes() {
            return Some(phase as u32);
        }
    }
    None
}

/// The positions of a text's names, after position 0, each with its phase and with nothing that follows yet. Refuses the
/// first name that no phase has.
pub(crate) fn read_positions(
    alloc: Global,
    text: &[u8],
    names: &[String],
) -> Result<Vec<Position>, GrammarError>
    requires text { length text.now ≤ MOST_GRAMMAR_BYTES }
    requires names { length names.now ≤ MOST_PHASES }
    ensures positions { IfOk result (λ positions. positions.items ≡ positions_of (map string_bytes names.now) text.now) }
    ensures known { OnOk result (first_unknown (map string_bytes names.now) (names_from 0 text.now) ≡ None) }
    ensures fault { IfErr result (λ e. IfFault e (λ fault.
        option_map UnknownName (first_unknown (map string_bytes names.now) (names_from 0 text.now)) ≡ Some fault)) }
{
    let mut positions = Vec::new(alloc);
    positions.push(Position::opening())?;
    let mut in_name = false;
    for (at, byte) in text.iter().enumerate() {
        let goes_on = in_name;
        in_name = is_name_byte(*byte);
        if in_name && !goes_on {
            let Some(phase) = phase_of(names, first_name(&text[at..])) else {
                return Err(GrammarFault::UnknownPhase { at: at as u32 }.into());
            };
            positions.push(Position::of_phase(phase))?;
        }
    }
    Ok(positions)
}
