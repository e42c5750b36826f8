ghost use Rattle.std.specs.Prelude.{◌≡◌, ℕ, ◌<◌, ◌≤◌, length, List, Some, None, IfOk};
ghost use Rattle.lexicon_definitions.specs.GrammarTexts.{grammar_of};
ghost use Rattle.lexicon_definitions.specs.GrammarFaults.{syntax_fault};
ghost use Rattle.lexicon_definitions.specs.Grammars.{Grammar};
ghost use Rattle.phase_automaton.specs.declared.position.Position.{Position};
ghost use Rattle.phase_automaton.specs.Names.{positions_of};
ghost use Rattle.phase_automaton.specs.Pieces.{Follows};
ghost use Rattle.phase_automaton.specs.Readers.{IsNet, IsWhole};

use super::piece::Piece;
use super::position::Position;
use super::position_set::{PositionSet, SET_BITS};
use super::reader::Reader;
use super::walk::is_name_byte;
use phoneme::Memory;
use std::alloc::Global;

/// Links the positions of a text's names, and gives those at which a word may end.
pub(crate) fn link_positions(
    alloc: Global,
    text: &[u8],
    positions: &mut [Position],
) -> Result<PositionSet, Memory>
    requires count { length positions.old ≤ SET_BITS }
    requires syntax { syntax_fault text.now ≡ None }
    requires names { (names : List (List ℕ)) × (positions.old ≡ positions_of names text.now) }
    ensures { IfOk result (λ ends. (names : List (List ℕ)) → positions.old ≡ positions_of names text.now
        → IsNet positions.new ends (grammar_of names text.now)) }
{
    let mut reader = Reader::new(alloc);
    let mut in_name = false;
    for byte in text {
        let goes_on = in_name;
        in_name = is_name_byte(*byte);
        if !in_name {
            reader.symbol(*byte, positions)?;
        } else if !goes_on {
            reader.name(positions);
        }
    }
    let Some(piece) = reader.finish(positions) else {
        return Ok(PositionSet::empty());
    };
    Ok(open_net(piece, positions))
}

/// Lets position 0 be followed by the positions at which the whole grammar can begin, and gives those at which it can end.
fn open_net(piece: Piece, positions: &mut [Position]) -> PositionSet
    requires { 0 < length positions.old }
    ensures { (all : List Position) (grammar : Grammar) → ((before position : ℕ) → Follows all before position → ⊥)
        → IsWhole all positions.old (Some piece) grammar → IsNet positions.new result grammar }
{
    positions[0] = Position {
        phase: 0,
        follow: piece.first,
    };
    piece.last.union_if(piece.optional, PositionSet::only(0))
}
