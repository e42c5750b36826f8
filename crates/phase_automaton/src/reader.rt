ghost use Rattle.std.specs.Prelude.{◌≡◌, ◌≢◌, ℕ, ◌+◌, ◌<◌, ◌≤◌, List, [], ◌∷◌, length, OnOk};
ghost use Rattle.lexicon_definitions.specs.Grammars.{Name};
ghost use Rattle.lexicon_definitions.specs.GrammarTexts.{Level as OpenLevel, empty_level, level_tree, symbol_of, after_token, after_close, with_item as with_item_of};
ghost use Rattle.phase_automaton.specs.declared.position.Position.{Position};
ghost use Rattle.phase_automaton.specs.Pieces.{position_at, Follows};
ghost use Rattle.phase_automaton.specs.Readers.{IsReader, CanRead, IsWhole};

use super::level::{Level, Repetition};
use super::piece::Piece;
use super::position::Position;
use super::position_set::SET_BITS;
use phoneme::Memory;
use std::alloc::Global;

/// How far a grammar was read: how many positions were met, position 0 among them, the levels around the innermost
/// bracket, the outermost first, and the innermost one.
#[derive(Drop)]
pub(crate) struct Reader {
    met: usize,
    outer: Vec<Level>,
    level: Level,
}

impl Reader {
    pub(crate) fn new(alloc: Global) -> Reader
        ensures met { result.met ≡ 1 }
        ensures reader { (all : List Position) → IsReader all all result (empty_level ∷ []) }
    {
        Reader {
            met: 1,
            outer: Vec::new(alloc),
            level: Level::empty(),
        }
    }

    /// Reads the next name.
    pub(crate) fn name(&mut self, positions: &mut [Position])
        requires count { length positions.old ≤ SET_BITS }
        requires met { self.old.met < length positions.old }
        ensures met { self.new.met ≡ self.old.met + 1 }
        ensures reader { (all : List Position) (level : OpenLevel) (levels : List OpenLevel)
            → ((position : ℕ) → Follows all self.old.met position → ⊥)
            → IsReader all positions.old self.old (level ∷ levels)
            → IsReader all positions.new self.new (with_item_of (Name (position_at all self.old.met).phase) level ∷ levels) }
    {
        let item = Piece::name(self.met);
        self.level = self.level.with_item(item, positions);
        self.met += 1;
    }

    /// Reads an opening bracket.
    fn open(&mut self) -> Result<(), Memory>
        ensures met { self.new.met ≡ self.old.met }
        ensures reader { OnOk result ((all positions : List Position) (levels : List OpenLevel)
            → IsReader all positions self.old levels → IsReader all positions self.new (empty_level ∷ levels)) }
    {
        self.outer.push(self.level)?;
        self.level = Level::empty();
        Ok(())
    }

    /// Reads a closing bracket. Where no bracket is open, nothing changes.
    fn close(&mut self, positions: &mut [Position])
        requires { length positions.old ≤ SET_BITS }
        ensures count { length positions.new ≡ length positions.old }
        ensures met { self.new.met ≡ self.old.met }
        ensures reader { (all : List Position) (level outer : OpenLevel) (levels : List OpenLevel) → level.items ≢ []
            → IsReader all positions.old self.old (level ∷ outer ∷ levels)
            → IsReader all positions.new self.new (after_close level (outer ∷ levels)) }
    {
        let Some(outer) = self.outer.pop() else {
            return;
        };
        let Some(item) = self.level.finished(positions) else {
            self.level = outer;
            return;
        };
        self.level = outer.with_item(item, positions);
    }

    /// Reads a bracket, a `|` or a sign of repetition. Another byte changes nothing.
    pub(crate) fn symbol(&mut self, byte: u8, positions: &mut [Position]) -> Result<(), Memory>
        requires { length positions.old ≤ SET_BITS }
        ensures count { length positions.new ≡ length positions.old }
        ensures met { self.new.met ≡ self.old.met }
        ensures reader { OnOk result ((names : List (List ℕ)) (all : List Position) (levels : List OpenLevel)
            → CanRead (symbol_of byte) levels → IsReader all positions.old self.old levels
            → IsReader all positions.new self.new (after_token names (symbol_of byte) levels)) }
    {
        match byte {
            b'(' => self.open()?,
            b')' => self.close(positions),
            b'|' => self.level = self.level.with_bar(positions),
            b'*' => self.level = self.level.with_repetition(Repetition::AnyTimes, positions),
            b'+' => self.level = self
                .level
                .with_repetition(Repetition::OnceOrMore, positions),
            b'?' => self.level = self
                .level
                .with_repetition(Repetition::AtMostOnce, positions),
            _ => {}
        }
        Ok(())
    }

    /// All that was read as one piece, or `None` where nothing was read.
    pub(crate) fn finish(self, positions: &mut [Position]) -> Option<Piece>
        requires { length positions.old ≤ SET_BITS }
        ensures { (all : List Position) (level : OpenLevel) → level.items ≢ [] → IsReader all positions.old self (level ∷ [])
            → IsWhole all positions.new result (level_tree level) }
    {
        self.level.finished(positions)
    }
}
