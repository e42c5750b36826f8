ghost use Rattle.std.specs.Prelude.{ℕ, ◌≢◌, ◌+◌, ◌≤◌, List, [], ◌∷◌, length, Some};
ghost use Rattle.lexicon_definitions.specs.Grammars.{Grammar, count_names};
ghost use Rattle.lexicon_definitions.specs.GrammarTexts.{Level as OpenLevel, empty_level, sequence_tree, with_item as with_item_of, change_newest, level_tree, expression_tree};
ghost use Rattle.phase_automaton.specs.declared.position.Position.{Position};
ghost use Rattle.phase_automaton.specs.Pieces.{IsPiece};
ghost use Rattle.phase_automaton.specs.Levels.{choices_tree, IsLevel, IsPart, KeepsOthers, AreJoined, repeated_by};

use super::piece::Piece;
use super::position::Position;
use super::position_set::SET_BITS;

/// A sign of repetition.
#[derive(Clone, Copy)]
pub(crate) enum Repetition {
    AnyTimes,
    OnceOrMore,
    AtMostOnce,
}

/// What was read since a bracket: the sequences before the last `|` as one piece, the items since then before the newest
/// one as another, and the newest item, which a sign of repetition may still change.
#[derive(Clone, Copy)]
pub(crate) struct Level {
    choices: Option<Piece>,
    sequence: Option<Piece>,
    item: Option<Piece>,
}

impl Level {
    pub(crate) const fn empty() -> Level
        ensures { (positions : List Position) (from : ℕ) → IsLevel positions result empty_level from from }
    {
        Level {
            choices: None,
            sequence: None,
            item: None,
        }
    }

    /// This level with one item more.
    pub(crate) fn with_item(self, item: Piece, positions: &mut [Position]) -> Level
        requires { length positions.old ≤ SET_BITS }
        ensures others { KeepsOthers positions.old positions.new self }
        ensures level { (level : OpenLevel) (tree : Grammar) (from until : ℕ) → IsLevel positions.old self level from until
            → IsPiece positions.old item tree until
            → IsLevel positions.new result (with_item_of tree level) from (until + count_names tree) }
    {
        Level {
            choices: self.choices,
            sequence: joined(self.sequence, self.item, positions),
            item: Some(item),
        }
    }

    /// This level after a `|`.
    pub(crate) fn with_bar(self, positions: &mut [Position]) -> Level
        requires { length positions.old ≤ SET_BITS }
        ensures others { KeepsOthers positions.old positions.new self }
        ensures level { (level : OpenLevel) (from until : ℕ) → level.items ≢ [] → IsLevel positions.old self level from until
            → IsLevel positions.new result (record { sequences = sequence_tree level.items ∷ level.sequences; items = [] })
            from until }
    {
        Level {
            choices: self.finished(positions),
            sequence: None,
            item: None,
        }
    }

    /// This level with its newest item repeated.
    pub(crate) fn with_repetition(self, repetition: Repetition, positions: &mut [Position]) -> Level
        requires { length positions.old ≤ SET_BITS }
        ensures others { KeepsOthers positions.old positions.new self }
        ensures level { (level : OpenLevel) (from until : ℕ) → IsLevel positions.old self level from until
            → IsLevel positions.new result (change_newest (repeated_by repetition) level) from until }
    {
        let Some(item) = self.item else {
            return self;
        };
        let item = match repetition {
            Repetition::AnyTimes => item.any_times(positions),
            Repetition::OnceOrMore => item.once_or_more(positions),
            Repetition::AtMostOnce => item.at_most_once(),
        };
        Level {
            choices: self.choices,
            sequence: self.sequence,
            item: Some(item),
        }
    }

    /// All of this level as one piece, or `None` where nothing was read.
    pub(crate) fn finished(self, positions: &mut [Position]) -> Option<Piece>
        requires { length positions.old ≤ SET_BITS }
        ensures others { KeepsOthers positions.old positions.new self }
        ensures piece { (level : OpenLevel) (from until : ℕ) → level.items ≢ [] → IsLevel positions.old self level from until
            → IsPart positions.new result (Some (level_tree level)) from until }
    {
        let sequence = joined(self.sequence, self.item, positions);
        chosen(self.choices, sequence)
    }
}

/// The one piece, and the other after it, as far as they are there.
fn joined(sequence: Option<Piece>, item: Option<Piece>, positions: &mut [Position]) -> Option<Piece>
    requires { length positions.old ≤ SET_BITS }
    ensures { AreJoined positions.old positions.new sequence item result }
{
    match (sequence, item) {
        (Some(sequence), Some(item)) => Some(sequence.then(item, positions)),
        (None, item) => item,
        (sequence, None) => sequence,
    }
}

/// Either piece, as far as they are there.
fn chosen(choices: Option<Piece>, sequence: Option<Piece>) -> Option<Piece>
    ensures { (positions : List Position) (sequences : List Grammar) (tree : Grammar) (from middle until : ℕ)
        → IsPart positions choices (choices_tree sequences) from middle → IsPart positions sequence (Some tree) middle until
        → IsPart positions result (Some (expression_tree (tree ∷ sequences))) from until }
{
    match (choices, sequence) {
        (Some(choices), Some(sequence)) => Some(choices.or(sequence)),
        (None, sequence) => sequence,
        (choices, None) => choices,
    }
}
