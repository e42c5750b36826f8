ghost use Rattle.std.specs.Prelude.{◌≡◌, []};
ghost use Rattle.std.specs.Bool.{OnTrue};

use annotated_trie::Lexicon;
use phoneme::Line;
use reader_choices::Choices;
use search_frames::{Ahead, Configuration};
use shared_trie::Node;

/// A line that is gone over, over a lexicon and under a reader's choices.
#[derive(Clone, Copy)]
pub(crate) struct Passage<'a> {
    pub lexicon: &'a Lexicon,
    pub line: &'a Line,
    pub choices: &'a Choices,
}

/// A place of a line, over a lexicon and under a reader's choices.
#[derive(Clone, Copy)]
pub(crate) struct Site<'a> {
    pub lexicon: &'a Lexicon,
    pub line: &'a Line,
    pub choices: &'a Choices,
    pub place: &'a Configuration,
}

impl<'a> Site<'a> {
    /// Whether no choice is made.
    pub fn is_free(self) -> bool
        ensures { OnTrue result (self.entry.choices.now ≡ []) }
    {
        self.choices.list().is_empty()
    }
}

/// A site, and what the line tells of every form that begins there.
#[derive(Clone, Copy)]
pub(crate) struct SiteAhead<'a> {
    pub site: Site<'a>,
    pub ahead: Ahead,
}

/// The node to which the letters that the rule before supplies, and then `taken` letters of the line, lead in the trie of the phase, which
/// is counted from 0.
#[derive(Clone, Copy)]
pub(crate) struct Front {
    pub phase: u32,
    pub taken: u32,
    pub node: Node,
}

/// A front at a place where each key with it whose form may be entered does what its rule does, wherever the form begins; and whether the line
/// may end with such a form.
#[derive(Clone, Copy)]
pub(crate) struct RuledFront<'a> {
    pub front: &'a Front,
    pub may_end: bool,
}
