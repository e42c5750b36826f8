ghost use Rattle.std.specs.Prelude.{◌≡◌, ◌+◌, ◌≤◌, length, IfSome};
ghost use Rattle.text_definitions.specs.Lines.{IsLine};
ghost use Rattle.annotated_trie.specs.Searched.{IsSearchedLexicon};
ghost use Rattle.search_frames.specs.Frames.{IsConfigurationIn, numbered_of};
ghost use Rattle.search_frames.specs.Reached.{IsReached};
ghost use Rattle.search_frames.specs.WaysFrom.{AreAllWays};
ghost use Rattle.search_frames.specs.declared.way.TheConstants.{MOST_WAYS};

use super::configuration::Configuration;
use super::way::{MOST_WAYS, Way};
use annotated_trie::Lexicon;
use derivation::{Guide, OpenGuide};
use outside::Steps;
use phoneme::Line;
use reader_choices::Choices;

/// What a frame has still to try: every key that is possible at its configuration, or just the keys after that of its step.
#[derive(Clone, Copy)]
pub enum ToTry {
    All,
    Later,
}

/// A guide that keeps besides, from some places, the ways that are worth a try there (own).
pub trait SearchGuide: Guide {
    ghost use Rattle.std.specs.Prelude.{List};
    ghost use Rattle.text_definitions.specs.Lines.{Line};
    ghost use Rattle.segmentation_definitions.specs.Items.{Choice};
    ghost use Rattle.annotated_trie.specs.Searched.{SearchedLexicon};

    /// What is known of it, where a search goes over this lexicon, this line and these choices.
    ghost known: { Self → SearchedLexicon → Line → List Choice → Type 0 };

    /// Ways from the place in the order of their keys, with one of which each path to an answer begins. `None` where the guide keeps none
    /// from there. Counts one step.
    fn ways<L>(
        &self,
        lexicon: &Lexicon,
        line: &Line,
        choices: &Choices,
        place: &Configuration,
        steps: &mut Steps<L>,
    ) -> Option<&[Way]>
        requires known { known self.now lexicon.now line.now choices.now }
        requires searched { IsSearchedLexicon lexicon.now }
        requires line { IsLine line.now }
        requires place { IsConfigurationIn lexicon.now line.now place.now }
        requires reached { IsReached lexicon.now line.now choices.now (numbered_of lexicon.now place.now) }
        ensures ways { IfSome result (λ ways. AreAllWays lexicon.now line.now choices.now (numbered_of lexicon.now place.now) ways.now) }
        ensures few { IfSome result (λ ways. length ways.now ≤ MOST_WAYS) }
        ensures steps { steps.new ≡ steps.old + 1 };
}

impl SearchGuide for OpenGuide {
    ghost known = { λ _ searched line choices. Unit {0} };

    fn ways<L>(
        &self,
        _lexicon: &Lexicon,
        _line: &Line,
        _choices: &Choices,
        _place: &Configuration,
        steps: &mut Steps<L>,
    ) -> Option<&[Way]> {
        steps.tick();
        None
    }
}
