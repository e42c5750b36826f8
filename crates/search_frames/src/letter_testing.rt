ghost use Rattle.std.specs.Prelude.{◌≡◌, length};
ghost use Rattle.text_definitions.specs.Lines.{IsLine};
ghost use Rattle.derivation.specs.Steps.{key_of};
ghost use Rattle.answer_paths.specs.Fronts.{supplied};
ghost use Rattle.search_frames.specs.Frames.{IsConfigurationIn, numbered_of};
ghost use Rattle.search_frames.specs.Configurations.{IsPossible};
ghost use Rattle.search_frames.specs.LetterTests.{IsLetterTestOf};

use super::Configuration;
use super::ahead::{Ahead, may_begin};
use annotated_trie::Lexicon;
use derivation::{Entrance, Step};
use phoneme::Line;
use reader_choices::Choices;

/// What a key may do at a configuration, whatever the grammar says: neither lead on nor end the line; or end it; or lead on to a form
/// that begins after `at` letters of the line and is entered so.
#[derive(Clone, Copy)]
pub enum LetterTest {
    Refused,
    Ends,
    LeadsOn { at: u32, entrance: Entrance },
}

/// What the step, whose key is possible at the configuration, may do there as far as the letters of the line, the blanks and the choices
/// tell. The configuration's state is not looked at.
pub fn test_letters(
    lexicon: &Lexicon,
    line: &Line,
    choices: &Choices,
    place: &Configuration,
    step: &Step,
) -> LetterTest
    requires line { IsLine line.now }
    requires place { IsConfigurationIn lexicon.now line.now place.now }
    requires at { step.now.at ≡ place.now.at }
    requires lead { step.now.lead ≡ length (supplied (numbered_of lexicon.now place.now).entrance) }
    requires possible { IsPossible lexicon.now line.now (numbered_of lexicon.now place.now) (key_of step.now) }
    ensures exact { IsLetterTestOf lexicon.now line.now choices.now (numbered_of lexicon.now place.now) (key_of step.now) result }
{
    let rules = lexicon.rules();
    let ahead = Ahead::of(rules, line, place);
    let key = step.key();
    if ahead.limit < place.at + key.taken || !may_begin(rules, place, key.phase) {
        return LetterTest::Refused;
    }
    ahead.test(lexicon, line, choices, place, key)
}
