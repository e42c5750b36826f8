ghost use Rattle.std.specs.Prelude.{◌≡◌, ◌<◌, List, length};
ghost use Rattle.text_definitions.specs.Lines.{IsLine, Line as LineValue};
ghost use Rattle.segmentation_definitions.specs.Items.{Choice};
ghost use Rattle.segmentation_definitions.specs.Listings.{Key};
ghost use Rattle.phase_automaton.specs.Automata.{IsStateIn};
ghost use Rattle.derivation.specs.Steps.{key_of};
ghost use Rattle.answer_paths.specs.Fronts.{supplied};
ghost use Rattle.search_frames.specs.Frames.{IsConfigurationIn, numbered_of};
ghost use Rattle.search_frames.specs.Configurations.{IsPossible};
ghost use Rattle.search_frames.specs.LetterTests.{IsLetterTestOf};
ghost use Rattle.search_frames.specs.Tests.{IsTestOf};

use super::Configuration;
use super::letter_testing::{LetterTest, test_letters};
use annotated_trie::Lexicon;
use derivation::Step;
use phoneme::Line;
use reader_choices::Choices;

/// What a key does at a configuration: it neither leads on nor ends the line, or there is no such key; or it ends the line; or it leads on
/// to another configuration.
#[derive(Clone, Copy)]
pub enum Test {
    Refused,
    Ends,
    LeadsOn(Configuration),
}

/// What a key of this phase does at the configuration, where the test says what its letters do there.
#[inline(always)]
pub(crate) fn test_in_grammar(
    lexicon: &Lexicon,
    place: &Configuration,
    phase: u32,
    test: LetterTest,
) -> Test
    requires state { IsStateIn lexicon.now.machine place.now.state }
    requires phase { phase < length lexicon.now.lexicon.rules.names }
    ensures exact { (line : LineValue) (choices : List Choice) (key : Key) → IsConfigurationIn lexicon.now line place.now → key.phase ≡ phase → IsPossible lexicon.now line (numbered_of lexicon.now place.now) key → IsLetterTestOf lexicon.now line choices (numbered_of lexicon.now place.now) key test → IsTestOf lexicon.now line choices (numbered_of lexicon.now place.now) key result }
{
    // Its contract says that the lexicon can be searched.
    lexicon.rules();
    let automaton = lexicon.automaton();
    match test {
        LetterTest::Refused => Test::Refused,
        LetterTest::Ends => {
            let state = automaton.step(place.state, phase);
            if automaton.accepts(state) {
                Test::Ends
            } else {
                Test::Refused
            }
        }
        LetterTest::LeadsOn { at, entrance } => {
            let state = automaton.step(place.state, phase);
            if automaton.live(state) {
                Test::LeadsOn(Configuration {
                    at,
                    entrance,
                    state,
                })
            } else {
                Test::Refused
            }
        }
    }
}

/// What the step, whose key is possible at the configuration, does there.
pub fn test_key(
    lexicon: &Lexicon,
    line: &Line,
    choices: &Choices,
    place: &Configuration,
    step: &Step,
) -> Test
    requires line { IsLine line.now }
    requires place { IsConfigurationIn lexicon.now line.now place.now }
    requires at { step.now.at ≡ place.now.at }
    requires lead { step.now.lead ≡ length (supplied (numbered_of lexicon.now place.now).entrance) }
    requires possible { IsPossible lexicon.now line.now (numbered_of lexicon.now place.now) (key_of step.now) }
    ensures exact { IsTestOf lexicon.now line.now choices.now (numbered_of lexicon.now place.now) (key_of step.now) result }
{
    // Its contract says that the lexicon can be searched.
    lexicon.rules();
    let test = test_letters(lexicon, line, choices, place, step);
    test_in_grammar(lexicon, place, step.phase, test)
}
