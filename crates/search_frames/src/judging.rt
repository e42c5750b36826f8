ghost use Rattle.std.specs.Prelude.{◌≡◌, ◌+◌, ◌≤◌, length};
ghost use Rattle.text_definitions.specs.Lines.{IsLine};
ghost use Rattle.annotated_trie.specs.Searched.{IsSearchedLexicon};
ghost use Rattle.derivation.specs.Steps.{key_of, key_meant};
ghost use Rattle.answer_paths.specs.Fronts.{supplied};
ghost use Rattle.search_frames.specs.Frames.{IsConfigurationIn, numbered_of};
ghost use Rattle.search_frames.specs.Configurations.{IsPossible};
ghost use Rattle.search_frames.specs.Guided.{IsGuideOf};
ghost use Rattle.search_frames.specs.Reached.{IsReached};
ghost use Rattle.search_frames.specs.FirstKeys.{IsJudged};
ghost use Rattle.search_frames.specs.LetterTests.{IsLetterTestOf};
ghost use Rattle.search_frames.specs.WaysFrom.{IsWayFrom, key_of_way};

use super::Configuration;
use super::guiding::SearchGuide;
use super::letter_testing::{LetterTest, test_letters};
use super::search_space::SearchSpace;
use super::testing::{Test, test_in_grammar};
use super::way::Way;
use derivation::{Key, Step};
use outside::Steps;

/// What the key, which is possible at the place, does there, where the test says what its letters do. It is refused as well where the guide
/// says that no answer goes on from where it leads.
#[inline(always)]
fn judge_test<D: SearchGuide, L>(
    space: &SearchSpace<'_, D>,
    place: &Configuration,
    key: Key,
    test: LetterTest,
    steps: &mut Steps<L>,
) -> Test
    requires searched { IsSearchedLexicon space.now.lexicon.now }
    requires line { IsLine space.now.line.now }
    requires guide { IsGuideOf space.now.lexicon.now space.now.line.now space.now.choices.now (D.covers space.now.guide.now) (D.says space.now.guide.now) }
    requires place { IsConfigurationIn space.now.lexicon.now space.now.line.now place.now }
    requires reached { IsReached space.now.lexicon.now space.now.line.now space.now.choices.now (numbered_of space.now.lexicon.now place.now) }
    requires possible { IsPossible space.now.lexicon.now space.now.line.now (numbered_of space.now.lexicon.now place.now) (key_meant key) }
    requires test { IsLetterTestOf space.now.lexicon.now space.now.line.now space.now.choices.now (numbered_of space.now.lexicon.now place.now) (key_meant key) test }
    ensures judged { IsJudged space.now.lexicon.now space.now.line.now space.now.choices.now (D.says space.now.guide.now) (numbered_of space.now.lexicon.now place.now) (key_meant key) result }
    ensures steps { steps.new ≤ steps.old + 1 }
{
    match test_in_grammar(space.lexicon, place, key.phase, test) {
        Test::LeadsOn(next) => {
            if space.guide.live(next.at, next.entrance, next.state, steps) {
                Test::LeadsOn(next)
            } else {
                Test::Refused
            }
        }
        told => told,
    }
}

/// What the step, whose key is possible at the place, does there. It is refused as well where the guide says that no answer goes on from
/// where it leads.
pub(crate) fn judge<D: SearchGuide, L>(
    space: &SearchSpace<'_, D>,
    place: &Configuration,
    step: &Step,
    steps: &mut Steps<L>,
) -> Test
    requires searched { IsSearchedLexicon space.now.lexicon.now }
    requires line { IsLine space.now.line.now }
    requires guide { IsGuideOf space.now.lexicon.now space.now.line.now space.now.choices.now (D.covers space.now.guide.now) (D.says space.now.guide.now) }
    requires place { IsConfigurationIn space.now.lexicon.now space.now.line.now place.now }
    requires reached { IsReached space.now.lexicon.now space.now.line.now space.now.choices.now (numbered_of space.now.lexicon.now place.now) }
    requires at { step.now.at ≡ place.now.at }
    requires lead { step.now.lead ≡ length (supplied (numbered_of space.now.lexicon.now place.now).entrance) }
    requires possible { IsPossible space.now.lexicon.now space.now.line.now (numbered_of space.now.lexicon.now place.now) (key_of step.now) }
    ensures judged { IsJudged space.now.lexicon.now space.now.line.now space.now.choices.now (D.says space.now.guide.now) (numbered_of space.now.lexicon.now place.now) (key_of step.now) result }
    ensures steps { steps.new ≤ steps.old + 1 }
{
    let test = test_letters(space.lexicon, space.line, space.choices, place, step);
    judge_test(space, place, step.key(), test, steps)
}

/// What the way does at the place, from which it is one: the same.
#[inline(always)]
pub(crate) fn judge_way<D: SearchGuide, L>(
    space: &SearchSpace<'_, D>,
    place: &Configuration,
    way: &Way,
    steps: &mut Steps<L>,
) -> Test
    requires searched { IsSearchedLexicon space.now.lexicon.now }
    requires line { IsLine space.now.line.now }
    requires guide { IsGuideOf space.now.lexicon.now space.now.line.now space.now.choices.now (D.covers space.now.guide.now) (D.says space.now.guide.now) }
    requires place { IsConfigurationIn space.now.lexicon.now space.now.line.now place.now }
    requires reached { IsReached space.now.lexicon.now space.now.line.now space.now.choices.now (numbered_of space.now.lexicon.now place.now) }
    requires way { IsWayFrom space.now.lexicon.now space.now.line.now space.now.choices.now (numbered_of space.now.lexicon.now place.now) way.now }
    ensures judged { IsJudged space.now.lexicon.now space.now.line.now space.now.choices.now (D.says space.now.guide.now) (numbered_of space.now.lexicon.now place.now) (key_of_way way.now) result }
    ensures steps { steps.new ≤ steps.old + 1 }
{
    judge_test(space, place, way.key, way.test, steps)
}
