ghost use Rattle.std.specs.Prelude.{◌≡◌, ◌+◌, ◌*◌, ◌≤◌, length, MatchOption};
ghost use Rattle.text_definitions.specs.Lines.{IsLine};
ghost use Rattle.annotated_trie.specs.Searched.{IsSearchedLexicon};
ghost use Rattle.derivation.specs.Steps.{key_meant};
ghost use Rattle.search_frames.specs.declared.way.TheConstants.{MOST_WAYS};
ghost use Rattle.search_frames.specs.Frames.{IsConfigurationIn, numbered_of};
ghost use Rattle.search_frames.specs.Guided.{IsGuideOf};
ghost use Rattle.search_frames.specs.Reached.{IsReached};
ghost use Rattle.search_frames.specs.FirstKeys.{HasNoneOf, IsFirstOf, IsFrom};
ghost use Rattle.search_frames.specs.WaysFrom.{AreAllWays};

use super::Configuration;
use super::guiding::SearchGuide;
use super::judging::judge_way;
use super::search_space::SearchSpace;
use super::testing::Test;
use super::way::{MOST_WAYS, Way};
use derivation::Key;
use outside::Steps;

/// The first key of the ways that does not come before `from`, and what it does. The ways are from the place, and each path from there
/// begins with one of them.
#[inline(always)]
pub(crate) fn turn_among_ways<D: SearchGuide, L>(
    space: &SearchSpace<'_, D>,
    place: &Configuration,
    from: Key,
    ways: &[Way],
    steps: &mut Steps<L>,
) -> Option<(Key, Test)>
    requires searched { IsSearchedLexicon space.now.lexicon.now }
    requires line { IsLine space.now.line.now }
    requires guide { IsGuideOf space.now.lexicon.now space.now.line.now space.now.choices.now (D.covers space.now.guide.now) (D.says space.now.guide.now) }
    requires place { IsConfigurationIn space.now.lexicon.now space.now.line.now place.now }
    requires reached { IsReached space.now.lexicon.now space.now.line.now space.now.choices.now (numbered_of space.now.lexicon.now place.now) }
    requires ways { AreAllWays space.now.lexicon.now space.now.line.now space.now.choices.now (numbered_of space.now.lexicon.now place.now) ways.now }
    requires few { length ways.now ≤ MOST_WAYS }
    ensures first { MatchOption result (HasNoneOf space.now.lexicon.now space.now.line.now space.now.choices.now (numbered_of space.now.lexicon.now place.now) (IsFrom (key_meant from)))
        (λ found. IsFirstOf space.now.lexicon.now space.now.line.now space.now.choices.now (D.says space.now.guide.now) (numbered_of space.now.lexicon.now place.now) (IsFrom (key_meant from)) (key_meant found.0) found.1) }
    ensures steps { steps.new ≤ steps.old + 2 * MOST_WAYS }
{
    for way in ways {
        steps.tick();
        if way.key.compare(&from).is_lt() {
            continue;
        }
        match judge_way(space, place, way, steps) {
            Test::Refused => {}
            test => return Some((way.key, test)),
        }
    }
    None
}
