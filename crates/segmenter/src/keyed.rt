ghost use Rattle.std.specs.Prelude.{◌<◌, length};
ghost use Rattle.std.specs.Bool.{OnTrue, OnFalse};
ghost use Rattle.text_definitions.specs.Lines.{IsLine};
ghost use Rattle.listing_laws.specs.Ways.{IsPath};
ghost use Rattle.annotated_trie.specs.Searched.{IsSearchedLexicon};
ghost use Rattle.search_frames.specs.Configurations.{ways_in};
ghost use Rattle.search_frames.specs.Stacks.{IsStack, KeepsBefore, room_of};
ghost use Rattle.search_frames.specs.Frames.{IsConfigurationIn, numbered_of};
ghost use Rattle.search_frames.specs.Tests.{IsTestOf};
ghost use Rattle.search_frames.specs.Reached.{IsReached};
ghost use Rattle.segmenter.specs.Chains.{AreFrames, HasRoom};
ghost use Rattle.derivation.specs.Steps.{key_meant, keys_meant};
ghost use Rattle.segmenter.specs.GivenKeys.{StandsUnlessRefused};

use derivation::Key;
use search_frames::{
    Configuration, Resumption, SearchGuide, SearchSpace, Test, open_frame, seek, test_key,
};

/// Makes the frame at the level, counted from 0, one that stands at the configuration and at the key, and tells what the key does
/// there.
fn stand_at_key<D: SearchGuide>(
    space: &SearchSpace<'_, D>,
    stack: &mut Resumption,
    level: usize,
    place: Configuration,
    key: Key,
) -> Test
    requires searched { IsSearchedLexicon space.now.lexicon.now }
    requires line { IsLine space.now.line.now }
    requires stack { IsStack stack.old }
    requires there { level < room_of stack.old }
    requires place { IsConfigurationIn space.now.lexicon.now space.now.line.now place }
    ensures exact { IsTestOf space.now.lexicon.now space.now.line.now space.now.choices.now (numbered_of space.now.lexicon.now place) (key_meant key) result }
    ensures stands { StandsUnlessRefused space.now.lexicon.now space.now.line.now stack.new level (numbered_of space.now.lexicon.now place) (key_meant key) result }
    ensures changes { KeepsBefore level stack.old stack.new }
{
    open_frame(space.lexicon, space.line, stack, level, place);
    if !seek(space.lexicon, space.line, stack, level, key) {
        return Test::Refused;
    }
    test_key(
        space.lexicon,
        space.line,
        space.choices,
        &place,
        &stack.step(level),
    )
}

/// Goes from the configuration along the keys, with the frames from the level on. False where the keys are no path from there.
pub(crate) fn find_keys<D: SearchGuide>(
    space: &SearchSpace<'_, D>,
    stack: &mut Resumption,
    level: usize,
    place: Configuration,
    keys: &[Key],
) -> bool
    requires searched { IsSearchedLexicon space.now.lexicon.now }
    requires line { IsLine space.now.line.now }
    requires stack { IsStack stack.old }
    requires place { IsConfigurationIn space.now.lexicon.now space.now.line.now place }
    requires reached { IsReached space.now.lexicon.now space.now.line.now space.now.choices.now (numbered_of space.now.lexicon.now place) }
    requires room { HasRoom space.now.line.now stack.old level (numbered_of space.now.lexicon.now place) }
    ensures found { OnTrue result (AreFrames space.now.lexicon.now space.now.line.now stack.new level (numbered_of space.now.lexicon.now place) (keys_meant keys.now)
        × IsPath (ways_in space.now.lexicon.now space.now.line.now space.now.choices.now) (numbered_of space.now.lexicon.now place) (keys_meant keys.now)) }
    ensures not_there { OnFalse result (IsPath (ways_in space.now.lexicon.now space.now.line.now space.now.choices.now) (numbered_of space.now.lexicon.now place) (keys_meant keys.now) → ⊥) }
    ensures changes { KeepsBefore level stack.old stack.new }
{
    let [key, rest @ ..] = keys else {
        return false;
    };
    match stand_at_key(space, stack, level, place, *key) {
        Test::Refused => false,
        Test::Ends => {
            stack.use_frames(level as u32 + 1);
            rest.is_empty()
        }
        Test::LeadsOn(next) => find_keys(space, stack, level + 1, next, rest),
    }
}
