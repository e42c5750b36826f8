ghost use Rattle.std.specs.Prelude.{◌≡◌, ◌<◌, length};
ghost use Rattle.search_frames.specs.Stacks.{IsStack};
ghost use Rattle.search_frames.specs.Frames.{IsPlaced, IsConfigurationIn, ChangesFrom, configuration_at};

use super::walking::supplied_letters;
use super::{Configuration, Frame, Resumption};
use annotated_trie::Lexicon;
use derivation::Step;
use phoneme::Line;

/// Makes the frame at the level, counted from 0, one that stands at the configuration.
#[inline(always)]
pub fn open_frame(
    lexicon: &Lexicon,
    line: &Line,
    stack: &mut Resumption,
    level: usize,
    place: Configuration,
)
    requires stack { IsStack stack.old }
    requires there { level < length stack.old.frames.items }
    requires place { IsConfigurationIn lexicon.now line.now place }
    ensures placed { IsPlaced lexicon.now line.now stack.new level }
    ensures place { configuration_at stack.new level ≡ place }
    ensures changes { ChangesFrom level stack.old stack.new }
{
    // The line is that of which the contract speaks.
    let _letters = &line.letters;
    stack.steps[level] = Step {
        phase: 0,
        rule: 0,
        at: place.at,
        lead: supplied_letters(lexicon.rules(), place.entrance).len() as u32,
        taken: 0,
    };
    stack.frames[level] = Frame {
        entrance: place.entrance,
        state: place.state,
    };
}
