ghost use Rattle.std.specs.Prelude.{◌≡◌, ◌<◌, length};
ghost use Rattle.search_frames.specs.Stacks.{IsStack};
ghost use Rattle.search_frames.specs.Frames.{configuration_at};

use super::Resumption;
use derivation::Entrance;
use phase_automaton::State;

/// How far a search has come between two forms: how many letters of the line are derived, how the next form is entered, and the
/// state of the grammar after the phases so far.
#[derive(Clone, Copy)]
pub struct Configuration {
    pub at: u32,
    pub entrance: Entrance,
    pub state: State,
}

impl Configuration {
    /// The configuration of the frame at the level, counted from 0.
    #[inline(always)]
    pub fn of_frame(stack: &Resumption, level: usize) -> Configuration
        requires stack { IsStack stack.now }
        requires there { level < length stack.now.frames.items }
        ensures { result ≡ configuration_at stack.now level }
    {
        let frame = stack.frames[level];
        Configuration {
            at: stack.steps[level].at,
            entrance: frame.entrance,
            state: frame.state,
        }
    }
}
