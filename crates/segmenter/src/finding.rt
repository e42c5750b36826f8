ghost use Rattle.std.specs.Prelude.{◌≡◌, ◌<◌, ◌≤◌, true, ◌+◌, ◌-◌, ◌∷◌, ℕ, List};
ghost use Rattle.std.specs.Bool.{OnTrue, OnFalse};
ghost use Rattle.text_definitions.specs.Lines.{IsLine};
ghost use Rattle.segmentation_definitions.specs.Listings.{Key};
ghost use Rattle.annotated_trie.specs.Searched.{IsSearchedLexicon};
ghost use Rattle.search_frames.specs.Stacks.{IsStack, KeepsBefore, depth_of};
ghost use Rattle.search_frames.specs.Frames.{IsPlaced, IsConfigurationIn, numbered_of, here_of, key_at};
ghost use Rattle.search_frames.specs.Guided.{IsGuideOf, IsExactOf};
ghost use Rattle.search_frames.specs.Costs.{HasAtMostRules, steps_of_frame};
ghost use Rattle.search_frames.specs.Reached.{IsReached};
ghost use Rattle.search_frames.specs.Turns.{StandsToTry};
ghost use Rattle.segmenter.specs.MoveCosts.{steps_of_levels, levels_from, levels_after};
ghost use Rattle.segmenter.specs.Chains.{AreFrames, HasFound, HasNone, Every, BeginsToTry, ComesAfter, LeadAlong, HasRoom};

use outside::Steps;
use search_frames::{
    Configuration, Resumption, SearchGuide, SearchSpace, Test, ToTry, open_frame, turn,
};

/// Finds the first path from the configuration, with the frames from the level on. False where there is no path.
#[cycle(find)]
pub(crate) fn find_first<D: SearchGuide, L>(
    space: &SearchSpace<'_, D>,
    stack: &mut Resumption,
    level: usize,
    place: Configuration,
    steps: &mut Steps<L>,
) -> bool
    requires searched { IsSearchedLexicon space.now.lexicon.now }
    requires line { IsLine space.now.line.now }
    requires guide { IsGuideOf space.now.lexicon.now space.now.line.now space.now.choices.now (D.covers space.now.guide.now) (D.says space.now.guide.now) }
    requires known { D.known space.now.guide.now space.now.lexicon.now space.now.line.now space.now.choices.now }
    requires stack { IsStack stack.old }
    requires place { IsConfigurationIn space.now.lexicon.now space.now.line.now place }
    requires reached { IsReached space.now.lexicon.now space.now.line.now space.now.choices.now (numbered_of space.now.lexicon.now place) }
    requires room { HasRoom space.now.line.now stack.old level (numbered_of space.now.lexicon.now place) }
    ensures found { OnTrue result (HasFound space.now.lexicon.now space.now.line.now space.now.choices.now Every stack.new level (numbered_of space.now.lexicon.now place)) }
    ensures none { OnFalse result (HasNone space.now.lexicon.now space.now.line.now space.now.choices.now Every (numbered_of space.now.lexicon.now place)) }
    ensures changes { KeepsBefore level stack.old stack.new }
    ensures exact { IsExactOf space.now.lexicon.now space.now.line.now space.now.choices.now (D.says space.now.guide.now) → D.says space.now.guide.now place.at place.entrance place.state ≡ true → result ≡ true }
    ensures steps_on { IsExactOf space.now.lexicon.now space.now.line.now space.now.choices.now (D.says space.now.guide.now) → (most : ℕ) → HasAtMostRules space.now.lexicon.now.tries most
        → OnTrue result (steps.new ≤ steps.old + steps_of_levels space.now.lexicon.now most (levels_from space.now.line.now (numbered_of space.now.lexicon.now place))) }
{
    open_frame(space.lexicon, space.line, stack, level, place);
    find_next(space, stack, level, ToTry::All, steps)
}

/// Finds the first path from where the frame at the level stands that begins with a key that the frame has still to try. False
/// where there is no such path. The caller says which keys these are.
#[cycle(find)]
pub(crate) fn find_next<D: SearchGuide, L>(
    space: &SearchSpace<'_, D>,
    stack: &mut Resumption,
    level: usize,
    to_try: ToTry,
    steps: &mut Steps<L>,
) -> bool
    requires searched { IsSearchedLexicon space.now.lexicon.now }
    requires line { IsLine space.now.line.now }
    requires guide { IsGuideOf space.now.lexicon.now space.now.line.now space.now.choices.now (D.covers space.now.guide.now) (D.says space.now.guide.now) }
    requires known { D.known space.now.guide.now space.now.lexicon.now space.now.line.now space.now.choices.now }
    requires placed { IsPlaced space.now.lexicon.now space.now.line.now stack.old level }
    requires stands { StandsToTry space.now.lexicon.now space.now.line.now stack.old level to_try }
    requires reached { IsReached space.now.lexicon.now space.now.line.now space.now.choices.now (here_of space.now.lexicon.now stack.old level) }
    requires room { HasRoom space.now.line.now stack.old level (here_of space.now.lexicon.now stack.old level) }
    ensures found { OnTrue result (HasFound space.now.lexicon.now space.now.line.now space.now.choices.now (BeginsToTry (key_at stack.old level) to_try) stack.new level (here_of space.now.lexicon.now stack.old level)) }
    ensures none { OnFalse result (HasNone space.now.lexicon.now space.now.line.now space.now.choices.now (BeginsToTry (key_at stack.old level) to_try) (here_of space.now.lexicon.now stack.old level)) }
    ensures changes { KeepsBefore level stack.old stack.new }
    ensures steps_on { IsExactOf space.now.lexicon.now space.now.line.now space.now.choices.now (D.says space.now.guide.now) → (most : ℕ) → HasAtMostRules space.now.lexicon.now.tries most
        → OnTrue result (steps.new ≤ steps.old + steps_of_frame space.now.lexicon.now most + steps_of_levels space.now.lexicon.now most (levels_after space.now.line.now (here_of space.now.lexicon.now stack.old level))) }
    ensures steps_end { IsExactOf space.now.lexicon.now space.now.line.now space.now.choices.now (D.says space.now.guide.now) → (most : ℕ) → HasAtMostRules space.now.lexicon.now.tries most
        → OnFalse result (steps.new ≤ steps.old + steps_of_frame space.now.lexicon.now most) }
{
    let mut to_try = to_try;
    loop {
        match turn(space, stack, level, to_try, steps) {
            Test::Refused => return false,
            Test::Ends => {
                stack.use_frames(level as u32 + 1);
                return true;
            }
            Test::LeadsOn(next) => {
                if find_first(space, stack, level + 1, next, steps) {
                    return true;
                }
                to_try = ToTry::Later;
            }
        }
    }
}

/// Finds the first path that comes after the keys along which the frames from the level on stand, and does not begin with all of
/// them. False where there is no such path. Goes over the frames in use from the last to the one at the level, since of two such
/// paths that which shares more of these keys comes first.
pub(crate) fn find_later<D: SearchGuide, L>(
    space: &SearchSpace<'_, D>,
    stack: &mut Resumption,
    level: usize,
    steps: &mut Steps<L>,
) -> bool
    requires searched { IsSearchedLexicon space.now.lexicon.now }
    requires line { IsLine space.now.line.now }
    requires guide { IsGuideOf space.now.lexicon.now space.now.line.now space.now.choices.now (D.covers space.now.guide.now) (D.says space.now.guide.now) }
    requires known { D.known space.now.guide.now space.now.lexicon.now space.now.line.now space.now.choices.now }
    requires stack { IsStack stack.old }
    requires below { level < depth_of stack.old }
    requires reached { IsReached space.now.lexicon.now space.now.line.now space.now.choices.now (here_of space.now.lexicon.now stack.old level) }
    requires room { HasRoom space.now.line.now stack.old level (here_of space.now.lexicon.now stack.old level) }
    requires frames { (keys : List Key) × AreFrames space.now.lexicon.now space.now.line.now stack.old level (here_of space.now.lexicon.now stack.old level) keys × LeadAlong space.now.lexicon.now space.now.line.now space.now.choices.now (here_of space.now.lexicon.now stack.old level) keys }
    ensures found { (keys : List Key) → AreFrames space.now.lexicon.now space.now.line.now stack.old level (here_of space.now.lexicon.now stack.old level) keys
        → LeadAlong space.now.lexicon.now space.now.line.now space.now.choices.now (here_of space.now.lexicon.now stack.old level) keys
        → OnTrue result (HasFound space.now.lexicon.now space.now.line.now space.now.choices.now (ComesAfter keys) stack.new level (here_of space.now.lexicon.now stack.old level)) }
    ensures none { (keys : List Key) → AreFrames space.now.lexicon.now space.now.line.now stack.old level (here_of space.now.lexicon.now stack.old level) keys
        → LeadAlong space.now.lexicon.now space.now.line.now space.now.choices.now (here_of space.now.lexicon.now stack.old level) keys
        → OnFalse result (HasNone space.now.lexicon.now space.now.line.now space.now.choices.now (ComesAfter keys) (here_of space.now.lexicon.now stack.old level)) }
    ensures changes { KeepsBefore level stack.old stack.new }
    ensures steps_on { IsExactOf space.now.lexicon.now space.now.line.now space.now.choices.now (D.says space.now.guide.now) → (most : ℕ) → HasAtMostRules space.now.lexicon.now.tries most
        → OnTrue result (steps.new ≤ steps.old + steps_of_levels space.now.lexicon.now most (depth_of stack.old - level + levels_after space.now.line.now (here_of space.now.lexicon.now stack.old level))) }
    ensures steps_end { IsExactOf space.now.lexicon.now space.now.line.now space.now.choices.now (D.says space.now.guide.now) → (most : ℕ) → HasAtMostRules space.now.lexicon.now.tries most
        → OnFalse result (steps.new ≤ steps.old + steps_of_levels space.now.lexicon.now most (depth_of stack.old - level)) }
{
    let mut below = stack.depth() as usize;
    while below > level {
        below -= 1;
        if find_next(space, stack, below, ToTry::Later, steps) {
            return true;
        }
    }
    false
}
