ghost use Rattle.std.specs.Prelude.{◌≡◌, ◌+◌, ◌<◌, ◌≤◌, ℕ, length};
ghost use Rattle.text_definitions.specs.Lines.{IsLine};
ghost use Rattle.annotated_trie.specs.Searched.{IsSearchedLexicon};
ghost use Rattle.derivation.specs.Steps.{key_of, key_meant};
ghost use Rattle.search_frames.specs.Frames.{IsPlaced, ChangesFrom, HasSet, here_of, step_of, frame_of};
ghost use Rattle.search_frames.specs.Guided.{IsGuideOf};
ghost use Rattle.search_frames.specs.Reached.{IsReached};
ghost use Rattle.search_frames.specs.Costs.{HasAtMostRules, steps_of_frame};
ghost use Rattle.search_frames.specs.Turns.{IsTurn, HasFallen, StandsToTry, first_to_try};
ghost use Rattle.search_frames.specs.Stacks.{IsStack};
ghost use Rattle.search_frames.specs.declared.guiding.ToTry.TheVariants.{Later as AfterStep};
ghost use Rattle.lexicon_definitions.specs.declared.limits.TheConstants.{MOST_RULES};

use super::guiding::{SearchGuide, ToTry};
use super::search_space::SearchSpace;
use super::testing::Test;
use super::turning::turn_from;
use super::{Configuration, Resumption};
use derivation::{Key, Step};
use lexicon_definitions::MOST_FORM_LETTERS;
use outside::Steps;

/// The first key that is still to try at a frame with the step.
#[inline(always)]
fn first_to_try(step: &Step, to_try: ToTry) -> Key
    requires { to_try ≡ AfterStep → step.now.rule ≤ MOST_RULES }
    ensures { key_meant result ≡ first_to_try (key_of step.now) to_try }
{
    match to_try {
        ToTry::All => Key {
            phase: 0,
            taken: MOST_FORM_LETTERS as u32,
            rule: 0,
        },
        ToTry::Later => Key {
            phase: step.phase,
            taken: step.taken,
            rule: step.rule + 1,
        },
    }
}

/// Brings the frame at the level, counted from 0, to the key.
#[inline(always)]
pub(crate) fn stand_at(stack: &mut Resumption, level: usize, key: Key)
    requires stack { IsStack stack.old }
    requires there { level < length stack.old.frames.items }
    ensures { HasSet level (record (step_of stack.old level) { phase = key.phase; taken = key.taken; rule = key.rule }) (frame_of stack.old level) stack.old stack.new }
{
    stack.steps[level].phase = key.phase;
    stack.steps[level].taken = key.taken;
    stack.steps[level].rule = key.rule;
}

/// Brings the frame at the level, counted from 0, which has still to try what is said, to its next key that leads on or ends the line,
/// and tells which; it is `Refused` where there is no such key. It leaves out keys with which no path to an answer begins, as far as the
/// guide tells. A step is counted for each phase, each letter that is walked, each group of rules, each rule, each way that is kept and
/// each question to the guide.
#[inline(always)]
pub fn turn<D: SearchGuide, L>(
    space: &SearchSpace<'_, D>,
    stack: &mut Resumption,
    level: usize,
    to_try: ToTry,
    steps: &mut Steps<L>,
) -> Test
    requires searched { IsSearchedLexicon space.now.lexicon.now }
    requires line { IsLine space.now.line.now }
    requires guide { IsGuideOf space.now.lexicon.now space.now.line.now space.now.choices.now (D.covers space.now.guide.now) (D.says space.now.guide.now) }
    requires known { D.known space.now.guide.now space.now.lexicon.now space.now.line.now space.now.choices.now }
    requires placed { IsPlaced space.now.lexicon.now space.now.line.now stack.old level }
    requires stands { StandsToTry space.now.lexicon.now space.now.line.now stack.old level to_try }
    requires reached { IsReached space.now.lexicon.now space.now.line.now space.now.choices.now (here_of space.now.lexicon.now stack.old level) }
    ensures turn { IsTurn space.now.lexicon.now space.now.line.now space.now.choices.now (D.says space.now.guide.now) level to_try stack.old stack.new result }
    ensures falls { HasFallen space.now.lexicon.now level to_try stack.old stack.new result }
    ensures changes { ChangesFrom level stack.old stack.new }
    ensures steps { (most : ℕ) → HasAtMostRules space.now.lexicon.now.tries most → steps.new ≤ steps.old + steps_of_frame space.now.lexicon.now most }
{
    let place = Configuration::of_frame(stack, level);
    let from = first_to_try(&stack.steps[level], to_try);
    let Some((key, test)) = turn_from(space, &place, from, &mut stack.nodes, steps) else {
        return Test::Refused;
    };
    stand_at(stack, level, key);
    test
}
