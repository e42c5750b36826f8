ghost use Rattle.std.specs.Prelude.{◌≡◌, ◌≢◌, ◌+◌, ◌*◌, ◌≤◌, ℕ, length, [], List, IfOk, IfErr};
ghost use Rattle.std.specs.Bool.{OnTrue, OnFalse};
ghost use Rattle.segmentation_definitions.specs.Derivations.{Step};
ghost use Rattle.segmentation_definitions.specs.Listings.{AtAnswer};
ghost use Rattle.annotated_trie.specs.Searched.{IsSearchedLexicon};
ghost use Rattle.search_frames.specs.declared.cursor.Cursor.TheVariants as cursor;
ghost use Rattle.segmenter.specs.declared.resuming.ResumeError.TheVariants.{NotAnAnswer as ErrorNotAnAnswer, Memory as ErrorMemory};
ghost use Rattle.search_frames.specs.Stacks.{KeepsBefore, cursor_in};
ghost use Rattle.derivation.specs.Steps.{keys_meant};
ghost use Rattle.search_frames.specs.Guided.{IsGuideOf, IsExactOf};
ghost use Rattle.search_frames.specs.Costs.{HasAtMostRules};
ghost use Rattle.segmentation_definitions.specs.StepBounds.{advance_bound};
ghost use Rattle.segmenter.specs.MoveCosts.{AreKnownExact, steps_of_levels};
ghost use Rattle.segmenter.specs.Searches.{IsStackOf, AreNoKeys, StandsAtKeys, Skipped, HasSkippedAll};
ghost use Rattle.segmenter.specs.Skips.{HasNonePast, StandsPast, HasSkipped, HasSkippedOut, value_of};

use super::finding::find_later;
use super::keyed::find_keys;
use super::search::{Search, empty_stack, opening};
use super::shown_lexicon::show_lexicon;
use annotated_trie::Lexicon;
use derivation::Key;
use outside::Steps;
use phoneme::{Line, Memory};
use reader_choices::Choices;
use search_frames::{Cursor, Resumption, SearchGuide, SearchSpace};
use std::alloc::Global;
use thiserror::Error;

/// Why a search was not resumed at the keys: they are those of no answer, or want of memory.
#[derive(Clone, Copy, Debug, Error)]
pub enum ResumeError {
    #[error("the keys are those of no answer")]
    NotAnAnswer,
    #[error("out of memory")]
    Memory,
}

impl From<Memory> for ResumeError {
    ghost from_gives = { λ _ e. e ≡ ErrorMemory };

    fn from(_refused: Memory) -> ResumeError {
        ResumeError::Memory
    }
}

impl<'a, D: SearchGuide> Search<'a, D> {
    /// A search that stands at the answer with these keys, or before the first answer where no keys are given. It is made from the
    /// keys alone, and asks no guide.
    pub fn resume(
        alloc: Global,
        lexicon: &'a Lexicon,
        line: &'a Line,
        choices: &'a Choices,
        guide: &'a D,
        keys: &[Key],
    ) -> Result<Search<'a, D>, ResumeError>
        requires guide { IsGuideOf lexicon.now line.now choices.now (D.covers guide.now) (D.says guide.now) }
        requires known { D.known guide.now lexicon.now line.now choices.now }
        ensures over { IfOk result (λ search. search ≡ record { searched = lexicon.now; line = line.now; choices = choices.now; cursor = search.cursor }) }
        ensures at { IfOk result (λ search. StandsAtKeys search (keys_meant keys.now)) }
        ensures not_an_answer { IfErr result (λ error. error ≡ ErrorNotAnAnswer → (keys.now ≢ []) × AreNoKeys lexicon.now line.now choices.now (keys_meant keys.now)) }
    {
        show_lexicon(lexicon);
        let mut stack = empty_stack(alloc, lexicon, line)?;
        let space = SearchSpace {
            lexicon,
            line,
            choices,
            guide,
        };
        if !go_to_keys(&space, &mut stack, keys) {
            return Err(ResumeError::NotAnAnswer);
        }
        Ok(Search::go_on(lexicon, line, choices, guide, stack))
    }

    /// Moves past the first keys of the answer at which the search stands, as many as `depth` or all where it has fewer: to the first
    /// later answer whose first keys are others. False where there is no such answer; then the search stands past the last. Takes no
    /// memory, and no more steps than `advance` may take.
    pub fn skip<L>(&mut self, depth: u32, steps: &mut Steps<L>) -> bool
        requires at { (answer : List Step) × (self.old.cursor ≡ AtAnswer answer) }
        requires depth { 1 ≤ depth }
        ensures moved { OnTrue result (Skipped depth self.old self.new) }
        ensures ended { OnFalse result (HasSkippedAll depth self.old self.new) }
        ensures steps { AreKnownExact D D.known D.says self.old → (most : ℕ) → HasAtMostRules self.old.searched.tries most → steps.new ≤ steps.old + advance_bound self.old.searched.lexicon most (length self.old.line.letters) }
    {
        skip_on(&self.space, &mut self.stack, depth, steps)
    }
}

/// Brings a stack that stands before the first answer to the answer with these keys; where no keys are given it stays. False where no
/// answer has the keys.
fn go_to_keys<D: SearchGuide>(
    space: &SearchSpace<'_, D>,
    stack: &mut Resumption,
    keys: &[Key],
) -> bool
    requires searched { IsSearchedLexicon space.now.lexicon.now }
    requires stack { IsStackOf space.now.lexicon.now space.now.line.now space.now.choices.now stack.old }
    requires before { cursor_in stack.old ≡ cursor.Before }
    ensures stack { OnTrue result (IsStackOf space.now.lexicon.now space.now.line.now space.now.choices.now stack.new) }
    ensures at { OnTrue result (StandsAtKeys (value_of space.now.lexicon.now space.now.line.now space.now.choices.now stack.new) (keys_meant keys.now)) }
    ensures none { OnFalse result ((keys.now ≢ []) × AreNoKeys space.now.lexicon.now space.now.line.now space.now.choices.now (keys_meant keys.now)) }
{
    if keys.is_empty() {
        return true;
    }
    if !find_keys(space, stack, 0, opening(space.lexicon), keys) {
        return false;
    }
    stack.stand_at(Cursor::At);
    true
}

/// Finds the least answer past the first keys of the one at which the stack stands. False where there is no such answer.
fn find_past<D: SearchGuide, L>(
    space: &SearchSpace<'_, D>,
    stack: &mut Resumption,
    depth: u32,
    steps: &mut Steps<L>,
) -> bool
    requires searched { IsSearchedLexicon space.now.lexicon.now }
    requires guide { IsGuideOf space.now.lexicon.now space.now.line.now space.now.choices.now (D.covers space.now.guide.now) (D.says space.now.guide.now) }
    requires known { D.known space.now.guide.now space.now.lexicon.now space.now.line.now space.now.choices.now }
    requires stack { IsStackOf space.now.lexicon.now space.now.line.now space.now.choices.now stack.old }
    requires at { cursor_in stack.old ≡ cursor.At }
    requires depth { 1 ≤ depth }
    ensures found { OnTrue result (StandsPast space.now.lexicon.now space.now.line.now space.now.choices.now depth stack.old stack.new) }
    ensures none { OnFalse result (HasNonePast depth (value_of space.now.lexicon.now space.now.line.now space.now.choices.now stack.old)) }
    ensures changes { KeepsBefore 0 stack.old stack.new }
    ensures steps { IsExactOf space.now.lexicon.now space.now.line.now space.now.choices.now (D.says space.now.guide.now) → (most : ℕ) → HasAtMostRules space.now.lexicon.now.tries most → steps.new ≤ steps.old + steps_of_levels space.now.lexicon.now most (4 * length space.now.line.now.letters) }
{
    let in_use = depth.min(stack.depth());
    stack.use_frames(in_use);
    find_later(space, stack, 0, steps)
}

/// Moves the stack to the least answer past the first keys of the one at which it stands. False where there is no such answer; then
/// it stands past the last.
fn skip_on<D: SearchGuide, L>(
    space: &SearchSpace<'_, D>,
    stack: &mut Resumption,
    depth: u32,
    steps: &mut Steps<L>,
) -> bool
    requires searched { IsSearchedLexicon space.now.lexicon.now }
    requires guide { IsGuideOf space.now.lexicon.now space.now.line.now space.now.choices.now (D.covers space.now.guide.now) (D.says space.now.guide.now) }
    requires known { D.known space.now.guide.now space.now.lexicon.now space.now.line.now space.now.choices.now }
    requires stack { IsStackOf space.now.lexicon.now space.now.line.now space.now.choices.now stack.old }
    requires at { cursor_in stack.old ≡ cursor.At }
    requires depth { 1 ≤ depth }
    ensures stack { IsStackOf space.now.lexicon.now space.now.line.now space.now.choices.now stack.new }
    ensures moved { OnTrue result (HasSkipped space.now.lexicon.now space.now.line.now space.now.choices.now depth stack.old stack.new) }
    ensures ended { OnFalse result (HasSkippedOut space.now.lexicon.now space.now.line.now space.now.choices.now depth stack.old stack.new) }
    ensures steps { IsExactOf space.now.lexicon.now space.now.line.now space.now.choices.now (D.says space.now.guide.now) → (most : ℕ) → HasAtMostRules space.now.lexicon.now.tries most → steps.new ≤ steps.old + steps_of_levels space.now.lexicon.now most (4 * length space.now.line.now.letters) }
{
    let found = find_past(space, stack, depth, steps);
    let cursor = if found { Cursor::At } else { Cursor::Past };
    stack.stand_at(cursor);
    found
}
