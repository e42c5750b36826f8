ghost use Rattle.std.specs.Prelude.{◌≡◌, ◌+◌, ◌*◌, ◌<◌, ◌≤◌, ℕ, length, IfOk, MatchOption, Some, None, List};
ghost use Rattle.std.specs.Bool.{OnTrue, OnFalse};
ghost use Rattle.text_definitions.specs.Lines.{IsLine, Line as LineValue};
ghost use Rattle.segmentation_definitions.specs.Items.{Choice};
ghost use Rattle.segmentation_definitions.specs.Listings.{BeforeFirst};
ghost use Rattle.annotated_trie.specs.Searched.{IsSearchedLexicon};
ghost use Rattle.search_frames.specs.declared.cursor.Cursor.TheVariants as cursor;
ghost use Rattle.search_frames.specs.Frames.{IsConfigurationIn, numbered_of};
ghost use Rattle.search_frames.specs.Configurations.{opening};
ghost use Rattle.search_frames.specs.Stacks.{IsStack, KeepsBefore, cursor_in};
ghost use Rattle.search_frames.specs.Guided.{IsGuideOf, IsExactOf};
ghost use Rattle.search_frames.specs.Costs.{HasAtMostRules};
ghost use Rattle.segmentation_definitions.specs.StepBounds.{advance_bound};
ghost use Rattle.segmenter.specs.MoveCosts.{AreKnownExact, steps_of_levels};
ghost use Rattle.segmenter.specs.Moves.{StandsAtNext, HasNoNext, HasMoved, HasRunOut};
ghost use Rattle.segmenter.specs.Searches.{IsStackOf, cursor_of, MovedOn, HasEnded, IsCurrent, StandsWhere};

use super::finding::{find_first, find_later};
use super::shown_lexicon::show_lexicon;
use annotated_trie::Lexicon;
use derivation::{Entrance, Step};
use outside::Steps;
use phoneme::{Line, Memory};
use reader_choices::Choices;
use search_frames::{
    Configuration, Cursor, Resumption, SearchGuide, SearchSpace, new_stack, renewed_stack,
};
use std::alloc::Global;
use std::marker::Model;

/// A search for the answers of a line, which stands before the first of them, at one, or past the last (a backtracking search
/// whose stack can be kept, after Huet 2005). The guide says where it need not go on.
#[derive(Drop)]
pub struct Search<'a, D: SearchGuide> {
    pub(crate) space: SearchSpace<'a, D>,
    pub(crate) stack: Resumption,
}

impl<'a, D: SearchGuide> Model for Search<'a, D> {
    ghost use Rattle.annotated_trie.specs.Searched.{IsSearchedLexicon};
    ghost use Rattle.search_frames.specs.Guided.{IsGuideOf};
    ghost use Rattle.segmenter.specs.Searches.{SearchValue, IsStackOf, cursor_of};

    ghost Value = { SearchValue };

    ghost view = { λ s. record { searched = s.space.lexicon.now; line = s.space.line.now; choices = s.space.choices.now; cursor = cursor_of s.space.lexicon.now s.space.line.now s.stack } };

    ghost invariant = { λ s. IsSearchedLexicon s.space.lexicon.now
        × IsGuideOf s.space.lexicon.now s.space.line.now s.space.choices.now (D.covers s.space.guide.now) (D.says s.space.guide.now)
        × IsStackOf s.space.lexicon.now s.space.line.now s.space.choices.now s.stack
        × D.known s.space.guide.now s.space.lexicon.now s.space.line.now s.space.choices.now };
}

impl<'a, D: SearchGuide> Search<'a, D> {
    /// A search that stands before the first answer, with room for the longest. Refused only for want of memory.
    pub fn new(
        alloc: Global,
        lexicon: &'a Lexicon,
        line: &'a Line,
        choices: &'a Choices,
        guide: &'a D,
    ) -> Result<Search<'a, D>, Memory>
        requires guide { IsGuideOf lexicon.now line.now choices.now (D.covers guide.now) (D.says guide.now) }
        requires known { D.known guide.now lexicon.now line.now choices.now }
        ensures ok { IfOk result (λ search. search ≡ record { searched = lexicon.now; line = line.now; choices = choices.now; cursor = BeforeFirst }) }
    {
        let stack = empty_stack(alloc, lexicon, line)?;
        Ok(Search::go_on(lexicon, line, choices, guide, stack))
    }

    /// A search that stands before the first answer, on this stack, which gets room for the longest where it has less. Refused only for
    /// want of memory.
    pub fn over(
        lexicon: &'a Lexicon,
        line: &'a Line,
        choices: &'a Choices,
        guide: &'a D,
        stack: Resumption,
    ) -> Result<Search<'a, D>, Memory>
        requires guide { IsGuideOf lexicon.now line.now choices.now (D.covers guide.now) (D.says guide.now) }
        requires known { D.known guide.now lexicon.now line.now choices.now }
        requires stack { IsStack stack }
        ensures ok { IfOk result (λ search. search ≡ record { searched = lexicon.now; line = line.now; choices = choices.now; cursor = BeforeFirst }) }
    {
        let stack = renewed_stack(stack, lexicon, most_steps(line))?;
        Ok(Search::go_on(lexicon, line, choices, guide, stack))
    }

    /// A search that stands where the resumption does, which came from one over the same lexicon, line and choices. Takes no
    /// memory.
    pub fn go_on(
        lexicon: &'a Lexicon,
        line: &'a Line,
        choices: &'a Choices,
        guide: &'a D,
        from: Resumption,
    ) -> Search<'a, D>
        requires guide { IsGuideOf lexicon.now line.now choices.now (D.covers guide.now) (D.says guide.now) }
        requires known { D.known guide.now lexicon.now line.now choices.now }
        requires stack { IsStackOf lexicon.now line.now choices.now from }
        ensures ok { result ≡ record { searched = lexicon.now; line = line.now; choices = choices.now; cursor = cursor_of lexicon.now line.now from } }
    {
        show_lexicon(lexicon);
        let space = SearchSpace {
            lexicon,
            line,
            choices,
            guide,
        };
        Search { space, stack: from }
    }

    /// Moves to the next answer. False where no answer is left; then the search stands past the last. Takes no memory. Under a guide
    /// that is known to be exact it takes at most twelve steps times the letters of the line, times the phases, times the at most 65
    /// nodes on the way along a form, times one more than the most choices at a node.
    pub fn advance<L>(&mut self, steps: &mut Steps<L>) -> bool
        ensures moved { OnTrue result (MovedOn self.old self.new) }
        ensures ended { OnFalse result (HasEnded self.old self.new) }
        ensures steps { AreKnownExact D D.known D.says self.old → (most : ℕ) → HasAtMostRules self.old.searched.tries most → steps.new ≤ steps.old + advance_bound self.old.searched.lexicon most (length self.old.line.letters) }
    {
        move_on(&self.space, &mut self.stack, steps)
    }

    /// The steps of the answer at which the search stands. `None` before the first answer and past the last.
    pub fn current(&self) -> Option<&[Step]>
        ensures answer { MatchOption result (IsCurrent self.now None) (λ steps. IsCurrent self.now (Some steps.now)) }
    {
        match self.stack.cursor() {
            Cursor::At => Some(self.stack.steps()),
            Cursor::Before | Cursor::Past => None,
        }
    }

    /// A copy of where the search stands, to go on from later. Refused only for want of memory.
    pub fn save(&self, alloc: Global) -> Result<Resumption, Memory>
        ensures ok { IfOk result (StandsWhere self.now) }
    {
        self.stack.copy(alloc)
    }

    /// Where the search stands, to go on from later. Takes no memory.
    pub fn into_resumption(self) -> Resumption
        ensures { StandsWhere self.entry result }
    {
        self.stack
    }
}

/// Finds the first answer, and brings the frames of the stack there. False where there is no answer.
fn find_from_start<D: SearchGuide, L>(
    space: &SearchSpace<'_, D>,
    stack: &mut Resumption,
    steps: &mut Steps<L>,
) -> bool
    requires searched { IsSearchedLexicon space.now.lexicon.now }
    requires guide { IsGuideOf space.now.lexicon.now space.now.line.now space.now.choices.now (D.covers space.now.guide.now) (D.says space.now.guide.now) }
    requires known { D.known space.now.guide.now space.now.lexicon.now space.now.line.now space.now.choices.now }
    requires stack { IsStackOf space.now.lexicon.now space.now.line.now space.now.choices.now stack.old }
    requires before { cursor_in stack.old ≡ cursor.Before }
    ensures found { OnTrue result (StandsAtNext space.now.lexicon.now space.now.line.now space.now.choices.now stack.old stack.new) }
    ensures none { OnFalse result (HasNoNext space.now.lexicon.now space.now.line.now space.now.choices.now stack.old) }
    ensures changes { KeepsBefore 0 stack.old stack.new }
    ensures steps { IsExactOf space.now.lexicon.now space.now.line.now space.now.choices.now (D.says space.now.guide.now) → (most : ℕ) → HasAtMostRules space.now.lexicon.now.tries most → steps.new ≤ steps.old + steps_of_levels space.now.lexicon.now most (4 * length space.now.line.now.letters) }
{
    let start = opening(space.lexicon);
    if !space
        .guide
        .live(start.at, start.entrance, start.state, steps)
    {
        return false;
    }
    find_first(space, stack, 0, start, steps)
}

/// Finds the next answer after where the stack stands, and brings its frames there. False where no answer is left.
fn find_next_answer<D: SearchGuide, L>(
    space: &SearchSpace<'_, D>,
    stack: &mut Resumption,
    steps: &mut Steps<L>,
) -> bool
    requires searched { IsSearchedLexicon space.now.lexicon.now }
    requires guide { IsGuideOf space.now.lexicon.now space.now.line.now space.now.choices.now (D.covers space.now.guide.now) (D.says space.now.guide.now) }
    requires known { D.known space.now.guide.now space.now.lexicon.now space.now.line.now space.now.choices.now }
    requires stack { IsStackOf space.now.lexicon.now space.now.line.now space.now.choices.now stack.old }
    ensures found { OnTrue result (StandsAtNext space.now.lexicon.now space.now.line.now space.now.choices.now stack.old stack.new) }
    ensures none { OnFalse result (HasNoNext space.now.lexicon.now space.now.line.now space.now.choices.now stack.old) }
    ensures changes { KeepsBefore 0 stack.old stack.new }
    ensures steps { IsExactOf space.now.lexicon.now space.now.line.now space.now.choices.now (D.says space.now.guide.now) → (most : ℕ) → HasAtMostRules space.now.lexicon.now.tries most → steps.new ≤ steps.old + steps_of_levels space.now.lexicon.now most (4 * length space.now.line.now.letters) }
{
    match stack.cursor() {
        Cursor::Before => find_from_start(space, stack, steps),
        Cursor::At => find_later(space, stack, 0, steps),
        Cursor::Past => false,
    }
}

/// Moves the stack to the next answer. False where no answer is left; then it stands past the last.
fn move_on<D: SearchGuide, L>(
    space: &SearchSpace<'_, D>,
    stack: &mut Resumption,
    steps: &mut Steps<L>,
) -> bool
    requires searched { IsSearchedLexicon space.now.lexicon.now }
    requires guide { IsGuideOf space.now.lexicon.now space.now.line.now space.now.choices.now (D.covers space.now.guide.now) (D.says space.now.guide.now) }
    requires known { D.known space.now.guide.now space.now.lexicon.now space.now.line.now space.now.choices.now }
    requires stack { IsStackOf space.now.lexicon.now space.now.line.now space.now.choices.now stack.old }
    ensures stack { IsStackOf space.now.lexicon.now space.now.line.now space.now.choices.now stack.new }
    ensures moved { OnTrue result (HasMoved space.now.lexicon.now space.now.line.now space.now.choices.now stack.old stack.new) }
    ensures ended { OnFalse result (HasRunOut space.now.lexicon.now space.now.line.now space.now.choices.now stack.old stack.new) }
    ensures steps { IsExactOf space.now.lexicon.now space.now.line.now space.now.choices.now (D.says space.now.guide.now) → (most : ℕ) → HasAtMostRules space.now.lexicon.now.tries most → steps.new ≤ steps.old + steps_of_levels space.now.lexicon.now most (4 * length space.now.line.now.letters) }
{
    let found = find_next_answer(space, stack, steps);
    let cursor = if found { Cursor::At } else { Cursor::Past };
    stack.stand_at(cursor);
    found
}

/// Where a search stands before all steps.
pub(crate) fn opening(lexicon: &Lexicon) -> Configuration
    ensures standing { numbered_of lexicon.now result ≡ opening }
    ensures within { (line : LineValue) → IsConfigurationIn lexicon.now line result }
{
    Configuration {
        at: 0,
        entrance: Entrance::Start,
        state: lexicon.automaton().start(),
    }
}

/// The most steps that an answer of the line can have, twice the number of its letters.
fn most_steps(line: &Line) -> usize
    ensures line { IsLine line.now }
    ensures most { result ≡ 2 * length line.now.letters }
{
    2 * line.letters.as_slice().len()
}

/// A stack before the first answer, with room for the most steps that an answer can have.
pub(crate) fn empty_stack(
    alloc: Global,
    lexicon: &Lexicon,
    line: &Line,
) -> Result<Resumption, Memory>
    ensures cursor { IfOk result (λ stack. cursor_in stack ≡ cursor.Before) }
    ensures ok { IfOk result (λ stack. (choices : List Choice) → IsStackOf lexicon.now line.now choices stack) }
{
    new_stack(alloc, lexicon, most_steps(line))
}
