ghost use Rattle.std.specs.Prelude.{◌≡◌, IfOk, Some, List};
ghost use Rattle.segmentation_definitions.specs.Derivations.{Step as AnswerStep};
ghost use Rattle.segmentation_definitions.specs.Listings.{BeforeFirst, AtAnswer};
ghost use Rattle.derivation.specs.Steps.{keys_of as step_keys, keys_meant};
ghost use Rattle.segmenter.specs.Searches.{IsCurrent};
ghost use Rattle.annotation.specs.Answers.{HasSteps, IsOnlyFound};

use crate::NoteError;
use annotated_trie::Lexicon;
use derivation::{Key, Step};
use outside::Steps;
use phoneme::{Line, Memory};
use reader_choices::Choices;
use search_frames::SearchGuide;
use segmenter::Search;
use std::alloc::Global;
use summary_chart::Chart;

/// The keys of the steps.
fn keys_of(alloc: Global, steps: &[Step]) -> Result<Vec<Key>, Memory>
    ensures { IfOk result (λ keys. keys_meant keys.items ≡ step_keys steps.now) }
{
    let mut keys = Vec::with_capacity(alloc, steps.len())?;
    for step in steps {
        keys.push(step.key())?;
    }
    Ok(keys)
}

/// The steps of the answer at which the search stands.
fn current_steps<D: SearchGuide>(alloc: Global, search: &Search<D>) -> Result<Vec<Step>, Memory>
    ensures ok { IfOk result (λ steps. (answer : List AnswerStep) → search.now.cursor ≡ AtAnswer answer
        → IsCurrent search.now (Some steps.items)) }
{
    match search.current() {
        None => Ok(Vec::new(alloc)),
        Some(steps) => Ok(Vec::from_slice(alloc, steps)?),
    }
}

/// Moves to the next answer and gives its steps. `None` where no answer is left.
fn next_steps<D: SearchGuide>(
    alloc: Global,
    search: &mut Search<D>,
) -> Result<Option<Vec<Step>>, Memory>
    ensures ok { IfOk result (HasSteps search.old search.new) }
{
    let mut steps = Steps::<()>::new();
    if !search.advance(&mut steps) {
        return Ok(None);
    }
    let found = current_steps(alloc, search)?;
    Ok(Some(found))
}

/// The steps of the only answer, found by a search that stands before the first.
#[tactic(auto, using(crate::proofs::FoundAnswers::none_found, crate::proofs::FoundAnswers::one_found, crate::proofs::FoundAnswers::two_found))]
fn only_answer<D: SearchGuide>(
    alloc: Global,
    search: &mut Search<D>,
) -> Result<Vec<Step>, NoteError>
    requires before { search.old.cursor ≡ BeforeFirst }
    ensures found { IsOnlyFound search.old.searched.lexicon search.old.line search.old.choices result }
{
    let Some(only) = next_steps(alloc, search)? else {
        return Err(NoteError::NoAnswer);
    };
    let Some(next) = next_steps(alloc, search)? else {
        return Ok(only);
    };
    let first = keys_of(alloc, only.as_slice())?;
    let second = keys_of(alloc, next.as_slice())?;
    Err(NoteError::Several { first, second })
}

/// The steps of the only answer that the line and the choices have. A chart and two moves of a search tell whether there is one.
pub(crate) fn only_steps(
    alloc: Global,
    lexicon: &Lexicon,
    line: &Line,
    choices: &Choices,
) -> Result<Vec<Step>, NoteError>
    ensures found { IsOnlyFound lexicon.now.lexicon line.now choices.now result }
{
    let mut steps = Steps::<()>::new();
    let chart = Chart::build(alloc, lexicon, line, choices, &mut steps)?;
    let mut search = Search::new(alloc, lexicon, line, choices, &chart)?;
    only_answer(alloc, &mut search)
}
