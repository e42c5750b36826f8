ghost use Rattle.std.specs.Prelude.{◌≡◌, ◌≤◌, ◌<◌, ◌↔◌, List, length, take, IfOk, IsTrue};
ghost use Rattle.std.specs.Bool.{OnTrue, OnFalse};
ghost use Rattle.segmentation_definitions.specs.Derivations.{Step as AnswerStep};
ghost use Rattle.segmentation_definitions.specs.Listings.{Cursor, AtAnswer};
ghost use Rattle.segmentation_definitions.specs.Listings.{keys_of as answer_keys};
ghost use Rattle.front_definitions.specs.Fronts.{front_of as front_meant};
ghost use Rattle.derivation.specs.Steps.{keys_of, keys_meant};
ghost use Rattle.search_split.specs.NextFronts.{HasNextFront, HasNoNextFront};

use derivation::{Key, Step};
use outside::Steps;
use phoneme::Memory;
use search_frames::SearchGuide;
use segmenter::Search;
use std::alloc::Global;

/// The keys of the steps.
#[tactic(auto, using(crate::proofs::KeysTaken::keys_with_next))]
fn keys_of(alloc: Global, steps: &[Step]) -> Result<Vec<Key>, Memory>
    ensures ok { IfOk result (λ keys. keys_meant keys.items ≡ keys_of steps.now) }
{
    let mut keys = Vec::with_capacity(alloc, steps.len())?;
    for step in steps {
        keys.push(step.key())?;
    }
    Ok(keys)
}

/// The keys of the first steps, as many as `depth`, or of all of them where they are fewer.
#[tactic(auto, using(crate::proofs::KeysTaken::keys_taken))]
fn front_of(alloc: Global, steps: &[Step], depth: u32) -> Result<Vec<Key>, Memory>
    ensures ok { IfOk result (λ front. keys_meant front.items ≡ take depth (keys_of steps.now)) }
{
    let count = steps.len().min(depth as usize);
    keys_of(alloc, &steps[..count])
}

/// Whether these are the keys of the first steps, as many as `depth`, or of all of them where they are fewer.
#[tactic(auto, using(crate::proofs::KeysTaken::front_same, crate::proofs::KeysTaken::front_shorter, crate::proofs::KeysTaken::front_differs, crate::proofs::KeysTaken::both_with_next))]
pub(crate) fn has_front(steps: &[Step], depth: u32, front: &[Key]) -> bool
    ensures { IsTrue result ↔ (take depth (keys_of steps.now) ≡ keys_meant front.now) }
{
    let count = steps.len().min(depth as usize);
    if count != front.len() {
        return false;
    }
    for place in 0..count {
        if steps[place].key() != front[place] {
            return false;
        }
    }
    true
}

/// The front of the answer at which the search stands.
pub(crate) fn front_at<D: SearchGuide>(
    alloc: Global,
    search: &Search<D>,
    depth: u32,
) -> Result<Vec<Key>, Memory>
    ensures ok { IfOk result (λ front. (answer : List AnswerStep) → search.now.cursor ≡ AtAnswer answer
        → keys_meant front.items ≡ front_meant search.now.searched.lexicon.rules depth answer) }
{
    match search.current() {
        None => Ok(Vec::new(alloc)),
        Some(steps) => front_of(alloc, steps, depth),
    }
}

/// The keys of the answer at which the search stands.
pub(crate) fn keys_at<D: SearchGuide>(alloc: Global, search: &Search<D>) -> Result<Vec<Key>, Memory>
    ensures ok { IfOk result (λ keys. (answer : List AnswerStep) → search.now.cursor ≡ AtAnswer answer
        → (0 < length keys.items) × (answer_keys search.now.searched.lexicon.rules answer ≡ keys_meant keys.items)) }
{
    match search.current() {
        None => Ok(Vec::new(alloc)),
        Some(steps) => keys_of(alloc, steps),
    }
}

/// Moves to the first answer of the next front, or of the first one where the search stands before the first answer. False where there
/// is no such front; then the search stands past the last.
pub(crate) fn go_to_next_front<D: SearchGuide, L>(
    search: &mut Search<D>,
    depth: u32,
    steps: &mut Steps<L>,
) -> bool
    requires depth { 1 ≤ depth }
    ensures moved { OnTrue result (HasNextFront depth search.old search.new) }
    ensures ended { OnFalse result (HasNoNextFront depth search.old) }
{
    if search.current().is_none() {
        return search.advance(steps);
    }
    search.skip(depth, steps)
}
