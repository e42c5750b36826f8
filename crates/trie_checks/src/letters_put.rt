ghost use Rattle.std.specs.Prelude.{◌≡◌, ℕ, ◌+◌, ◌<◌, ◌^◌, ◌↔◌, ◌⊎◌, true, length, map, slice_index, All};
ghost use Rattle.form_tags.specs.Analyses.{text_delta};
ghost use Rattle.trie_checks.specs.Bounds.{HasOne};
ghost use Rattle.trie_checks.specs.LettersPut.{Allows, ArePlaces, AreSetsPut, PutsLetter};
ghost use Rattle.trie_checks.specs.NumberSets.{HasNumber};

use super::number_set::NumberSet;
use super::put_places::may_put;
use form_tags::Delta;
use outside::Steps;
use phoneme::Letter;
use shared_trie::{Node, Store};

/// Goes from the letters that deltas put one letter farther before each node to those that they put at this place before it, counted from 0 at
/// the letter before the node. It goes down from the last node, so that the children of a node are still to come when it is changed.
pub(crate) fn move_up(store: &Store, places: &[NumberSet], place: u64, letters: &mut [NumberSet])
    requires fits { place + 1 < 2 ^ 64 }
    requires places { ArePlaces store.now.rows (length store.now.rows) places.now }
    requires letters { AreSetsPut store.now.rows (place + 1 + 1) letters.old }
    ensures { AreSetsPut store.now.rows (place + 1) letters.new }
{
    for number in (0..store.len()).rev() {
        if stays_empty(places[number as usize], place) {
            continue;
        }
        let node = store.node(number);
        let children = store.children(node, &mut Steps::<()>::new());
        let own = put_by(store.deltas(node), place + 1);
        letters[number as usize] = own.or(put_below(children, letters));
    }
}

/// Whether no letters are put at this place before a node, nor one letter farther.
fn stays_empty(places: NumberSet, place: u64) -> bool
    requires { place + 1 < 2 ^ 64 }
    ensures { result ≡ true → (Allows places place → ⊥) × (Allows places (place + 1) → ⊥) }
{
    if may_put(places, place) {
        return false;
    }
    !may_put(places, place + 1)
}

/// The letters that these deltas put so many letters before a form's end.
fn put_by(deltas: &[Delta], before: u64) -> NumberSet
    ensures { (letter : ℕ) → HasNumber result letter
        ↔ HasOne (PutsLetter before letter) (map text_delta deltas.now) }
{
    let mut set = NumberSet::new();
    for delta in deltas {
        set = with_put(set, delta, before);
    }
    set
}

/// The letters of the sets of all children.
fn put_below(children: &[(Letter, Node)], letters: &[NumberSet]) -> NumberSet
    requires { All (λ (child : ℕ × ℕ). child.1 < length letters.now) children.now }
    ensures { (letter : ℕ) → HasNumber result letter
        ↔ HasOne (λ (child : ℕ × ℕ). HasNumber (slice_index letters.now child.1) letter) children.now }
{
    let mut set = NumberSet::new();
    for (_, child) in children {
        set = set.or(letters[child.number() as usize]);
    }
    set
}

/// The set with the letter that the delta puts so many letters before a form's end, if it puts one there.
fn with_put(set: NumberSet, delta: &Delta, before: u64) -> NumberSet
    ensures { (letter : ℕ) → HasNumber result letter
        ↔ (HasNumber set letter ⊎ PutsLetter before letter (text_delta delta.now)) }
{
    if u64::from(delta.cut) != before {
        return set;
    }
    match delta.append.as_slice() {
        [first, ..] => set.with(u32::from(first.code())),
        [] => set,
    }
}
