ghost use Rattle.std.specs.Prelude.{◌≡◌, ℕ, ◌+◌, ◌<◌, ◌⊎◌, false, length, map, slice_index, All, IfOk};
ghost use Rattle.lexicon_definitions.specs.Deltas.{Delta as TextDelta};
ghost use Rattle.form_tags.specs.Analyses.{text_delta};
ghost use Rattle.trie_checks.specs.Bounds.{HasOne};
ghost use Rattle.trie_checks.specs.LettersPut.{Allows, ArePlaces, NonePutAbove};
ghost use Rattle.trie_checks.specs.NumberSets.{HasNumber};

use super::number_set::NumberSet;
use form_tags::Delta;
use outside::Steps;
use phoneme::{Letter, Memory};
use shared_trie::{Node, Store};
use std::alloc::Global;

/// For each node a set that allows the places before it at which deltas put letters, where none puts one more than so many letters before
/// a node. A pass may thus leave out most nodes.
pub(crate) fn allowed_places(
    alloc: Global,
    store: &Store,
    farthest: u64,
) -> Result<Vec<NumberSet>, Memory>
    requires { NonePutAbove store.now.rows farthest }
    ensures ok { IfOk result (λ places. ArePlaces store.now.rows (length store.now.rows) places.items) }
{
    // Of lawful deltas none cuts more than 64 letters.
    if farthest > 64 {
        return Ok(vec![in alloc; NumberSet::all(); store.len() as usize]?);
    }
    put_places(alloc, store)
}

/// Goes over the nodes by rising number, so that the children of each are known before it.
fn put_places(alloc: Global, store: &Store) -> Result<Vec<NumberSet>, Memory>
    requires { NonePutAbove store.now.rows 64 }
    ensures ok { IfOk result (λ places. ArePlaces store.now.rows (length store.now.rows) places.items) }
{
    let mut places = Vec::with_capacity(alloc, store.len() as usize)?;
    for number in 0..store.len() {
        let node = store.node(number);
        let children = store.children(node, &mut Steps::<()>::new());
        let below = places_below(children, places.as_slice());
        places.push(below.or(places_of(store.deltas(node))))?;
    }
    Ok(places)
}

/// The places at which these deltas put letters before a form's end, counted from 0 at the last letter.
fn places_of(deltas: &[Delta]) -> NumberSet
    ensures { (place : ℕ) → place < 64
        → HasOne (λ (delta : TextDelta). delta.cut ≡ place + 1) (map text_delta deltas.now)
        → HasNumber result place }
{
    let mut places = NumberSet::new();
    for delta in deltas {
        places = with_cut(places, delta.cut);
    }
    places
}

/// The places of all children, to which each is one letter farther.
fn places_below(children: &[(Letter, Node)], places: &[NumberSet]) -> NumberSet
    requires { All (λ (child : ℕ × ℕ). child.1 < length places.now) children.now }
    ensures { (place : ℕ)
        → HasOne (λ (child : ℕ × ℕ). HasNumber (slice_index places.now child.1) (place + 1)) children.now
        → HasNumber result place }
{
    let mut below = NumberSet::new();
    for (_, child) in children {
        below = below.or(places[child.number() as usize].lowered());
    }
    below
}

/// The places with that at which this cut begins, if it is within 64 letters.
fn with_cut(places: NumberSet, cut: u32) -> NumberSet
    ensures { (place : ℕ) → place < 64 → (HasNumber places place ⊎ (cut ≡ place + 1)) → HasNumber result place }
{
    if cut == 0 {
        return places;
    }
    if cut > 64 {
        return places;
    }
    places.with(cut - 1)
}

/// Whether the set of places allows this one.
pub(crate) fn may_put(places: NumberSet, place: u64) -> bool
    ensures { result ≡ false → Allows places place → ⊥ }
{
    if place >= 64 {
        return true;
    }
    places.has(place as u32)
}
