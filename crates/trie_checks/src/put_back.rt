ghost use Rattle.std.specs.Prelude.{ℕ, ◌<◌, ◌↔◌, ◌⊎◌, length, slice_index, All, IfOk, IsTrue};
ghost use Rattle.trie_checks.specs.Bounds.{HasOne};
ghost use Rattle.trie_checks.specs.LettersPut.{AreSetsPut, NonePutAbove};
ghost use Rattle.trie_checks.specs.NumberSets.{HasNumber};
ghost use Rattle.trie_checks.specs.Marks.{IsMarked};
ghost use Rattle.trie_checks.specs.PutBack.{IsPutBack};

use super::letters_put::move_up;
use super::number_set::NumberSet;
use super::put_places::allowed_places;
use outside::Steps;
use phoneme::{Letter, Memory};
use shared_trie::{Node, Store};
use std::alloc::Global;

/// Whether some delta of a form puts back the first letter that it cuts off, where no delta puts a letter more than so many letters
/// before a node.
pub(crate) fn has_put_back(alloc: Global, store: &Store, farthest: u64) -> Result<bool, Memory>
    requires farthest { NonePutAbove store.now.rows farthest }
    ensures ok { IfOk result (λ found. IsTrue found ↔ HasOne (IsPutBack store.now.rows) store.now.roots) }
{
    let places = allowed_places(alloc, store, farthest)?;
    let mut letters = vec![in alloc; NumberSet::new(); store.len() as usize]?;
    for place in (0..farthest).rev() {
        move_up(store, places.as_slice(), place, letters.as_mut_slice());
    }
    any_put_back(alloc, store, letters.as_slice())
}

/// Goes over the nodes by rising number, where it is known which letters deltas put in place of the letter that leads to each node.
fn any_put_back(alloc: Global, store: &Store, letters: &[NumberSet]) -> Result<bool, Memory>
    requires letters { AreSetsPut store.now.rows 1 letters.now }
    ensures ok { IfOk result (λ found. IsTrue found ↔ HasOne (IsPutBack store.now.rows) store.now.roots) }
{
    let mut put_back = Vec::with_capacity(alloc, store.len() as usize)?;
    for number in 0..store.len() {
        let children = store.children(store.node(number), &mut Steps::<()>::new());
        let found = put_back_below(children, letters, put_back.as_slice());
        put_back.push(found)?;
    }
    Ok(any_marked(store.roots(), put_back.as_slice()))
}

/// Whether a delta puts back a letter below a node with these children.
fn put_back_below(children: &[(Letter, Node)], letters: &[NumberSet], put_back: &[bool]) -> bool
    requires letters { All (λ (child : ℕ × ℕ). child.1 < length letters.now) children.now }
    requires put_back { All (λ (child : ℕ × ℕ). child.1 < length put_back.now) children.now }
    ensures { IsTrue result
        ↔ HasOne (λ (child : ℕ × ℕ). HasNumber (slice_index letters.now child.1) child.0 ⊎ IsMarked put_back.now child.1) children.now }
{
    for (letter, child) in children {
        let number = child.number() as usize;
        if put_back[number] {
            return true;
        }
        if letters[number].has(u32::from(letter.code())) {
            return true;
        }
    }
    false
}

fn any_marked(nodes: &[Node], marks: &[bool]) -> bool
    requires { All (λ node. node < length marks.now) nodes.now }
    ensures { IsTrue result ↔ HasOne (IsMarked marks.now) nodes.now }
{
    for node in nodes {
        if marks[node.number() as usize] {
            return true;
        }
    }
    false
}
