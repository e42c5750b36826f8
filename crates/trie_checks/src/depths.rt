ghost use Rattle.std.specs.Prelude.{◌≡◌, ℕ, ◌-◌, ◌<◌, ◌^◌, ◌↔◌, length, map, slice_index, All, IfOk, IsTrue};
ghost use Rattle.lexicon_definitions.specs.Tries.{IsTrie};
ghost use Rattle.form_tags.specs.Analyses.{text_delta};
ghost use Rattle.trie_checks.specs.Bounds.{IsGreatest, IsLeastEnd};
ghost use Rattle.trie_checks.specs.NodeDepths.{AreDepths, MayBegin, letters_needed, letters_end};

use form_tags::Delta;
use lexicon_definitions::MOST_FORM_LETTERS;
use outside::Steps;
use phoneme::{Letter, Memory};
use shared_trie::{Node, Store};
use std::alloc::Global;

/// For each node, after how many letters it may stand so that each delta below it cuts no more letters than the form has, and leaves a
/// stem of lawful length: at least `least`, and fewer than `ends`.
#[derive(Drop)]
pub(crate) struct Depths {
    pub least: Vec<u64>,
    pub ends: Vec<u64>,
}

/// Goes over the nodes by rising number, so that the children of each are known before it.
pub(crate) fn node_depths(alloc: Global, store: &Store) -> Result<Depths, Memory>
    ensures trie { IsTrie store.now }
    ensures size { length store.now.rows < 2 ^ 32 }
    ensures ok { IfOk result (λ depths.
        AreDepths store.now.rows (length store.now.rows) depths.least.items depths.ends.items) }
{
    let mut least = Vec::with_capacity(alloc, store.len() as usize)?;
    let mut ends = Vec::with_capacity(alloc, store.len() as usize)?;
    for number in 0..store.len() {
        let node = store.node(number);
        let deltas = store.deltas(node);
        let children = store.children(node, &mut Steps::<()>::new());
        let from = least_below(children, least.as_slice());
        let end = end_below(children, ends.as_slice());
        least.push(from.max(least_of(deltas)))?;
        ends.push(end.min(end_of(deltas)))?;
    }
    Ok(Depths { least, ends })
}

impl Depths {
    /// Whether each of these nodes may stand after no letters.
    pub(crate) fn may_begin(&self, roots: &[Node]) -> bool
        requires least { All (λ root. root < length self.now.least.items) roots.now }
        requires ends { All (λ root. root < length self.now.ends.items) roots.now }
        ensures { IsTrue result ↔ All (MayBegin self.now.least.items self.now.ends.items) roots.now }
    {
        for root in roots {
            let number = root.number() as usize;
            if self.least[number] > 0 {
                return false;
            }
            if self.ends[number] == 0 {
                return false;
            }
        }
        true
    }

    /// The greatest of the least numbers of letters: no delta cuts so far that it begins more letters before a node.
    pub(crate) fn farthest(&self) -> u64
        ensures { IsGreatest (λ n. n) self.now.least.items result }
    {
        let mut farthest = 0;
        for least in self.least.as_slice() {
            farthest = farthest.max(*least);
        }
        farthest
    }
}

/// After how many letters at least the deltas of a node let it stand.
fn least_of(deltas: &[Delta]) -> u64
    ensures { IsGreatest letters_needed (map text_delta deltas.now) result }
{
    let mut least = 0;
    for delta in deltas {
        least = least.max(letters_needed(delta));
    }
    least
}

/// From how many letters on the deltas of a node don't let it stand.
fn end_of(deltas: &[Delta]) -> u64
    ensures { IsLeastEnd letters_end (map text_delta deltas.now) result }
{
    let mut end = u64::MAX;
    for delta in deltas {
        end = end.min(letters_end(delta));
    }
    end
}

/// After how many letters at least the children of a node let it stand, each of which stands after one more.
fn least_below(children: &[(Letter, Node)], least: &[u64]) -> u64
    requires { All (λ (child : ℕ × ℕ). child.1 < length least.now) children.now }
    ensures { IsGreatest (λ (child : ℕ × ℕ). slice_index least.now child.1 - 1) children.now result }
{
    let mut most = 0;
    for (_, child) in children {
        most = most.max(least[child.number() as usize].saturating_sub(1));
    }
    most
}

/// From how many letters on the children of a node don't let it stand.
fn end_below(children: &[(Letter, Node)], ends: &[u64]) -> u64
    requires { All (λ (child : ℕ × ℕ). child.1 < length ends.now) children.now }
    ensures { IsLeastEnd (λ (child : ℕ × ℕ). slice_index ends.now child.1 - 1) children.now result }
{
    let mut end = u64::MAX;
    for (_, child) in children {
        end = end.min(ends[child.number() as usize].saturating_sub(1));
    }
    end
}

/// The letters that a form needs: those that are cut off, and one that is left where none is appended.
fn letters_needed(delta: &Delta) -> u64
    ensures { result ≡ letters_needed (text_delta delta.now) }
{
    let cut = u64::from(delta.cut);
    if delta.append.is_empty() {
        cut + 1
    } else {
        cut
    }
}

/// With so many letters or more the stem is too long.
fn letters_end(delta: &Delta) -> u64
    ensures { result ≡ letters_end (text_delta delta.now) }
{
    let longest = MOST_FORM_LETTERS as u64 + u64::from(delta.cut);
    (longest + 1).saturating_sub(delta.append.len() as u64)
}
