ghost use Rattle.std.specs.Prelude.{◌≡◌, ℕ, ◌+◌, ◌<◌, length, min, sum_by, slice_index, All, IfOk};
ghost use Rattle.trie_text_definitions.specs.TrieForms.{count_pairs as count_pairs_of, has_too_many_pairs};

use lexicon_definitions::MOST_FORM_LINES;
use outside::Steps;
use phoneme::{Letter, Memory};
use shared_trie::{Node, Store};
use std::alloc::Global;

/// Pairs are counted up to this number: one more than a lexicon may have.
const TOO_MANY: u32 = MOST_FORM_LINES as u32 + 1;

/// How many pairs of a form and one of its deltas there are, counted in each phase and added up; no further than to one more than a
/// lexicon may have.
pub fn count_pairs(alloc: Global, store: &Store) -> Result<u32, Memory>
    ensures ok { IfOk result (λ count. count ≡ min (count_pairs_of store.now) TOO_MANY) }
{
    let mut counts = Vec::with_capacity(alloc, store.len() as usize)?;
    for number in 0..store.len() {
        let node = store.node(number);
        let children = store.children(node, &mut Steps::<()>::new());
        let count = pairs_below(store.deltas(node).len(), children, counts.as_slice());
        counts.push(count)?;
    }
    Ok(pairs_of_all(store.roots(), counts.as_slice()))
}

/// Whether there are more of these pairs than a lexicon may have.
pub fn has_too_many_pairs(alloc: Global, store: &Store) -> Result<bool, Memory>
    ensures ok { IfOk result (λ many. many ≡ has_too_many_pairs store.now) }
{
    let count = count_pairs(alloc, store)?;
    Ok(count as usize > MOST_FORM_LINES)
}

/// The pairs of a node with so many deltas of its own, where those of all nodes before it are known.
fn pairs_below(own: usize, children: &[(Letter, Node)], counts: &[u32]) -> u32
    requires { All (λ (child : ℕ × ℕ). child.1 < length counts.now) children.now }
    ensures { result ≡ min (own + sum_by (λ (child : ℕ × ℕ). slice_index counts.now child.1) children.now) TOO_MANY }
{
    let mut sum = own.min(TOO_MANY as usize) as u32;
    for (_, child) in children {
        sum = sum
            .saturating_add(counts[child.number() as usize])
            .min(TOO_MANY);
    }
    sum
}

/// The pairs of all these roots together.
fn pairs_of_all(roots: &[Node], counts: &[u32]) -> u32
    requires { All (λ root. root < length counts.now) roots.now }
    ensures { result ≡ min (sum_by (λ root. slice_index counts.now root) roots.now) TOO_MANY }
{
    let mut sum = 0u32;
    for root in roots {
        sum = sum
            .saturating_add(counts[root.number() as usize])
            .min(TOO_MANY);
    }
    sum
}
