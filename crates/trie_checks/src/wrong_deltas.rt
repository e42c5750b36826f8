ghost use Rattle.std.specs.Prelude.{◌≡◌, IfOk};
ghost use Rattle.trie_text_definitions.specs.TrieForms.{has_wrong_delta};

use super::depths::node_depths;
use super::put_back::has_put_back;
use phoneme::Memory;
use shared_trie::Store;
use std::alloc::Global;

/// Whether for some form and one of its deltas the cut is above the form's length, the stem has not 1 to 64 letters, or a smaller cut
/// gives the same stem.
pub fn has_wrong_delta(alloc: Global, store: &Store) -> Result<bool, Memory>
    ensures ok { IfOk result (λ wrong. wrong ≡ has_wrong_delta store.now) }
{
    let depths = node_depths(alloc, store)?;
    if !depths.may_begin(store.roots()) {
        return Ok(true);
    }
    has_put_back(alloc, store, depths.farthest())
}
