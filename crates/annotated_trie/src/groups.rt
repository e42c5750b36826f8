ghost use Rattle.std.specs.Prelude.{◌≡◌, ℕ, ◌+◌, ◌<◌, ◌≤◌, ◌^◌, [], length, All, IfOk};
ghost use Rattle.annotated_trie.specs.Suffixes.{AreGroups};
ghost use Rattle.annotated_trie.specs.Views.{list_at};

use phoneme::Memory;
use std::alloc::Global;

/// So many empty lists.
fn empty_groups(alloc: Global, count: usize) -> Result<Vec<Vec<u32>>, Memory>
    ensures count { IfOk result (λ groups. length groups.items ≡ count) }
    ensures none { IfOk result (λ groups. (number : ℕ) → list_at groups.items number ≡ []) }
{
    let mut groups = Vec::with_capacity(alloc, count)?;
    for _ in 0..count {
        groups.push(Vec::new(alloc))?;
    }
    Ok(groups)
}

/// For each number below the count, the places at which it stands, counted from 1.
pub(crate) fn group_places(
    alloc: Global,
    count: usize,
    numbers: &[u32],
) -> Result<Vec<Vec<u32>>, Memory>
    requires within { All (λ number. number < count) numbers.now }
    requires few { length numbers.now < 2 ^ 32 }
    ensures ok { IfOk result (λ groups. AreGroups numbers.now groups.items) }
    ensures count { IfOk result (λ groups. length groups.items ≡ count) }
{
    let mut groups = empty_groups(alloc, count)?;
    let mut place = 0;
    for number in numbers {
        place += 1;
        groups[*number as usize].push(place)?;
    }
    Ok(groups)
}
