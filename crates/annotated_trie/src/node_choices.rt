ghost use Rattle.std.specs.Prelude.{◌≡◌, ℕ, ◌+◌, ◌<◌, ◌≤◌, ◌^◌, ◌↔◌, [], length, map, All, Contains, IfOk};
ghost use Rattle.annotated_trie.specs.Suffixes.{AreListsFrom, IsInGroups, IsListFrom};
ghost use Rattle.annotated_trie.specs.Views.{list_at, IsMostRules};

use phoneme::Memory;
use std::alloc::Global;

/// The elements of the groups with these numbers, rising.
fn join_groups(alloc: Global, groups: &[Vec<u32>], numbers: &[u32]) -> Result<Vec<u32>, Memory>
    ensures ok { IfOk result (λ joined. IsListFrom groups.now numbers.now joined.items) }
{
    let mut joined = gather(alloc, groups, numbers)?;
    joined.sort_unstable();
    joined.dedup();
    Ok(joined)
}

/// The elements of the groups with these numbers, group after group.
fn gather(alloc: Global, groups: &[Vec<u32>], numbers: &[u32]) -> Result<Vec<u32>, Memory>
    ensures members { IfOk result (λ gathered. (place : ℕ) → Contains gathered.items place ↔ IsInGroups groups.now numbers.now place) }
{
    let mut gathered = Vec::new(alloc);
    for number in numbers {
        if let Some(group) = groups.get(*number as usize) {
            gathered.extend_from_slice(group.as_slice())?;
        }
    }
    Ok(gathered)
}

/// For each set of numbers, the elements of their groups, rising.
pub(crate) fn join_each(
    alloc: Global,
    groups: &[Vec<u32>],
    sets: &[Vec<u32>],
) -> Result<Vec<Vec<u32>>, Memory>
    ensures ok { IfOk result (λ lists. AreListsFrom groups.now sets.now lists.items) }
{
    let mut lists = Vec::with_capacity(alloc, sets.len())?;
    for numbers in sets {
        lists.push(join_groups(alloc, groups, numbers.as_slice())?)?;
    }
    Ok(lists)
}

/// The greatest length of the lists at these places; 0 where there are no places.
pub(crate) fn longest_at(lists: &[Vec<u32>], places: &[u32]) -> u32
    requires within { All (λ place. place < length lists.now) places.now }
    requires few { All (λ place. length (list_at lists.now place) < 2 ^ 32) places.now }
    ensures { IsMostRules (map (list_at lists.now) places.now) result }
{
    let mut longest = 0;
    for place in places {
        longest = longest.max(lists[*place as usize].len() as u32);
    }
    longest
}
