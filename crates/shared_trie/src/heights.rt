ghost use Rattle.std.specs.Prelude.{ℕ, ◌<◌, ◌≤◌, ◌^◌, length, slice_index, All};
ghost use Rattle.shared_trie.specs.Heights.{IsHeightAbove};

use super::Node;
use phoneme::Letter;

/// The height of a node with these children, where the heights of all nodes so far are known.
pub(crate) fn height_above(heights: &[u32], children: &[(Letter, Node)]) -> u32
    requires known { All (λ child. child.1 < length heights.now) children.now }
    requires low { (node : ℕ) → node < length heights.now → slice_index heights.now node ≤ node }
    requires count { length heights.now < 2 ^ 32 }
    ensures value { IsHeightAbove heights.now children.now result }
    ensures low { result ≤ length heights.now }
{
    let mut height = 0;
    for child in children {
        height = height.max(heights[child.1.number() as usize] + 1);
    }
    height
}
