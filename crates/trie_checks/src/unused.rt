ghost use Rattle.std.specs.Prelude.{◌≡◌, ℕ, ◌<◌, ◌↔◌, ◌⊎◌, length, All, Contains, IfOk};
ghost use Rattle.trie_text_definitions.specs.NodeValues.{has_unused};
ghost use Rattle.trie_checks.specs.Marks.{IsMarked, LeadTo};

use outside::Steps;
use phoneme::{Letter, Memory};
use shared_trie::{Node, Store};
use std::alloc::Global;

/// Whether there is a node to which no root leads. Since a child has a smaller number than its parent, that is a node which is no root
/// and no child.
pub fn has_unused(alloc: Global, store: &Store) -> Result<bool, Memory>
    ensures ok { IfOk result (λ unused. unused ≡ has_unused store.now) }
{
    let mut used = vec![in alloc; false; store.len() as usize]?;
    mark_nodes(store.roots(), used.as_mut_slice());
    for number in 0..store.len() {
        let children = store.children(store.node(number), &mut Steps::<()>::new());
        mark_children(children, used.as_mut_slice());
    }
    Ok(used.as_slice().contains(&false))
}

fn mark_nodes(nodes: &[Node], used: &mut [bool])
    requires { All (λ node. node < length used.old) nodes.now }
    ensures { (node : ℕ) → IsMarked used.new node ↔ (IsMarked used.old node ⊎ Contains nodes.now node) }
{
    for node in nodes {
        used[node.number() as usize] = true;
    }
}

fn mark_children(children: &[(Letter, Node)], used: &mut [bool])
    requires { All (λ (child : ℕ × ℕ). child.1 < length used.old) children.now }
    ensures { (node : ℕ) → IsMarked used.new node ↔ (IsMarked used.old node ⊎ LeadTo children.now node) }
{
    for (_, child) in children {
        used[child.number() as usize] = true;
    }
}
