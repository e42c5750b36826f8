ghost use Rattle.std.specs.Prelude.{◌≡◌, ◌<◌, ◌≤◌, length, All, IfOk};
ghost use Rattle.lexicon_definitions.specs.Tries.{IsTrie, row_of};
ghost use Rattle.shared_trie.specs.CanonicalNodes.{AreMarked, AreMarkedFrom, MarksChildren};

use super::{Node, Store};
use phoneme::{Letter, Memory};
use std::alloc::Global;

/// Marks the nodes to which these children lead.
fn mark_children(marks: &mut [bool], children: &[(Letter, Node)])
    requires { All (λ child. child.1 < length marks.old) children.now }
    ensures { MarksChildren children.now marks.old marks.new }
{
    for child in children {
        marks[child.1.number() as usize] = true;
    }
}

/// Marks the roots.
fn mark_roots(alloc: Global, store: &Store) -> Result<Vec<bool>, Memory>
    ensures { IfOk result (λ marks. AreMarkedFrom store.now (length store.now.rows) marks.items) }
{
    let mut marks = Vec::from_elem(alloc, false, store.len() as usize)?;
    for root in store.roots() {
        marks[root.number() as usize] = true;
    }
    Ok(marks)
}

/// For each node whether some root leads to it.
pub(crate) fn mark_led_to(alloc: Global, store: &Store) -> Result<Vec<bool>, Memory>
    ensures { IfOk result (λ marks. AreMarked store.now marks.items) }
{
    let mut marks = mark_roots(alloc, store)?;
    for number in (0..store.len()).rev() {
        if !marks[number as usize] {
            continue;
        }
        mark_children(marks.as_mut_slice(), store.children_of(store.node(number)));
    }
    Ok(marks)
}
