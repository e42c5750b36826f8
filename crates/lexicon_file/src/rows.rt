ghost use Rattle.std.specs.Prelude.{◌≡◌, ◌<◌, ◌^◌, ◌||◌, nat_lt, ℕ, length, map, All};
ghost use Rattle.std.specs.List.{list_all};
ghost use Rattle.std.specs.Ordering.{nat_cmp, on};
ghost use Rattle.form_tags.specs.Analyses.{text_delta};
ghost use Rattle.lexicon_definitions.specs.Deltas.{compare_deltas};
ghost use Rattle.lexicon_definitions.specs.Tries.{AreRows};
ghost use Rattle.trie_text_definitions.specs.LimitedRules.{rises};
ghost use Rattle.trie_text_definitions.specs.NodeLines.{heights, node_lines};
ghost use Rattle.trie_text_definitions.specs.NodeValues.{height_over};
ghost use Rattle.trie_text_definitions.specs.VersionSteps.{leads_before as leads_before_of, are_children as are_children_of, is_root as is_root_of};
ghost use Rattle.lexicon_file.specs.Rows.{are_too_long};

use form_tags::Delta;
use lexicon_definitions::MOST_FORM_LETTERS;
use phoneme::Letter;
use shared_trie::{Node, TrieSoFar};
use std::cmp::Ordering;

/// Whether the child leads to a node before, which has deltas or children.
fn leads_before(trie: &TrieSoFar, child: (Letter, Node)) -> bool
    ensures { result ≡ leads_before_of trie.now.rows child }
{
    child.1.number() < trie.len() && !trie.is_empty_row(child.1)
}

/// Whether each child leads to a node before, which has deltas or children.
fn lead_before(trie: &TrieSoFar, children: &[(Letter, Node)]) -> bool
    ensures { result ≡ list_all (leads_before_of trie.now.rows) children.now }
{
    children.iter().all(|child| leads_before(trie, *child))
}

/// Whether the letters of the children rise.
fn letters_rise(children: &[(Letter, Node)]) -> bool
    ensures { result ≡ rises (on (λ (child : ℕ × ℕ). child.0) nat_cmp) children.now }
{
    let mut rest = children;
    while let [first, second, ..] = rest {
        if first.0 >= second.0 {
            return false;
        }
        rest = &rest[1..];
    }
    true
}

/// Whether these may be the children of the node that comes next.
pub(crate) fn are_children(trie: &TrieSoFar, children: &[(Letter, Node)]) -> bool
    ensures { result ≡ are_children_of trie.now.rows children.now }
{
    lead_before(trie, children) && letters_rise(children)
}

/// Whether the deltas rise.
pub(crate) fn deltas_rise(deltas: &[Delta]) -> bool
    ensures { result ≡ rises compare_deltas (map text_delta deltas.now) }
{
    let mut rest = deltas;
    while let [first, second, ..] = rest {
        if first.compare(second) != Ordering::Less {
            return false;
        }
        rest = &rest[1..];
    }
    true
}

/// Whether the letters of some delta are too many.
fn are_long(deltas: &[Delta]) -> bool
    ensures { result ≡ are_too_long (map text_delta deltas.now) }
{
    deltas
        .iter()
        .any(|delta| delta.append.len() > MOST_FORM_LETTERS)
}

/// Whether the letters of some delta, or the height of the node, are too many.
pub(crate) fn passes_limits(deltas: &[Delta], height: u32) -> bool
    ensures { result ≡ (are_too_long (map text_delta deltas.now) || nat_lt MOST_FORM_LETTERS height) }
{
    are_long(deltas) || height > MOST_FORM_LETTERS as u32
}

/// Whether the node is there and has no deltas, so that it may be a root.
pub(crate) fn is_root(trie: &TrieSoFar, node: Node) -> bool
    ensures { result ≡ is_root_of trie.now.rows node }
{
    node.number() < trie.len() && !trie.accepts(node)
}

/// The height of a node with these children.
pub(crate) fn height_above(trie: &TrieSoFar, children: &[(Letter, Node)]) -> u32
    requires rows { AreRows trie.now.rows }
    requires known { All (λ child. child.1 < length trie.now.rows) children.now }
    requires room { length trie.now.rows < 2 ^ 32 }
    ensures { result ≡ height_over (heights (node_lines trie.now.rows)) children.now }
{
    let mut height = 0;
    for child in children {
        height = height.max(trie.height(child.1) + 1);
    }
    height
}
