ghost use Rattle.std.specs.Prelude.{◌≡◌, ◌≤◌, ◌<◌, ◌^◌, ◌++◌, [], ◌∷◌, length, map, string_bytes, Contains, IfOk, MatchOption, OnOk};
ghost use Rattle.lexicon_definitions.specs.Tries.{IsTrie, row_of};
ghost use Rattle.lexicon_text_definitions.specs.LexiconTexts.{text_of_lines};
ghost use Rattle.trie_text_definitions.specs.NodeLines.{node_line};
ghost use Rattle.trie_text_definitions.specs.TrieTexts.{root_line, root_lines};
ghost use Rattle.shared_trie.specs.CanonicalNodes.{IsCanonical, number_in, numbered_row, rows_of_nodes};

use phoneme::Memory;
use shared_trie::{Node, NodeNumbers, Store, push_node_line, push_number};
use std::alloc::Global;

/// Appends the line of the node, with its line end.
fn push_node(
    alloc: Global,
    out: &mut Vec<u8>,
    store: &Store,
    numbers: &NodeNumbers,
    node: Node,
) -> Result<(), Memory>
    requires trie { IsTrie store.now }
    requires canonical { IsCanonical store.now numbers.now.nodes }
    requires there { Contains numbers.now.nodes node }
    ensures ok { OnOk result (out.new.items ≡ out.old.items ++ (node_line (numbered_row numbers.now.nodes (row_of store.now.rows node)) ++ 10 ∷ [])) }
{
    push_node_line(
        alloc,
        out,
        store.deltas(node),
        store.children_of(node),
        numbers,
    )?;
    out.push(b'\n')?;
    Ok(())
}

/// Appends the lines of the nodes in their order.
pub(crate) fn push_nodes(
    alloc: Global,
    out: &mut Vec<u8>,
    store: &Store,
    numbers: &NodeNumbers,
) -> Result<(), Memory>
    requires trie { IsTrie store.now }
    requires canonical { IsCanonical store.now numbers.now.nodes }
    ensures ok { OnOk result (out.new.items ≡ out.old.items ++ text_of_lines (map node_line (rows_of_nodes store.now.rows numbers.now.nodes))) }
{
    for node in numbers.nodes() {
        push_node(alloc, out, store, numbers, *node)?;
    }
    Ok(())
}

/// How many bytes the lines of the nodes have. `None` where there are more than these.
pub(crate) fn nodes_len(
    alloc: Global,
    store: &Store,
    numbers: &NodeNumbers,
    most: usize,
) -> Result<Option<usize>, Memory>
    requires trie { IsTrie store.now }
    requires canonical { IsCanonical store.now numbers.now.nodes }
    ensures ok { IfOk result (λ found. MatchOption found
        (most < length (text_of_lines (map node_line (rows_of_nodes store.now.rows numbers.now.nodes))))
        (λ len. (len ≡ length (text_of_lines (map node_line (rows_of_nodes store.now.rows numbers.now.nodes)))) × (len ≤ most))) }
{
    let mut line = Vec::new(alloc);
    let mut len = 0;
    for node in numbers.nodes() {
        line.clear();
        push_node(alloc, &mut line, store, numbers, *node)?;
        if line.len() > most - len {
            return Ok(None);
        }
        len += line.len();
    }
    Ok(Some(len))
}

/// Appends the line `root NAME N`.
fn push_root(out: &mut Vec<u8>, name: &str, number: usize) -> Result<(), Memory>
    ensures ok { OnOk result (out.new.items ≡ out.old.items ++ (root_line name.now number ++ 10 ∷ [])) }
{
    out.extend_from_slice(b"root ")?;
    out.extend_from_slice(name.as_bytes())?;
    out.push(b' ')?;
    push_number(out, number)?;
    out.push(b'\n')?;
    Ok(())
}

/// Appends the line of each root under the name of its phase.
pub(crate) fn push_roots(
    out: &mut Vec<u8>,
    names: &[String],
    store: &Store,
    numbers: &NodeNumbers,
) -> Result<(), Memory>
    requires canonical { IsCanonical store.now numbers.now.nodes }
    requires count { length store.now.roots ≡ length names.now }
    requires few { length names.now < 2 ^ 32 }
    ensures ok { OnOk result (out.new.items ≡ out.old.items ++ text_of_lines (root_lines (map string_bytes names.now) (map (number_in numbers.now.nodes) store.now.roots))) }
{
    for (phase, name) in names.iter().enumerate() {
        let root = store.root(phase as u32);
        push_root(out, name.as_str(), numbers.number_of(root))?;
    }
    Ok(())
}
