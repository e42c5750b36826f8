ghost use Rattle.std.specs.Prelude.{◌≡◌, ℕ, ◌+◌, ◌<◌, ◌^◌, ◌↔◌, ◌⊎◌, length, Contains, IfOk, OnOk};
ghost use Rattle.lexicon_definitions.specs.Tries.{IsTrie};
ghost use Rattle.annotated_trie.specs.Suffixes.{AddsNode, AreSetsAt, AreSuffixesAt, GoesOn};

use indexmap::IndexSet;
use outside::Steps;
use phoneme::{Letter, Memory};
use shared_trie::{Node, Store};
use std::alloc::Global;

/// For each node the place of a list, which has the numbers of the suffixes that lead from the node to the end of a form. Each
/// list stands there once.
#[derive(Drop)]
pub(crate) struct NodeSuffixes {
    pub sets: IndexSet<Vec<u32>>,
    pub places: Vec<u32>,
}

/// Goes over the nodes by rising number, so that the children of each are known before it.
pub(crate) fn number_nodes(
    alloc: Global,
    store: &Store,
    suffixes: &IndexSet<(Letter, u32)>,
) -> Result<NodeSuffixes, Memory>
    requires few { length suffixes.now.keys < 2 ^ 31 }
    ensures trie { IsTrie store.now }
    ensures size { length store.now.rows < 2 ^ 32 }
    ensures ok { IfOk result (λ nodes. AreSetsAt suffixes.now.keys store.now.rows (length store.now.rows) nodes.sets.keys nodes.places.items) }
{
    let mut nodes = NodeSuffixes {
        sets: IndexSet::new(alloc),
        places: Vec::new(alloc),
    };
    let mut numbers = Vec::new(alloc);
    for number in 0..store.len() {
        suffixes_at(store, suffixes, &nodes, store.node(number), &mut numbers)?;
        add_node(alloc, &mut nodes, numbers.as_slice())?;
    }
    Ok(nodes)
}

/// Gives the next node this list. Most nodes have the list of one before, so it is copied only where it is new.
fn add_node(alloc: Global, nodes: &mut NodeSuffixes, numbers: &[u32]) -> Result<(), Memory>
    requires few { length nodes.old.sets.keys + 1 < 2 ^ 32 }
    ensures ok { OnOk result (AddsNode nodes.old.sets.keys nodes.new.sets.keys nodes.old.places.items nodes.new.places.items numbers.now) }
{
    if let Some(place) = nodes.sets.get_index_of(numbers) {
        nodes.places.push(place as u32)?;
        return Ok(());
    }
    let copy = Vec::from_slice(alloc, numbers)?;
    let Ok((place, _is_new)) = nodes.sets.insert_full(copy) else {
        return Err(Memory);
    };
    nodes.places.push(place as u32)?;
    Ok(())
}

/// Makes these the numbers of the suffixes that lead from the node to the end of a form, where those of all nodes before it are
/// known.
fn suffixes_at(
    store: &Store,
    suffixes: &IndexSet<(Letter, u32)>,
    nodes: &NodeSuffixes,
    node: Node,
    numbers: &mut Vec<u32>,
) -> Result<(), Memory>
    requires few { length suffixes.now.keys < 2 ^ 31 }
    requires trie { IsTrie store.now }
    requires node { node < length store.now.rows }
    requires known { AreSetsAt suffixes.now.keys store.now.rows node nodes.now.sets.keys nodes.now.places.items }
    ensures ok { OnOk result (AreSuffixesAt suffixes.now.keys store.now.rows node numbers.new.items) }
{
    numbers.clear();
    if store.accepts(node) {
        numbers.push(0)?;
    }
    let children = store.children(node, &mut Steps::<()>::new());
    for (letter, child) in children {
        let place = nodes.places[child.number() as usize];
        let rests = nodes.sets.as_slice()[place as usize].as_slice();
        add_longer(suffixes, *letter, rests, numbers)?;
    }
    Ok(())
}

/// Appends the numbers of the suffixes that begin with the letter and go on as one of these.
fn add_longer(
    suffixes: &IndexSet<(Letter, u32)>,
    letter: Letter,
    rests: &[u32],
    numbers: &mut Vec<u32>,
) -> Result<(), Memory>
    requires few { length suffixes.now.keys < 2 ^ 31 }
    ensures ok { OnOk result ((number : ℕ) → Contains numbers.new.items number
        ↔ (Contains numbers.old.items number ⊎ GoesOn suffixes.now.keys letter rests.now number)) }
{
    // The proof knows that no suffix stands there twice only of a set that is read.
    let _suffixes = suffixes.as_slice();
    for rest in rests {
        if let Some(place) = suffixes.get_index_of(&(letter, *rest)) {
            numbers.push(place as u32 + 1)?;
        }
    }
    Ok(())
}
