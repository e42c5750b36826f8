ghost use Rattle.std.specs.Prelude.{◌≡◌, ◌≢◌, ℕ, ◌+◌, ◌<◌, ◌++◌, ◌↔◌, List, length, map, All, AllPairs, Contains, IfOk, IsTrue, OnOk};
ghost use Rattle.lexicon_definitions.specs.Lexicons.{Form};
ghost use Rattle.lexicon_definitions.specs.Tries.{IsTrie, IsTrieOf, row_of};
ghost use Rattle.trie_text_definitions.specs.PrintableRows.{IsPrintable};
ghost use Rattle.trie_text_definitions.specs.VersionTexts.{IsLedTo, IsOrderedTrieOf};
ghost use Rattle.shared_trie.specs.CanonicalNodes.{AreMarked, ArePlaced, IsCanonical, IsLevelOf, NodeText, height_of, numbered_row, text_of_node, trie_of_nodes};

use super::canonical_lines::push_node_line;
use super::canonical_marks::mark_led_to;
use super::placed_line::{PlacedLine, sort_lines};
use super::{Node, NodeNumbers, Store};
use phoneme::Memory;
use std::alloc::Global;

impl Store {
    /// The nodes to which some root leads, roots included, each once, by their height and then by the bytes of their lines in a
    /// lexicon file, where a child is named by its place in this order (own).
    pub fn canonical(&self, alloc: Global) -> Result<Vec<Node>, Memory>
        ensures ok { IfOk result (λ nodes. IsCanonical self.now nodes.items) }
        ensures ordered { IfOk result (λ nodes. (phases : List (List Form)) → IsTrieOf self.now phases → IsOrderedTrieOf (trie_of_nodes self.now nodes.items) phases) }
    {
        Ok(self.numbered(alloc)?.into_nodes())
    }

    /// The same nodes, each with its place.
    pub fn numbered(&self, alloc: Global) -> Result<NodeNumbers, Memory>
        ensures ok { IfOk result (λ numbers. IsCanonical self.now numbers.nodes) }
        ensures ordered { IfOk result (λ numbers. (phases : List (List Form)) → IsTrieOf self.now phases → IsOrderedTrieOf (trie_of_nodes self.now numbers.nodes) phases) }
    {
        let marks = mark_led_to(alloc, self)?;
        let mut numbers = NodeNumbers::new(alloc, self.len())?;
        for height in 0..count_levels(self) {
            place_level(alloc, self, marks.as_slice(), height, &mut numbers)?;
        }
        Ok(numbers)
    }
}

/// One more than the greatest height of a node.
fn count_levels(store: &Store) -> usize
    ensures { (node : ℕ) → node < length store.now.rows → height_of store.now.rows node < result }
{
    let mut levels = 0;
    for number in 0..store.len() {
        levels = levels.max(store.height(store.node(number)) as usize + 1);
    }
    levels
}

/// The marked nodes of the height.
fn level_of(
    alloc: Global,
    store: &Store,
    marks: &[bool],
    height: usize,
) -> Result<Vec<Node>, Memory>
    requires { AreMarked store.now marks.now }
    ensures { IfOk result (λ level. IsLevelOf store.now height level.items) }
{
    let mut level = Vec::new(alloc);
    for number in 0..store.len() {
        let node = store.node(number);
        if !is_of_level(store, marks, node, height) {
            continue;
        }
        level.push(node)?;
    }
    Ok(level)
}

/// Whether the node is marked and has the height.
fn is_of_level(store: &Store, marks: &[bool], node: Node, height: usize) -> bool
    requires trie { IsTrie store.now }
    requires there { node < length store.now.rows }
    requires marks { AreMarked store.now marks.now }
    ensures { IsTrue result ↔ (IsLedTo store.now node × (height_of store.now.rows node ≡ height)) }
{
    marks[node.number() as usize] && store.height(node) as usize == height
}

/// The line of each of these nodes, whose children have numbers.
fn lines_of(
    alloc: Global,
    store: &Store,
    numbers: &NodeNumbers,
    level: &[Node],
) -> Result<Vec<PlacedLine>, Memory>
    requires there { All (λ node. node < length store.now.rows) level.now }
    requires children { All (λ node. All (λ (child : ℕ × ℕ). Contains numbers.now.nodes child.1) (row_of store.now.rows node).children) level.now }
    ensures ok { IfOk result (λ lines. lines.items ≡ map (text_of_node store.now.rows numbers.now.nodes) level.now) }
    ensures printable { IfOk result (λ lines. All (λ node. IsPrintable (numbered_row numbers.now.nodes (row_of store.now.rows node))) level.now) }
{
    let mut lines = Vec::with_capacity(alloc, level.len())?;
    for node in level {
        lines.push(line_of(alloc, store, numbers, *node)?)?;
    }
    Ok(lines)
}

/// The line of the node, whose children have numbers.
fn line_of(
    alloc: Global,
    store: &Store,
    numbers: &NodeNumbers,
    node: Node,
) -> Result<PlacedLine, Memory>
    requires there { node < length store.now.rows }
    requires children { All (λ (child : ℕ × ℕ). Contains numbers.now.nodes child.1) (row_of store.now.rows node).children }
    ensures ok { IfOk result (λ line. line ≡ text_of_node store.now.rows numbers.now.nodes node) }
    ensures printable { IfOk result (λ line. IsPrintable (numbered_row numbers.now.nodes (row_of store.now.rows node))) }
{
    let mut bytes = Vec::with_capacity(alloc, 32)?;
    let deltas = store.deltas(node);
    let children = store.children_of(node);
    push_node_line(alloc, &mut bytes, deltas, children, numbers)?;
    Ok(PlacedLine::new(node, bytes))
}

/// Gives the nodes of the height the next numbers, in the order of their lines.
fn place_level(
    alloc: Global,
    store: &Store,
    marks: &[bool],
    height: usize,
    numbers: &mut NodeNumbers,
) -> Result<(), Memory>
    requires trie { IsTrie store.now }
    requires marks { AreMarked store.now marks.now }
    requires count { numbers.old.count ≡ length store.now.rows }
    requires placed { ArePlaced store.now height numbers.old.nodes }
    ensures count { numbers.new.count ≡ numbers.old.count }
    ensures placed { OnOk result (ArePlaced store.now (height + 1) numbers.new.nodes) }
{
    let level = level_of(alloc, store, marks, height)?;
    let mut lines = lines_of(alloc, store, numbers, level.as_slice())?;
    sort_lines(lines.as_mut_slice());
    number_lines(numbers, lines.as_slice())
}

/// Gives the nodes of these lines the next numbers.
fn number_lines(numbers: &mut NodeNumbers, lines: &[PlacedLine]) -> Result<(), Memory>
    requires there { All (λ (line : NodeText). line.node < numbers.old.count) lines.now }
    requires apart { AllPairs (λ (left right : ℕ). left ≢ right) (numbers.old.nodes ++ map (λ (line : NodeText). line.node) lines.now) }
    ensures count { numbers.new.count ≡ numbers.old.count }
    ensures ok { OnOk result (numbers.new.nodes ≡ numbers.old.nodes ++ map (λ (line : NodeText). line.node) lines.now) }
{
    for line in lines {
        numbers.push(line.node())?;
    }
    Ok(())
}
