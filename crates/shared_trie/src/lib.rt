//! All phases of a lexicon as one trie with shared subtrees (Huet 2005): a node stands for a set of suffixes with the deltas
//! of each, and equal sets are one node, over all phases.
//!
//! Proved: contracts see a `Store` as the rows of its nodes and a root for each phase. Children have smaller numbers than their
//! parents, and no two rows are the same (`trie` of `len`), so no two nodes stand for the same suffixes (`nodes_are_told_by_suffixes`
//! of `lexicon_definitions`). `root`, `roots`, `child`, `accepts`, `deltas`, `children` and `len` read the rows (`value`); `height` is
//! the length of the longest suffix. `child` takes one step, and `children` one for each child and one more (`steps`). A `FormWalk` is
//! the list of the forms of a node that are left, rising, each with its deltas: all of them at first (`ok` of `new`), and one less after
//! `advance`, which takes no memory. `analyses_by_deltas` gives a form's analyses (`ok`).
//!
//! `canonical` gives the nodes to which some root leads in the order in which lexicon files tell them (`ok`), which make the ordered trie
//! of the same phases (`ordered`), and `numbered` each of them with its number; `push_node_line` appends a node's line (`ok`). A `StoreBuilder` makes a store
//! of entries as they come, each above the last: contracts see it as the forms of each phase so far, to which `push` adds one entry (`ok`),
//! and `finish` gives the trie of just these forms (`ok`). That each row is hashed once, and that nothing is kept of a form but its nodes,
//! is only measured.
#![tactic(auto)]

mod analyses;
mod canonical;
mod canonical_laws;
mod canonical_letters;
mod canonical_lines;
mod canonical_marks;
mod chains;
mod delta_lists;
mod delta_numbers;
mod deltas;
mod form_walk;
mod form_walk_level;
mod form_walk_moves;
mod hashes;
mod heights;
mod interned;
mod known_lists;
mod letter_set;
mod list_numbers;
mod node;
mod node_numbers;
mod node_table;
mod open_path;
mod open_trie;
mod packed_node;
mod placed_line;
mod sharing;
mod shortcuts;
mod store;
mod store_builder;
mod told_forms;
mod trie_so_far;

pub use analyses::analyses_by_deltas;
pub use canonical_laws::nodes_in_their_order_make_an_ordered_trie;
pub use canonical_letters::push_letters;
pub use canonical_lines::{push_node_line, push_number};
pub use form_walk::{FormWalk, WalkedForm};
pub use node::Node;
pub use node_numbers::NodeNumbers;
pub use sharing::stores_are_shared;
pub use store::Store;
pub use store_builder::StoreBuilder;
pub use trie_so_far::TrieSoFar;
