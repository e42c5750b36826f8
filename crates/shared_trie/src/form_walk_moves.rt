ghost use Rattle.std.specs.Prelude.{◌≡◌, ◌<◌, ◌∷◌, length, reverse, vec_capacity, MatchOption};
ghost use Rattle.lexicon_definitions.specs.Tries.{AreRows, row_of};
ghost use Rattle.shared_trie.specs.FormWalks.{IsAtForm, IsGoingDown, IsOnWay, forms_from, forms_left, forms_to_come};

use super::form_walk_level::Level;
use super::{Node, Store};
use phoneme::Letter;

/// Goes from the node to its first form, along first children.
pub(crate) fn go_down(store: &Store, letters: &mut Vec<Letter>, levels: &mut Vec<Level>, node: Node)
    requires rows { AreRows store.now.rows }
    requires on_way { IsGoingDown store.now.rows letters.old.items (reverse levels.old.items) (vec_capacity letters.old) (vec_capacity levels.old) node }
    ensures at { IsAtForm store.now.rows letters.new.items (reverse levels.new.items) (vec_capacity letters.new) (vec_capacity levels.new) }
    ensures left { forms_left store.now.rows letters.new.items (reverse levels.new.items)
        ≡ forms_from store.now.rows letters.old.items (reverse levels.old.items) node }
{
    let mut node = node;
    while !store.accepts(node) {
        node = enter(store, letters, levels, Level { node, walked: 0 });
    }
    let Ok(()) = levels.push(Level { node, walked: 0 }) else {
        unreachable!();
    };
}

/// Goes from the level, which is not among the others, to its next child.
fn enter(store: &Store, letters: &mut Vec<Letter>, levels: &mut Vec<Level>, level: Level) -> Node
    requires rows { AreRows store.now.rows }
    requires on_way { IsOnWay store.now.rows letters.old.items (reverse levels.old.items) (vec_capacity letters.old) (vec_capacity levels.old) level.node }
    requires child { level.walked < length (row_of store.now.rows level.node).children }
    ensures down { IsGoingDown store.now.rows letters.new.items (reverse levels.new.items) (vec_capacity letters.new) (vec_capacity levels.new) result }
    ensures left { forms_from store.now.rows letters.new.items (reverse levels.new.items) result
        ≡ forms_to_come store.now.rows letters.old.items (level ∷ reverse levels.old.items) }
    ensures before { result < level.node }
{
    let child = store.children_of(level.node)[level.walked];
    let Ok(()) = letters.push(child.0) else {
        unreachable!();
    };
    let next = Level {
        node: level.node,
        walked: level.walked + 1,
    };
    let Ok(()) = levels.push(next) else {
        unreachable!();
    };
    child.1
}

/// Leaves the present form: goes up to the deepest level that has a child left, and answers this child. `None` where no level has
/// one.
pub(crate) fn next_node(
    store: &Store,
    letters: &mut Vec<Letter>,
    levels: &mut Vec<Level>,
) -> Option<Node>
    requires rows { AreRows store.now.rows }
    requires at { IsAtForm store.now.rows letters.old.items (reverse levels.old.items) (vec_capacity letters.old) (vec_capacity levels.old) }
    ensures { MatchOption result
        (IsAtForm store.now.rows letters.new.items (reverse levels.new.items) (vec_capacity letters.new) (vec_capacity levels.new)
        × (forms_left store.now.rows letters.new.items (reverse levels.new.items) ≡ forms_to_come store.now.rows letters.old.items (reverse levels.old.items)))
        (λ node. IsGoingDown store.now.rows letters.new.items (reverse levels.new.items) (vec_capacity letters.new) (vec_capacity levels.new) node
        × (forms_from store.now.rows letters.new.items (reverse levels.new.items) node ≡ forms_to_come store.now.rows letters.old.items (reverse levels.old.items))) }
{
    while let Some(level) = levels.pop() {
        if level.walked < store.children_of(level.node).len() {
            return Some(enter(store, letters, levels, level));
        }
        letters.pop();
    }
    None
}
