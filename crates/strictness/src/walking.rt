ghost use Rattle.std.specs.Prelude.{◌≡◌, ◌∷◌, [], ◌++◌, ◌<◌, length, IfOk, OnOk};
ghost use Rattle.lexicon_definitions.specs.Leads.{leads_of};
ghost use Rattle.strictness.specs.Walks.{IsWalk, MayBegin, AreWithin, IsOwn, IsBelow};
ghost use Rattle.strictness.specs.Appending.{AppendsFirst};

use super::found::Found;
use super::pairs::add_of_form;
use super::phase_walk::{PhaseWalk, leads_on};
use outside::Steps;
use phoneme::{Letter, Memory, Word};
use shared_trie::Node;
use std::alloc::Global;

/// The front with a letter after it.
fn longer(alloc: Global, front: &Word, letter: Letter) -> Result<Word, Memory>
    ensures { IfOk result (λ word. word ≡ front.now ++ letter ∷ []) }
{
    let mut word = front.copy(alloc)?;
    word.push(letter)?;
    Ok(word)
}

/// Appends the first overlaps in the form that ends at the node, where one does.
fn add_own(walk: &PhaseWalk<'_>, node: Node, front: &Word, found: &mut Found) -> Result<(), Memory>
    requires walk { IsWalk walk.now }
    requires node { node < length walk.now.store.now.rows }
    ensures ok { OnOk result (AppendsFirst (IsOwn walk.now.rules.now walk.now.store.now.rows walk.now.phase front.now node) found.old found.new) }
{
    if !walk.store.accepts(node) {
        return Ok(());
    }
    add_of_form(
        found.alloc,
        walk.rules,
        walk.letters,
        walk.phase,
        front,
        found,
    )
}

/// Appends the first overlaps in the forms that begin with the front and go on from the node, by rising form. The walk ends where no
/// lead is left with which a form may begin; so it goes no deeper than a form with an overlap has letters.
pub(crate) fn add_below(
    walk: &PhaseWalk<'_>,
    node: Node,
    front: &Word,
    candidates: &[u32],
    found: &mut Found,
) -> Result<(), Memory>
    requires walk { IsWalk walk.now }
    requires node { node < length walk.now.store.now.rows }
    requires candidates { AreWithin (MayBegin walk.now.rules.now walk.now.phase walk.now.longest front.now) (length (leads_of walk.now.rules.now.rules)) candidates.now }
    ensures ok { OnOk result (AppendsFirst (IsBelow walk.now.rules.now walk.now.store.now.rows walk.now.phase front.now node) found.old found.new) }
{
    if found.is_full() {
        return Ok(());
    }
    let leads = leads_on(found.alloc, walk, candidates, front)?;
    if leads.is_empty() {
        return Ok(());
    }
    add_own(walk, node, front, found)?;
    for (letter, child) in walk.store.children(node, &mut Steps::<()>::new()) {
        let further = longer(found.alloc, front, *letter)?;
        add_below(walk, *child, &further, leads.as_slice(), found)?;
    }
    Ok(())
}
