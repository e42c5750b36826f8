ghost use Rattle.std.specs.Prelude.{◌≡◌, ◌<◌, length, IfSome};
ghost use Rattle.lexicon_definitions.specs.Tries.{walk};
ghost use Rattle.annotated_trie.specs.Searched.{IsSearchedLexicon};
ghost use Rattle.chain_definitions.specs.ChainReadings.{has_form as has_form_of};

use annotated_trie::Lexicon;
use outside::Steps;
use phoneme::{Letter, Word};
use shared_trie::{Node, Store};

/// The node to which the letters lead from this one. `None` where they lead nowhere.
fn node_after(store: &Store, from: Node, letters: &[Letter]) -> Option<Node>
    requires { from < length store.now.rows }
    ensures value { result ≡ walk store.now.rows from letters.now }
    ensures node { IfSome result (λ node. node < length store.now.rows) }
{
    let mut steps = Steps::<()>::new();
    let mut node = from;
    for letter in letters {
        node = store.child(node, *letter, &mut steps)?;
    }
    Some(node)
}

/// Whether the phase, counted from 0, has a form with these letters.
pub(crate) fn has_form(lexicon: &Lexicon, phase: u32, form: &Word) -> bool
    requires searched { IsSearchedLexicon lexicon.now }
    requires phase { phase < length lexicon.now.lexicon.rules.names }
    ensures { result ≡ has_form_of lexicon.now.lexicon phase form.now }
{
    let store = lexicon.tries().store();
    match node_after(store, store.root(phase), form.as_slice()) {
        None => false,
        Some(node) => store.accepts(node),
    }
}
