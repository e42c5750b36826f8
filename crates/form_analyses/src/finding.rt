ghost use Rattle.std.specs.Prelude.{◌≡◌, ◌<◌, length, map, IfOk, IfSome};
ghost use Rattle.lexicon_definitions.specs.Lexicons.{forms_of};
ghost use Rattle.lexicon_definitions.specs.Tries.{walk};
ghost use Rattle.session_definitions.specs.PrintedSummaries.{analyses_among};
ghost use Rattle.form_tags.specs.Analyses.{text_analysis};

use annotated_trie::Lexicon;
use form_tags::Analysis;
use outside::Steps;
use phoneme::{Letter, Memory, Word};
use shared_trie::{Node, Store, analyses_by_deltas};
use std::alloc::Global;

/// The node to which the letters lead from this one. `None` where they lead nowhere.
fn node_after(store: &Store, from: Node, letters: &[Letter]) -> Option<Node>
    requires { from < length store.now.rows }
    ensures value { result ≡ walk store.now.rows from letters.now }
    ensures node { IfSome result (λ node. node < length store.now.rows) }
{
    let mut steps = Steps::<()>::new();
    let mut node = from;
    for letter in letters {
        node = store.child(node, *letter, &mut steps)?;
    }
    Some(node)
}

/// The analyses, rising, of the form in the phase with this number, counted from 0. There are no analyses where the phase has no such
/// form or the lexicon no such phase. Refused only for want of memory.
pub fn analyses_of_form(
    alloc: Global,
    lexicon: &Lexicon,
    phase: u32,
    form: &Word,
) -> Result<Vec<Analysis>, Memory>
    ensures ok { IfOk result (λ analyses. map text_analysis analyses.items ≡ analyses_among (forms_of lexicon.now.lexicon phase) form.now) }
{
    if phase as usize >= lexicon.rules().phases().len() {
        return Ok(Vec::new(alloc));
    }
    let store = lexicon.tries().store();
    let letters = form.as_slice();
    match node_after(store, store.root(phase), letters) {
        None => Ok(Vec::new(alloc)),
        Some(node) => analyses_by_deltas(alloc, letters, store.deltas(node)),
    }
}
