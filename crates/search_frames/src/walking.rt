ghost use Rattle.std.specs.Prelude.{◌≡◌, ◌+◌, ◌*◌, ◌++◌, ◌<◌, ◌≤◌, ℕ, List, length, take, slice_index_or, Some, IfSome, IsSome, MatchOption};
ghost use Rattle.lexicon_definitions.specs.Leads.{leads_of};
ghost use Rattle.lexicon_definitions.specs.Tries.{walk};
ghost use Rattle.derivation.specs.Guides.{IsEntranceOver, entrance_of};
ghost use Rattle.answer_paths.specs.Fronts.{supplied};
ghost use Rattle.search_frames.specs.declared.frame.TheConstants.{NODES_OF_FRAME};
ghost use Rattle.search_frames.specs.Frames.{IsConfigurationIn, numbered_of};
ghost use Rattle.search_frames.specs.Walks.{IsNodeAt, IsNodeAmong};

use super::{Configuration, NODES_OF_FRAME};
use annotated_trie::Lexicon;
use derivation::{Entrance, Key};
use outside::Steps;
use phoneme::{Letter, Line};
use sandhi_rules::RuleSet;
use shared_trie::{Node, Store};

/// The letters that the rule before supplies to a form that is entered so.
pub fn supplied_letters(rules: &RuleSet, entrance: Entrance) -> &[Letter]
    requires { IsEntranceOver (leads_of rules.now.rules) entrance }
    ensures { result.now ≡ supplied (entrance_of (leads_of rules.now.rules) entrance) }
{
    match entrance {
        Entrance::Start | Entrance::Plain(_) => &[],
        Entrance::Lead(place) => {
            let lead = &rules.leads()[usize::from(place)];
            lead.v.as_slice()
        }
    }
}

/// Where the word leads from the node. Takes at most a step for each letter, and at most one step more than the longest word that
/// leads somewhere has letters.
fn walk_word<L>(store: &Store, node: Node, word: &[Letter], steps: &mut Steps<L>) -> Option<Node>
    requires there { node < length store.now.rows }
    requires short { (word : List ℕ) → IsSome (walk store.now.rows node word) → length word < NODES_OF_FRAME }
    ensures value { result ≡ walk store.now.rows node word.now }
    ensures there { IfSome result (λ reached. reached < length store.now.rows) }
    ensures steps { MatchOption result (steps.new ≤ steps.old + NODES_OF_FRAME) (λ _. steps.new ≡ steps.old + length word.now) }
{
    let mut reached = node;
    for letter in word {
        reached = store.child(reached, *letter, steps)?;
    }
    Some(reached)
}

/// Walks from the node along the letters as far as they lead, and puts the node itself and those after one letter, two letters and so
/// on at the first places of `nodes`. Answers how many nodes these are.
fn walk_letters<L>(
    store: &Store,
    node: Node,
    letters: &[Letter],
    nodes: &mut Vec<Node>,
    steps: &mut Steps<L>,
) -> u32
    requires there { node < length store.now.rows }
    requires room { NODES_OF_FRAME ≤ length nodes.old.items }
    requires short { (word : List ℕ) → IsSome (walk store.now.rows node word) → length word < NODES_OF_FRAME }
    ensures count { length nodes.new.items ≡ length nodes.old.items }
    ensures few { result ≤ NODES_OF_FRAME }
    ensures within { result ≤ length letters.now + 1 }
    ensures walked { (taken : ℕ) → taken < result → walk store.now.rows node (take taken letters.now) ≡ Some (slice_index_or nodes.new.items taken 0) }
    ensures all { (taken : ℕ) → taken ≤ length letters.now → IsSome (walk store.now.rows node (take taken letters.now)) → taken < result }
    ensures some { 0 < result }
    ensures steps { steps.new ≤ steps.old + length letters.now }
{
    nodes[0] = node;
    let mut walked = 1;
    let mut reached = node;
    for letter in letters {
        let Some(child) = store.child(reached, *letter, steps) else {
            break;
        };
        nodes[walked] = child;
        walked += 1;
        reached = child;
    }
    walked as u32
}

/// Walks from the root along the lead and then along the letters as far as they lead, and puts the node after the lead and those after
/// one letter more, two letters more and so on at the first places of `nodes`. Answers how many nodes these are.
fn walk_fronts<L>(
    store: &Store,
    root: Node,
    lead: &[Letter],
    letters: &[Letter],
    nodes: &mut Vec<Node>,
    steps: &mut Steps<L>,
) -> u32
    requires there { root < length store.now.rows }
    requires room { NODES_OF_FRAME ≤ length nodes.old.items }
    requires short { (word : List ℕ) → IsSome (walk store.now.rows root word) → length word < NODES_OF_FRAME }
    ensures count { length nodes.new.items ≡ length nodes.old.items }
    ensures few { result ≤ NODES_OF_FRAME }
    ensures within { result ≤ length letters.now + 1 }
    ensures walked { (taken : ℕ) → taken < result → walk store.now.rows root (lead.now ++ take taken letters.now) ≡ Some (slice_index_or nodes.new.items taken 0) }
    ensures all { (taken : ℕ) → taken ≤ length letters.now → IsSome (walk store.now.rows root (lead.now ++ take taken letters.now)) → taken < result }
    ensures steps { steps.new + result ≤ steps.old + NODES_OF_FRAME + length letters.now }
{
    match walk_word(store, root, lead, steps) {
        None => 0,
        Some(node) => walk_letters(store, node, letters, nodes, steps),
    }
}

/// Walks in the trie of the key's phase along the letters that the rule before supplies to a form at the place and then along at most as
/// many letters of the line as the key takes. Puts the nodes after no letter of the line, one, two and so on at the first places of
/// `nodes`, and answers how many these are.
pub(crate) fn walk_place<L>(
    lexicon: &Lexicon,
    line: &Line,
    place: &Configuration,
    key: Key,
    nodes: &mut Vec<Node>,
    steps: &mut Steps<L>,
) -> u32
    requires place { IsConfigurationIn lexicon.now line.now place.now }
    requires phase { key.phase < length lexicon.now.lexicon.rules.names }
    requires taken { key.taken < NODES_OF_FRAME }
    requires room { NODES_OF_FRAME ≤ length nodes.old.items }
    ensures room { length nodes.new.items ≡ length nodes.old.items }
    ensures few { result ≤ NODES_OF_FRAME }
    ensures within { result ≤ key.taken + 1 }
    ensures walked { (taken : ℕ) → taken < result → IsNodeAmong lexicon.now line.now (numbered_of lexicon.now place.now) key.phase (take result nodes.new.items) taken }
    ensures all { (taken node : ℕ) → taken ≤ key.taken → place.now.at + taken ≤ length line.now.letters → IsNodeAt lexicon.now line.now (numbered_of lexicon.now place.now) key.phase taken node → taken < result }
    ensures steps { steps.new + result + 1 ≤ steps.old + 2 * NODES_OF_FRAME }
{
    let store = lexicon.tries().store();
    let lead = supplied_letters(lexicon.rules(), place.entrance);
    let letters = line.letters.as_slice();
    let at = place.at as usize;
    let end = letters.len().min(at + key.taken as usize);
    walk_fronts(
        store,
        store.root(key.phase),
        lead,
        &letters[at..end],
        nodes,
        steps,
    )
}
