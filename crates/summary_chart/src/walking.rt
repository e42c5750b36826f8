ghost use Rattle.std.specs.Prelude.{◌≡◌, ◌+◌, ◌<◌, ◌≤◌, ℕ, List, length, take, drop, MatchOption, IfSome, IsSome, OnOk, [], Some, None, get_or};
ghost use Rattle.lexicon_definitions.specs.Tries.{walk};
ghost use Rattle.lexicon_definitions.specs.declared.limits.TheConstants.{MOST_RULE_LETTERS};
ghost use Rattle.answer_paths.specs.Fronts.{supplied};
ghost use Rattle.search_frames.specs.Frames.{numbered_of};
ghost use Rattle.search_frames.specs.declared.frame.TheConstants.{NODES_OF_FRAME};
ghost use Rattle.summary_chart.specs.Fronts.{AreFronts, AreWalkedFrom, IsFrontAt, IsNextFront};
ghost use Rattle.summary_chart.specs.LeadWalks.{IsLeadWalk};
ghost use Rattle.summary_chart.specs.Sites.{IsSite};

use super::site::{Front, Site};
use outside::Steps;
use phoneme::{Letter, Memory};
use search_frames::supplied_letters;
use shared_trie::{Node, Store};

/// Where the word leads from the node. Takes at most a step for each letter.
fn walk_word<L>(store: &Store, node: Node, word: &[Letter], steps: &mut Steps<L>) -> Option<Node>
    requires there { node < length store.now.rows }
    ensures value { result ≡ walk store.now.rows node word.now }
    ensures there { IfSome result (λ reached. reached < length store.now.rows) }
    ensures steps { steps.new ≤ steps.old + length word.now }
{
    let mut reached = node;
    for letter in word {
        reached = store.child(reached, *letter, steps)?;
    }
    Some(reached)
}

/// Walks from the node along the letters as far as they lead, and puts the node itself and those after one letter, two letters and so
/// on into the list, which is empty. Refused only for want of memory.
fn walk_letters<L>(
    store: &Store,
    node: Node,
    letters: &[Letter],
    nodes: &mut Vec<Node>,
    steps: &mut Steps<L>,
) -> Result<(), Memory>
    requires there { node < length store.now.rows }
    requires empty { nodes.old.items ≡ [] }
    requires short { (word : List ℕ) → IsSome (walk store.now.rows node word) → length word < NODES_OF_FRAME }
    ensures walked { OnOk result (AreWalkedFrom store.now.rows node letters.now nodes.new.items) }
    ensures steps { steps.new ≤ steps.old + NODES_OF_FRAME }
{
    nodes.push(node)?;
    let mut reached = node;
    for letter in letters {
        let Some(child) = store.child(reached, *letter, steps) else {
            break;
        };
        nodes.push(child)?;
        reached = child;
    }
    Ok(())
}

/// Where the letters that the rule before supplies at a place lead from the root from which they were last gone along, if they were.
#[derive(Clone, Copy)]
pub(crate) struct LeadWalk {
    root: Option<Node>,
    node: Option<Node>,
}

impl LeadWalk {
    /// The letters were not gone along yet.
    pub fn none() -> LeadWalk
        ensures { result.root ≡ None }
    {
        LeadWalk {
            root: None,
            node: None,
        }
    }

    /// Where the letters that are supplied at the place lead from the root of the phase. They are gone along where the last root was another.
    fn node<L>(&mut self, site: Site<'_>, phase: u32, steps: &mut Steps<L>) -> Option<Node>
        requires site { IsSite site }
        requires phase { phase < length site.lexicon.now.lexicon.rules.names }
        requires known { IsLeadWalk site.lexicon.now (numbered_of site.lexicon.now site.place.now) self.old }
        ensures value { let here = site.entry in walk here.lexicon.now.tries.trie.rows (get_or here.lexicon.now.tries.trie.roots phase 0) (supplied (numbered_of here.lexicon.now here.place.now).entrance) ≡ result }
        ensures known { IsLeadWalk site.entry.lexicon.now (numbered_of site.entry.lexicon.now site.entry.place.now) self.new }
        ensures steps { steps.new ≤ steps.old + MOST_RULE_LETTERS }
    {
        let lexicon = site.lexicon;
        let store = lexicon.tries().store();
        let root = store.root(phase);
        if let Some(last) = self.root {
            if last == root {
                return self.node;
            }
        }
        let lead = supplied_letters(lexicon.rules(), site.place.entrance);
        self.root = Some(root);
        self.node = walk_word(store, root, lead, steps);
        self.node
    }
}

/// The front of the phase, counted from 0, that takes no letter of the line, if the letters that the rule before supplies at the place lead
/// anywhere. These letters are gone along once for phases with one root that come after one another.
pub(crate) fn first_front_after<L>(
    site: Site<'_>,
    phase: u32,
    lead: &mut LeadWalk,
    steps: &mut Steps<L>,
) -> Option<Front>
    requires site { IsSite site }
    requires phase { phase < length site.lexicon.now.lexicon.rules.names }
    requires known { IsLeadWalk site.lexicon.now (numbered_of site.lexicon.now site.place.now) lead.old }
    ensures front { let here = site.entry in (limit : ℕ) → here.place.now.at ≤ limit → IsNextFront here.lexicon.now here.line.now (numbered_of here.lexicon.now here.place.now) phase limit 0 result }
    ensures known { IsLeadWalk site.entry.lexicon.now (numbered_of site.entry.lexicon.now site.entry.place.now) lead.new }
    ensures steps { steps.new ≤ steps.old + MOST_RULE_LETTERS }
{
    let Some(node) = lead.node(site, phase, steps) else {
        return None;
    };
    Some(Front {
        phase,
        taken: 0,
        node,
    })
}

/// The front of the phase, counted from 0, that takes no letter of the line, if the letters that the rule before supplies at the place lead
/// anywhere.
pub(crate) fn first_front<L>(site: Site<'_>, phase: u32, steps: &mut Steps<L>) -> Option<Front>
    requires site { IsSite site }
    requires phase { phase < length site.lexicon.now.lexicon.rules.names }
    ensures front { let here = site.entry in (limit : ℕ) → here.place.now.at ≤ limit → IsNextFront here.lexicon.now here.line.now (numbered_of here.lexicon.now here.place.now) phase limit 0 result }
    ensures steps { steps.new ≤ steps.old + MOST_RULE_LETTERS }
{
    first_front_after(site, phase, &mut LeadWalk::none(), steps)
}

/// Walks on from the front, which takes no letter, along the letters of the line up to the limit as far as they lead: the list has then the
/// node after each number of letters of the line, from none on. Refused only for want of memory.
pub(crate) fn walk_on<L>(
    site: Site<'_>,
    first: &Front,
    limit: u32,
    nodes: &mut Vec<Node>,
    steps: &mut Steps<L>,
) -> Result<(), Memory>
    requires site { IsSite site }
    requires first { IsFrontAt site.lexicon.now site.line.now (numbered_of site.lexicon.now site.place.now) first.now.phase 0 first.now.node }
    requires low { site.place.now.at ≤ limit }
    requires within { limit ≤ length site.line.now.letters }
    ensures fronts { OnOk result (AreFronts site.entry.lexicon.now site.entry.line.now (numbered_of site.entry.lexicon.now site.entry.place.now) first.now.phase limit nodes.new.items) }
    ensures steps { steps.new ≤ steps.old + NODES_OF_FRAME }
{
    nodes.clear();
    let line = site.line;
    let letters = &line.letters.as_slice()[site.place.at as usize..limit as usize];
    walk_letters(
        site.lexicon.tries().store(),
        first.node,
        letters,
        nodes,
        steps,
    )
}

/// Walks from the root of the phase, counted from 0, along the letters that the rule before supplies at the place, and then along
/// those of the line up to the limit as far as they lead: the list has then the node after each number of letters of the line, from none
/// on. Refused only for want of memory.
pub(crate) fn walk_fronts<L>(
    site: Site<'_>,
    phase: u32,
    limit: u32,
    nodes: &mut Vec<Node>,
    steps: &mut Steps<L>,
) -> Result<(), Memory>
    requires site { IsSite site }
    requires phase { phase < length site.lexicon.now.lexicon.rules.names }
    requires low { site.place.now.at ≤ limit }
    requires within { limit ≤ length site.line.now.letters }
    ensures fronts { OnOk result (AreFronts site.entry.lexicon.now site.entry.line.now (numbered_of site.entry.lexicon.now site.entry.place.now) phase limit nodes.new.items) }
    ensures steps { steps.new ≤ steps.old + MOST_RULE_LETTERS + NODES_OF_FRAME }
{
    let Some(first) = first_front(site, phase, steps) else {
        nodes.clear();
        return Ok(());
    };
    walk_on(site, &first, limit, nodes, steps)
}

/// The front with one letter of the line more, if it goes no further than the limit and leads anywhere.
pub(crate) fn longer_front<L>(
    site: Site<'_>,
    front: &Front,
    limit: u32,
    steps: &mut Steps<L>,
) -> Option<Front>
    requires site { IsSite site }
    requires front { IsFrontAt site.lexicon.now site.line.now (numbered_of site.lexicon.now site.place.now) front.now.phase front.now.taken front.now.node }
    requires near { site.place.now.at + front.now.taken ≤ limit }
    requires within { limit ≤ length site.line.now.letters }
    ensures front { let here = site.entry in IsNextFront here.lexicon.now here.line.now (numbered_of here.lexicon.now here.place.now) front.now.phase limit (front.now.taken + 1) result }
    ensures steps { steps.new ≤ steps.old + 1 }
{
    let end = site.place.at + front.taken;
    if end == limit {
        return None;
    }
    let line = site.line;
    let letter = line.letters.as_slice()[end as usize];
    let store = site.lexicon.tries().store();
    let Some(node) = store.child(front.node, letter, steps) else {
        return None;
    };
    Some(Front {
        phase: front.phase,
        taken: front.taken + 1,
        node,
    })
}
