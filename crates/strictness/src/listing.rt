ghost use Rattle.std.specs.Prelude.{◌≡◌, ◌<◌, ◌≤◌, All, length, OnOk, IfOk};
ghost use Rattle.trie_text_definitions.specs.TrieForms.{phases_of};
ghost use Rattle.segmentation_definitions.specs.Overlaps.{IsOverlap};
ghost use Rattle.strictness.specs.Overlaps.{AreFirstOverlaps};
ghost use Rattle.std.specs.Ordering.{nat_cmp};
ghost use Rattle.lexicon_definitions.specs.Leads.{leads_of};
ghost use Rattle.list_laws.specs.Firsts.{AreAll};
ghost use Rattle.strictness.specs.Walks.{IsWalk};
ghost use Rattle.strictness.specs.Appending.{AppendsFirst};

use super::Overlap;
use super::found::Found;
use super::letters::LettersOfRules;
use super::phase_walk::{PhaseWalk, all_leads, longest_of_all};
use super::walking::add_below;
use phoneme::{Memory, Word};
use sandhi_rules::RuleSet;
use shared_trie::Store;
use std::alloc::Global;

/// Appends the first overlaps of the phase, by rising form.
fn add_of_phase(walk: &PhaseWalk<'_>, leads: &[u32], found: &mut Found) -> Result<(), Memory>
    requires walk { IsWalk walk.now }
    requires leads { AreAll nat_cmp (λ place. place < length (leads_of walk.now.rules.now.rules)) leads.now }
    requires phase { walk.now.phase < length walk.now.store.now.roots }
    ensures ok { OnOk result (AppendsFirst (λ overlap. IsOverlap (record { rules = walk.now.rules.now; phases = phases_of walk.now.store.now }) overlap × (overlap.phase ≡ walk.now.phase)) found.old found.new) }
{
    let root = walk.store.root(walk.phase);
    let front = Word::new(found.alloc);
    add_below(walk, root, &front, leads, found)
}

/// The first overlaps of a lexicon with these forms and rules, as many as `most`, and all where there are fewer: by phase,
/// then by form, then by the number of the rule before, then by that of the rule after.
pub fn overlaps(
    alloc: Global,
    store: &Store,
    rules: &RuleSet,
    most: u32,
) -> Result<Vec<Overlap>, Memory>
    requires { length store.now.roots ≡ length rules.now.names }
    ensures ok { IfOk result (λ overlaps. AreFirstOverlaps (record { rules = rules.now; phases = phases_of store.now }) most overlaps.items) }
{
    if rules.rules().is_empty() {
        return Ok(Vec::new(alloc));
    }
    // The proof knows that the store is a trie only where it is read.
    let _nodes = store.len();
    let letters = LettersOfRules::new(alloc, rules)?;
    let leads = all_leads(alloc, rules)?;
    let longest = longest_of_all(rules);
    let mut found = Found::new(alloc, most as usize);
    for phase in 0..rules.phases().len() as u32 {
        let walk = PhaseWalk {
            rules,
            letters: &letters,
            store,
            phase,
            longest,
        };
        add_of_phase(&walk, leads.as_slice(), &mut found)?;
    }
    let Found { overlaps, .. } = found;
    Ok(overlaps)
}
