ghost use Rattle.std.specs.Prelude.{◌≡◌, ℕ, ◌+◌, ◌<◌, ◌≤◌, ◌↔◌, length, All, IsTrue, IfOk};
ghost use Rattle.std.specs.Ordering.{nat_cmp};
ghost use Rattle.lexicon_definitions.specs.Leads.{leads_of};
ghost use Rattle.lexicon_definitions.specs.Limits.{IsRuleSetWithinLimits};
ghost use Rattle.list_laws.specs.Firsts.{AreAll};
ghost use Rattle.strictness.specs.Walks.{Agree, MayBegin, AreWithin};

use super::letters::LettersOfRules;
use super::matching::begins_with;
use phoneme::{Memory, Word};
use sandhi_rules::RuleSet;
use shared_trie::Store;
use std::alloc::Global;

/// What each step of a walk over the forms of a phase is given: the rules, the trie in which it goes, the phase, and the number
/// of letters of the longest `u`.
#[derive(Clone, Copy)]
pub(crate) struct PhaseWalk<'a> {
    pub rules: &'a RuleSet,
    pub letters: &'a LettersOfRules,
    pub store: &'a Store,
    pub phase: u32,
    pub longest: usize,
}

/// Whether one of the words begins with the other.
fn agree(v: &Word, front: &Word) -> bool
    ensures { IsTrue result ↔ Agree v.now front.now }
{
    begins_with(front, v) || begins_with(v, front)
}

/// Whether a form that begins with the front may begin with the `v` of the lead at this place, and be short enough for an
/// overlap with it.
fn may_begin(rules: &RuleSet, phase: u32, longest: usize, front: &Word, place: u32) -> bool
    requires { place < length (leads_of rules.now.rules) }
    ensures { IsTrue result ↔ MayBegin rules.now phase longest front.now place }
{
    let lead = &rules.leads()[place as usize];
    let is_near = front.len() < longest || front.len() - longest < lead.v.len();
    is_near && lead.may_precede(phase) && agree(&lead.v, front)
}

/// The places of the leads with which a form that begins with the front may begin, rising. They are sought among the candidates.
pub(crate) fn leads_on(
    alloc: Global,
    walk: &PhaseWalk<'_>,
    candidates: &[u32],
    front: &Word,
) -> Result<Vec<u32>, Memory>
    requires { AreWithin (MayBegin walk.now.rules.now walk.now.phase walk.now.longest front.now) (length (leads_of walk.now.rules.now.rules)) candidates.now }
    ensures ok { IfOk result (λ places. AreAll nat_cmp (MayBegin walk.now.rules.now walk.now.phase walk.now.longest front.now) places.items) }
{
    let mut places = Vec::new(alloc);
    for place in candidates {
        if may_begin(walk.rules, walk.phase, walk.longest, front, *place) {
            places.push(*place)?;
        }
    }
    Ok(places)
}

/// The places of all leads, rising.
pub(crate) fn all_leads(alloc: Global, rules: &RuleSet) -> Result<Vec<u32>, Memory>
    requires { IsRuleSetWithinLimits rules.now }
    ensures ok { IfOk result (λ places. AreAll nat_cmp (λ place. place < length (leads_of rules.now.rules)) places.items) }
{
    let mut places = Vec::new(alloc);
    for place in 0..rules.leads().len() as u32 {
        places.push(place)?;
    }
    Ok(places)
}

/// The number of letters of the longest `u` of a rule; 0 where there are no rules.
pub(crate) fn longest_of_all(rules: &RuleSet) -> usize
    ensures { All (λ rule. length rule.u ≤ result) rules.now.rules }
{
    let mut longest = 0;
    for rule in rules.rules() {
        longest = longest.max(rule.u.len());
    }
    longest
}
