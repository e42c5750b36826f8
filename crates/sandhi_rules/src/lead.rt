ghost use Rattle.std.specs.Prelude.{◌≡◌, ◌≤◌, ◌↔◌, length, Contains, IsTrue, OnOk};
ghost use Rattle.std.specs.List.Sorted.{IsStrictlySortedBy};
ghost use Rattle.lexicon_definitions.specs.Leads.{compare_leads, lead_of, with_lead, IsLeadPlace};
ghost use Rattle.lexicon_definitions.specs.Rules.{IsInner, HasPhase};

use super::Rule;
use super::rule::has_phase;
use lexicon_definitions::MOST_LEADS;
use phoneme::{Memory, Word};
use std::alloc::Global;
use std::cmp::Ordering;
use std::marker::Model;

/// What an inner rule says of the form after it (own): this begins with `v` and is of a phase in `after`. Bit `k` of
/// `after` stands for phase `k`, counted from 0.
#[derive(Drop)]
pub struct Lead {
    pub v: Word,
    pub after: u16,
}

impl Model for Lead {
    ghost use Rattle.lexicon_definitions.specs.Leads.{Lead as LeadValue};

    ghost Value = { LeadValue };

    ghost view = { λ l. record { v = l.v; after = l.after } };
}

impl Lead {
    /// How the lead compares with that of an inner rule: by `v`, then by the number of the set of phases.
    pub(crate) fn compare_with(&self, rule: &Rule) -> Ordering
        ensures { result ≡ compare_leads self.now (lead_of rule.now) }
    {
        self.v.compare(&rule.v).then(self.after.cmp(&rule.after))
    }

    /// Whether a form of this phase, counted from 0, may come after the rule.
    pub fn may_precede(&self, phase: u32) -> bool
        ensures { IsTrue result ↔ HasPhase self.now.after phase }
    {
        has_phase(self.after, phase)
    }
}

/// Puts the lead of the rule into rising leads, unless it is there. A final rule has no lead.
pub fn add_lead(alloc: Global, leads: &mut Vec<Lead>, rule: &Rule) -> Result<(), Memory>
    requires { IsStrictlySortedBy compare_leads leads.old.items }
    ensures ok { OnOk result (leads.new.items ≡ with_lead leads.old.items rule.now.v rule.now.after) }
{
    if rule.is_final() {
        return Ok(());
    }
    let found = leads.binary_search_by(|lead| lead.compare_with(rule));
    if let Err(at) = found {
        let lead = Lead {
            v: rule.v.copy(alloc)?,
            after: rule.after,
        };
        leads.insert(at, lead)?;
    }
    Ok(())
}

/// The place of the rule's lead among the leads, counted from 0; `None` for a final rule.
pub(crate) fn place_of_lead(leads: &[Lead], rule: &Rule) -> Option<u16>
    requires count { length leads.now ≤ MOST_LEADS }
    requires rising { IsStrictlySortedBy compare_leads leads.now }
    requires there { IsInner rule.now → Contains leads.now (lead_of rule.now) }
    ensures { IsLeadPlace leads.now rule.now result }
{
    if rule.is_final() {
        return None;
    }
    match leads.binary_search_by(|lead| lead.compare_with(rule)) {
        Ok(place) => Some(place as u16),
        Err(_place) => unreachable!(),
    }
}
