ghost use Rattle.std.specs.Prelude.{◌≡◌, ◌≤◌, ◌↔◌, length, map, string_bytes, IsTrue, IsNone, IfSome, IfOk};
ghost use Rattle.lexicon_definitions.specs.Leads.{leads_of, IsLeadPlace};
ghost use Rattle.lexicon_definitions.specs.Lexicons.{IsRuleSet, IsPlain, rule_of};
ghost use Rattle.lexicon_definitions.specs.Limits.{IsRuleSetWithinLimits, IsShortRule};
ghost use Rattle.sandhi_rules.specs.LeadPlaces.{AreLeadPlaces};

use super::lead::{add_lead, place_of_lead};
use super::plain_pairs::PlainPairs;
use super::{Lead, Rule};
use lexicon_definitions::MOST_LEADS;
use phoneme::{Letter, Memory};
use std::alloc::Global;
use std::marker::Model;

/// Different names of phases, a grammar text over them, the plain pairs of letters, rising, and the rules, numbered
/// from 1, no two of which are the same triple; all within the limits of a rule set (rules after Huet 2005).
#[derive(Drop)]
pub struct RuleSet {
    phases: Vec<String>,
    grammar: Vec<u8>,
    plain: Vec<(Letter, Letter)>,
    rules: Vec<Rule>,
    leads: Vec<Lead>,
    lead_places: Vec<Option<u16>>,
    plain_pairs: PlainPairs,
}

impl Model for RuleSet {
    ghost use Rattle.std.specs.Prelude.{map, string_bytes};
    ghost use Rattle.lexicon_definitions.specs.Lexicons.{RuleSet as RuleSetValue};
    ghost use Rattle.sandhi_rules.specs.LeadPlaces.{IsRuleSetWithLookups};

    ghost Value = { RuleSetValue };

    ghost view = { λ r. record { names = map string_bytes r.phases.items; grammar = r.grammar.items; plain = r.plain.items; rules = r.rules.items } };

    ghost invariant = { λ r. IsRuleSetWithLookups (record { names = map string_bytes r.phases.items; grammar = r.grammar.items; plain = r.plain.items; rules = r.rules.items }) r.leads.items r.lead_places.items r.plain_pairs.allowed.items };
}

impl RuleSet {
    /// The rule set with these parts. The caller has tested that they are those of one, and within the limits.
    pub fn new(
        alloc: Global,
        phases: Vec<String>,
        grammar: Vec<u8>,
        plain: Vec<(Letter, Letter)>,
        rules: Vec<Rule>,
    ) -> Result<RuleSet, Memory>
        requires set { IsRuleSet (record { names = map string_bytes phases.items; grammar = grammar.items; plain = plain.items; rules = rules.items }) }
        requires limits { IsRuleSetWithinLimits (record { names = map string_bytes phases.items; grammar = grammar.items; plain = plain.items; rules = rules.items }) }
        ensures ok { IfOk result (λ set. set ≡ record { names = map string_bytes phases.items; grammar = grammar.items; plain = plain.items; rules = rules.items }) }
    {
        let leads = leads_of_rules(alloc, rules.as_slice())?;
        let lead_places = lead_places_of(alloc, leads.as_slice(), rules.as_slice())?;
        let plain_pairs = PlainPairs::of(alloc, plain.as_slice())?;
        Ok(RuleSet {
            phases,
            grammar,
            plain,
            rules,
            leads,
            lead_places,
            plain_pairs,
        })
    }

    /// The names of the phases, by number from 0.
    pub fn phases(&self) -> &[String]
        ensures { map string_bytes result.now ≡ self.now.names }
    {
        self.phases.as_slice()
    }

    /// The text of the phase grammar.
    pub fn grammar(&self) -> &[u8]
        ensures { result.now ≡ self.now.grammar }
    {
        self.grammar.as_slice()
    }

    /// The pairs of letters that may meet unchanged, rising.
    pub fn plain(&self) -> &[(Letter, Letter)]
        ensures { result.now ≡ self.now.plain }
    {
        self.plain.as_slice()
    }

    /// Whether the letters may meet unchanged, `x` before `y`.
    pub fn is_plain(&self, x: Letter, y: Letter) -> bool
        ensures { IsTrue result ↔ IsPlain self.now x y }
    {
        self.plain_pairs.has(x, y)
    }

    /// The rules; the first has the number 1.
    pub fn rules(&self) -> &[Rule]
        ensures value { result.now ≡ self.now.rules }
        ensures set { IsRuleSet self.now }
        ensures limits { IsRuleSetWithinLimits self.now }
    {
        self.rules.as_slice()
    }

    /// The rule with this number, counted from 1; `None` for 0, which stands for no change.
    pub fn rule(&self, number: u32) -> Option<&Rule>
        requires { number ≤ length self.now.rules }
        ensures none { IsNone result ↔ (number ≡ 0) }
        ensures some { IfSome result (λ rule. rule.now ≡ rule_of self.now number) }
        ensures short { IfSome result (λ rule. IsShortRule rule.now) }
    {
        if number == 0 {
            None
        } else {
            Some(&self.rules[number as usize - 1])
        }
    }
    /// The different leads of the inner rules, rising by `v` and then by the set of phases.
    pub fn leads(&self) -> &[Lead]
        ensures { result.now ≡ leads_of self.now.rules }
    {
        self.leads.as_slice()
    }

    /// Where the lead of the rule with this number, counted from 1, stands in `leads`, counted from 0. `None` exactly for a
    /// final rule.
    pub fn lead_of(&self, rule: u32) -> Option<u16>
        requires some { 1 ≤ rule }
        requires within { rule ≤ length self.now.rules }
        ensures { IsLeadPlace (leads_of self.now.rules) (rule_of self.now rule) result }
    {
        self.lead_places[rule as usize - 1]
    }
}

/// The different leads of the rules, rising.
pub fn leads_of_rules(alloc: Global, rules: &[Rule]) -> Result<Vec<Lead>, Memory>
    ensures ok { IfOk result (λ leads. leads.items ≡ leads_of rules.now) }
{
    let mut leads = Vec::new(alloc);
    for rule in rules {
        add_lead(alloc, &mut leads, rule)?;
    }
    Ok(leads)
}

/// The place of each rule's lead among the leads.
fn lead_places_of(alloc: Global, leads: &[Lead], rules: &[Rule]) -> Result<Vec<Option<u16>>, Memory>
    requires leads { leads.now ≡ leads_of rules.now }
    requires limit { length leads.now ≤ MOST_LEADS }
    ensures ok { IfOk result (λ places. AreLeadPlaces rules.now places.items) }
{
    let mut places = Vec::with_capacity(alloc, rules.len())?;
    for rule in rules {
        places.push(place_of_lead(leads, rule))?;
    }
    Ok(places)
}
