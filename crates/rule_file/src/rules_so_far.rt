ghost use Rattle.std.specs.Prelude.{◌≡◌, ◌++◌, ◌∷◌, [], not, true, false, Ok, Err, IfOk, IfErr, OnOk};
ghost use Rattle.std.specs.List.{list_any};
ghost use Rattle.std.specs.List.Sorted.{IsStrictlySortedBy};
ghost use Rattle.indexmap.specs.IndexSet.{insert_key};
ghost use Rattle.lexicon_definitions.specs.Rules.{is_twin};
ghost use Rattle.lexicon_definitions.specs.Leads.{compare_leads, with_lead};
ghost use Rattle.sandhi_rules.specs.Triples.{triple_of};
ghost use Rattle.sandhi_rules.specs.contracts.triple.TriplePartialEq.TheImpl.{eq-value as triple_eq};
ghost use Rattle.rule_file_definitions.specs.EntryWhys.{Twice as TwiceWhy};
ghost use Rattle.rule_file_definitions.specs.RuleEntries.{pass_limits as pass_limits_of, add_rules as add_rules_of};
ghost use Rattle.rule_file.specs.Faults.{IfWhy};
ghost use Rattle.rule_file.specs.Triples.{IsKept};

use crate::RuleWhy;
use crate::entry_error::EntryError;
use indexmap::IndexSet;
use lexicon_definitions::{MOST_LEADS, MOST_RULES};
use phoneme::Memory;
use sandhi_rules::{Lead, Rule, Triple, add_lead};
use std::alloc::Global;

/// The rules that were read, in their order, their triples, and their leads, rising.
#[derive(Drop)]
pub(crate) struct RulesSoFar {
    rules: Vec<Rule>,
    triples: IndexSet<Triple>,
    leads: Vec<Lead>,
}

/// Puts the rule's triple among the triples, and answers whether it was not there.
fn add_triple(alloc: Global, triples: &mut IndexSet<Triple>, rule: &Rule) -> Result<bool, Memory>
    ensures keys { OnOk result (triples.new.keys ≡ insert_key triple_eq.it triples.old.keys (triple_of rule.now)) }
    ensures added { IfOk result (λ is_new. is_new ≡ not (list_any (triple_eq.it (triple_of rule.now)) triples.old.keys)) }
{
    let triple = Triple::of(alloc, rule)?;
    Ok(triples.insert(triple)?)
}

/// Appends the rule, and puts its lead among the leads.
fn push_rule(
    alloc: Global,
    rules: &mut Vec<Rule>,
    leads: &mut Vec<Lead>,
    rule: Rule,
) -> Result<(), Memory>
    requires { IsStrictlySortedBy compare_leads leads.old.items }
    ensures rules { OnOk result (rules.new.items ≡ rules.old.items ++ rule ∷ []) }
    ensures leads { OnOk result (leads.new.items ≡ with_lead leads.old.items rule.v rule.after) }
{
    add_lead(alloc, leads, &rule)?;
    rules.push(rule)?;
    Ok(())
}

impl RulesSoFar {
    pub(crate) fn new(alloc: Global) -> RulesSoFar
        ensures rules { result.rules.items ≡ [] }
        ensures kept { IsKept result }
    {
        RulesSoFar {
            rules: Vec::new(alloc),
            triples: IndexSet::new(alloc),
            leads: Vec::new(alloc),
        }
    }

    /// The rules, in their order.
    pub(crate) fn into_rules(self) -> Vec<Rule>
        ensures { result ≡ self.rules }
    {
        self.rules
    }

    /// Adds the rule. `Twice` where one of the same triple is there. After a refusal the rules are of no more use.
    fn add_rule(&mut self, alloc: Global, rule: Rule) -> Result<(), EntryError>
        requires { IsKept self.old }
        ensures kept { OnOk result (IsKept self.new) }
        ensures is_new { OnOk result (list_any (is_twin rule) self.old.rules.items ≡ false) }
        ensures rules { OnOk result (self.new.rules.items ≡ self.old.rules.items ++ rule ∷ []) }
        ensures twice { IfErr result (λ error. IfWhy error (λ why. (why ≡ TwiceWhy) × (list_any (is_twin rule) self.old.rules.items ≡ true))) }
    {
        if !add_triple(alloc, &mut self.triples, &rule)? {
            return Err(RuleWhy::Twice.into());
        }
        push_rule(alloc, &mut self.rules, &mut self.leads, rule)?;
        Ok(())
    }

    /// Whether there are too many rules or too many different leads.
    fn pass_limits(&self) -> bool
        requires { IsKept self.now }
        ensures { result ≡ pass_limits_of self.now.rules.items }
    {
        self.rules.len() > MOST_RULES || self.leads.len() > MOST_LEADS
    }

    /// Adds the rules of one entry. After a refusal the rules are of no more use.
    pub(crate) fn add_rules(&mut self, alloc: Global, more: Vec<Rule>) -> Result<(), EntryError>
        requires { IsKept self.old }
        ensures kept { OnOk result (IsKept self.new) }
        ensures ok { OnOk result (add_rules_of self.old.rules.items more.items ≡ Ok self.new.rules.items) }
        ensures why { IfErr result (λ error. IfWhy error (λ why. add_rules_of self.old.rules.items more.items ≡ Err why)) }
    {
        for rule in more {
            self.add_rule(alloc, rule)?;
        }
        if self.pass_limits() {
            return Err(RuleWhy::Limit.into());
        }
        Ok(())
    }
}
