ghost use Rattle.std.specs.Prelude.{◌≡◌, ◌<◌, ◌||◌, ◌++◌, ◌∷◌, if◌then◌else◌, false, not, nat_le, nat_lt, List, [], length, vec_len, vec_capacity, IsOk, IfOk, IfErr, OnOk};
ghost use Rattle.lexicon_definitions.specs.Rules.{Rule as RuleValue};
ghost use Rattle.lexicon_text_definitions.specs.FileContents.{with_v, different_v};
ghost use Rattle.lexicon_definitions.specs.Leads.{leads_of};
ghost use Rattle.form_file.specs.Added.{AreKept, has_twin, AreReady, IsAdded, is_over, IsOver, IsAddedWithin};
ghost use Rattle.indexmap.specs.IndexSet.{spare};

use crate::FileWhy;
use crate::take_error::TakeError;
use indexmap::IndexSet;
use lexicon_definitions::{MOST_LEADS, MOST_RULES};
use phoneme::{Memory, Word};
use sandhi_rules::{Lead, Rule, Triple, add_lead as put_lead, leads_of_rules};
use std::alloc::Global;
use std::marker::Model;

/// The rules that were read, in their order, their triples, and their different `v` that are not empty; and their leads, rising, as
/// long as each rule is told with its sets of phases.
#[derive(Drop)]
pub(crate) struct RulesSoFar {
    rules: Vec<Rule>,
    triples: IndexSet<Triple>,
    leads: IndexSet<Word>,
    limited_leads: Option<Vec<Lead>>,
}

impl Model for RulesSoFar {
    ghost use Rattle.std.specs.Prelude.{◌≡◌, List, IfSome};
    ghost use Rattle.lexicon_definitions.specs.Rules.{Rule as RuleValue};
    ghost use Rattle.lexicon_definitions.specs.Leads.{leads_of};
    ghost use Rattle.form_file.specs.Added.{AreKept};

    ghost Value = { List RuleValue };

    ghost view = { λ r. r.rules.items };

    ghost invariant = { λ r. AreKept r.rules.items r.triples.keys r.leads.keys × IfSome r.limited_leads (λ leads. leads.items ≡ leads_of r.rules.items) };
}

/// Puts a rule's `v` among the leads, unless it is empty or already there. Wants no memory where there is room for one more.
fn add_lead(leads: &mut IndexSet<Word>, v: Word) -> Result<(), Memory>
    ensures ok { OnOk result (leads.new.keys ≡ with_v leads.old.keys v) }
    ensures room { 0 < spare leads.old → IsOk result }
{
    if !v.is_empty() {
        leads.insert(v)?;
    }
    Ok(())
}

/// Puts the rule's triple among the triples and its `v` among the leads, unless one of the same triple is there, and answers whether
/// none was. Where memory is wanting both stay as they were.
fn add_keys(
    triples: &mut IndexSet<Triple>,
    leads: &mut IndexSet<Word>,
    rule: &Rule,
) -> Result<bool, Memory>
    ensures ok { IfOk result (λ is_new. (rules : List RuleValue) → AreKept rules triples.old.keys leads.old.keys
        → (has_twin rules rule.now ≡ not is_new) × AreKept (if is_new then rules ++ rule.now ∷ [] else rules) triples.new.keys leads.new.keys) }
    ensures err { IfErr result (λ error. (triples.new.keys ≡ triples.old.keys) × (leads.new.keys ≡ leads.old.keys)) }
{
    let alloc = *triples.allocator();
    // Room for the lead is taken first, so that it is put in wherever its triple was.
    leads.reserve(1)?;
    let lead = rule.v.copy(alloc)?;
    let triple = Triple::of(alloc, rule)?;
    if !triples.insert(triple)? {
        return Ok(false);
    }
    add_lead(leads, lead)?;
    Ok(true)
}

/// Makes room for the rule, and puts in its keys. `Twice` where one of the same triple is there.
fn make_ready(
    rules: &mut Vec<Rule>,
    triples: &mut IndexSet<Triple>,
    leads: &mut IndexSet<Word>,
    rule: &Rule,
) -> Result<(), TakeError>
    ensures same { rules.new.items ≡ rules.old.items }
    ensures room { OnOk result (vec_len rules.new < vec_capacity rules.new) }
    ensures keys { AreKept rules.old.items triples.old.keys leads.old.keys → AreReady rules.old.items rule.now result triples.new.keys leads.new.keys }
{
    // Room for the rule is taken first, so that it is put in wherever its triple was.
    rules.reserve(1)?;
    if !add_keys(triples, leads, rule)? {
        return Err(FileWhy::Twice.into());
    }
    Ok(())
}

impl RulesSoFar {
    pub(crate) fn new(alloc: Global) -> RulesSoFar
        ensures { result ≡ [] }
    {
        RulesSoFar {
            rules: Vec::new(alloc),
            triples: IndexSet::new(alloc),
            leads: IndexSet::new(alloc),
            limited_leads: Some(Vec::new(alloc)),
        }
    }

    /// The rules, in their order.
    pub(crate) fn into_rules(self) -> Vec<Rule>
        ensures { result.items ≡ self }
    {
        let RulesSoFar {
            rules,
            triples: _,
            leads: _,
            limited_leads: _,
        } = self;
        rules
    }

    /// The rules, in their order.
    pub(crate) fn as_slice(&self) -> &[Rule]
        ensures { result.now ≡ self.now }
    {
        self.rules.as_slice()
    }

    /// How many different `v` that are not empty the rules have together with this `v`.
    fn leads_with(&self, v: &Word) -> usize
        ensures { result ≡ length (with_v (different_v self.now) v.now) }
    {
        if v.is_empty() || self.leads.contains(v) {
            self.leads.len()
        } else {
            self.leads.len() + 1
        }
    }

    /// Whether with a rule that has this `v` there are too many rules or leads.
    pub(crate) fn is_full(&self, v: &Word) -> bool
        ensures { result ≡ (nat_le MOST_RULES (length self.now) || nat_lt MOST_LEADS (length (with_v (different_v self.now) v.now))) }
    {
        self.rules.len() >= MOST_RULES || self.leads_with(v) > MOST_LEADS
    }

    /// Appends the rule. `Twice` where one of the same triple is there. A refusal leaves the rules as they were.
    pub(crate) fn add(&mut self, rule: Rule) -> Result<(), TakeError>
        requires { length self.old < MOST_RULES }
        ensures { IsAdded self.old rule result self.new }
    {
        self.limited_leads = None;
        make_ready(&mut self.rules, &mut self.triples, &mut self.leads, &rule)?;
        self.rules.push(rule)?;
        Ok(())
    }

    /// The leads of the rules, rising, which are no longer kept then.
    fn take_leads(&mut self) -> Result<Vec<Lead>, Memory>
        ensures ok { IfOk result (λ leads. leads.items ≡ leads_of self.old) }
        ensures same { self.new ≡ self.old }
    {
        let alloc = *self.rules.allocator();
        match self.limited_leads.take() {
            Some(leads) => Ok(leads),
            None => leads_of_rules(alloc, self.rules.as_slice()),
        }
    }

    /// The leads of the rules with this one, rising. `Limit` where there are too many rules or leads with it.
    fn leads_within(&mut self, rule: &Rule) -> Result<Vec<Lead>, TakeError>
        ensures same { self.new ≡ self.old }
        ensures ok { IfOk result (λ leads. leads.items ≡ leads_of (self.old ++ rule.now ∷ [])) }
        ensures few { OnOk result (length self.old < MOST_RULES) }
        ensures within { OnOk result (is_over self.old rule.now ≡ false) }
        ensures over { IfErr result (λ error. IsOver self.old rule.now error) }
    {
        let alloc = *self.rules.allocator();
        let mut leads = self.take_leads()?;
        put_lead(alloc, &mut leads, rule)?;
        if self.rules.len() >= MOST_RULES || leads.len() > MOST_LEADS {
            return Err(FileWhy::Limit.into());
        }
        Ok(leads)
    }

    /// Appends the rule, which is told with its sets of phases. `Limit` where there are too many rules or leads with it, and `Twice`
    /// where one of the same triple is there.
    pub(crate) fn add_limited(&mut self, rule: Rule) -> Result<(), TakeError>
        ensures { IsAddedWithin self.old rule result self.new }
    {
        let leads = self.leads_within(&rule)?;
        self.add(rule)?;
        self.limited_leads = Some(leads);
        Ok(())
    }
}
