ghost use Rattle.std.specs.Prelude.{◌≡◌, ◌≤◌, ◌<◌, ◌+◌, ◌^◌, length, map, AllPairs, IfOk};
ghost use Rattle.lexicon_definitions.specs.Lexicons.{RuleSet as RuleSetValue};
ghost use Rattle.lexicon_definitions.specs.Rules.{IsSameTriple};
ghost use Rattle.sandhi_rules.specs.Triples.{triple_of};
ghost use Rattle.chain_definitions.specs.ChainReadings.{rule_with_words, step_named, steps_named};
ghost use Rattle.joiner.specs.Faults.{IsNamedAs, AreNamedAs};
ghost use Rattle.joiner.specs.Triples.{change_of};

use crate::forms::has_form;
use crate::written_step::{WrittenForm, WrittenStep};
use crate::{ChainError, ChainFault, ChainWhy, Link};
use annotated_trie::Lexicon;
use indexmap::IndexSet;
use lexicon_definitions::MOST_RULES;
use phoneme::Memory;
use sandhi_rules::{Rule, Triple, phase_named};
use std::alloc::Global;

/// The triples of the rules, in their order, so that a rule is found by its words at once, however long the chain is.
fn triples_of(alloc: Global, rules: &[Rule]) -> Result<IndexSet<Triple>, Memory>
    requires { AllPairs (λ left right. IsSameTriple left right → ⊥) rules.now }
    ensures ok { IfOk result (λ triples. triples.keys ≡ map triple_of rules.now) }
{
    let mut triples = IndexSet::new(alloc);
    for rule in rules {
        let triple = Triple::of(alloc, rule)?;
        triples.insert(triple)?;
    }
    Ok(triples)
}

/// The number of the rule with these words, counted from 1; 0 for no change.
fn rule_number(triples: &IndexSet<Triple>, change: &Option<Triple>) -> Option<u32>
    requires { length triples.now.keys ≤ MOST_RULES }
    ensures { (rules : RuleSetValue) → triples.now.keys ≡ map triple_of rules.rules → result ≡ rule_with_words rules (change_of change.now) }
{
    match change {
        None => Some(0),
        Some(triple) => match triples.get_index_of(triple) {
            None => None,
            Some(place) => Some(place as u32 + 1),
        },
    }
}

/// The link that a written step names, or the first reason why it names none: its phase, its form, its rule.
fn name_step(
    lexicon: &Lexicon,
    triples: &IndexSet<Triple>,
    written: WrittenStep,
) -> Result<Link, ChainWhy>
    requires { triples.now.keys ≡ map triple_of lexicon.now.lexicon.rules.rules }
    ensures { IsNamedAs result (step_named lexicon.now.lexicon written) }
{
    let rules = lexicon.rules();
    let WrittenStep { form, change } = written;
    let WrittenForm { letters, name } = form;
    let Some(phase) = phase_named(rules.phases(), name.as_slice()) else {
        return Err(ChainWhy::Phase);
    };
    let phase = phase as u32;
    if !has_form(lexicon, phase, &letters) {
        return Err(ChainWhy::Form);
    }
    match rule_number(triples, &change) {
        None => Err(ChainWhy::Rule),
        Some(rule) => Ok(Link {
            phase,
            form: letters,
            rule,
        }),
    }
}

/// The links that written steps name, or the fault of the first that names none.
pub(crate) fn name_steps(
    alloc: Global,
    lexicon: &Lexicon,
    steps: Vec<WrittenStep>,
) -> Result<Vec<Link>, ChainError>
    requires { length steps.items < 2 ^ 31 }
    ensures { AreNamedAs result (steps_named lexicon.now.lexicon 1 steps.items) }
{
    let triples = triples_of(alloc, lexicon.rules().rules())?;
    let mut links = Vec::with_capacity(alloc, steps.len())?;
    let mut number = 1;
    for step in steps {
        match name_step(lexicon, &triples, step) {
            Ok(link) => links.push(link)?,
            Err(why) => return Err(ChainError::Fault(ChainFault { step: number, why })),
        }
        number += 1;
    }
    Ok(links)
}
