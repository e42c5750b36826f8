ghost use Rattle.std.specs.Prelude.{◌≡◌, ◌≤◌, ◌<◌, ℕ, length, IfOk};
ghost use Rattle.lexicon_definitions.specs.Lexicons.{IsLexicon, tree_of};
ghost use Rattle.lexicon_definitions.specs.Limits.{IsWithinLimits};
ghost use Rattle.lexicon_definitions.specs.Tries.{IsTrieOf};
ghost use Rattle.trie_text_definitions.specs.TrieForms.{phases_of};
ghost use Rattle.phase_automaton.specs.Automata.{Recognizes};
ghost use Rattle.annotated_trie.specs.AlikePhases.{IsAlike};
ghost use Rattle.annotated_trie.specs.Searched.{IsSearchedLexicon};

use super::alike_phases::alike_phases;
use super::{Annotated, annotate};
use phase_automaton::Automaton;
use phoneme::Memory;
use sandhi_rules::RuleSet;
use shared_trie::Store;
use std::alloc::Global;
use std::marker::Model;

/// A lexicon as it is searched: its rules, the automaton of its phase grammar, and the tries of its forms with the choices of
/// each node (Huet 2005). The forms themselves are not kept.
#[derive(Drop)]
pub struct Lexicon {
    rules: RuleSet,
    automaton: Automaton,
    tries: Annotated,
    alike: Vec<u32>,
}

impl Model for Lexicon {
    ghost use Rattle.std.specs.Prelude.{length};
    ghost use Rattle.trie_text_definitions.specs.TrieForms.{phases_of};
    ghost use Rattle.annotated_trie.specs.AlikePhases.{AreAlike};
    ghost use Rattle.annotated_trie.specs.Searched.{SearchedLexicon, IsSearchedLexicon};

    ghost Value = { SearchedLexicon };

    ghost view = { λ l. record { lexicon = record { rules = l.rules; phases = phases_of l.tries.trie }; machine = l.automaton; tries = l.tries } };

    ghost invariant = { λ l. IsSearchedLexicon (record { lexicon = record { rules = l.rules; phases = phases_of l.tries.trie }; machine = l.automaton; tries = l.tries }) × AreAlike l.rules (length l.rules.names) l.alike.items };
}

impl Lexicon {
    /// The lexicon of the forms that the trie tells and of these rules. The automaton is that of the rules' grammar.
    pub fn build(
        alloc: Global,
        store: Store,
        rules: RuleSet,
        automaton: Automaton,
    ) -> Result<Lexicon, Memory>
        requires trie { IsTrieOf store (phases_of store) }
        requires lexicon { IsLexicon (record { rules = rules; phases = phases_of store }) }
        requires limits { IsWithinLimits (record { rules = rules; phases = phases_of store }) }
        requires machine { Recognizes automaton (tree_of rules) }
        requires phases { automaton.phases ≡ length rules.names }
        ensures ok { IfOk result (λ searched. (searched.lexicon ≡ record { rules = rules; phases = phases_of store }) × (searched.machine ≡ automaton)) }
    {
        let tries = annotate(alloc, store, &rules)?;
        let alike = alike_phases(alloc, &rules)?;
        Ok(Lexicon {
            rules,
            automaton,
            tries,
            alike,
        })
    }

    /// The rules.
    pub fn rules(&self) -> &RuleSet
        ensures value { result.now ≡ self.now.lexicon.rules }
        ensures searched { IsSearchedLexicon self.now }
    {
        &self.rules
    }

    /// The automaton of the phase grammar.
    pub fn automaton(&self) -> &Automaton
        ensures value { result.now ≡ self.now.machine }
    {
        &self.automaton
    }

    /// The trie of the forms of all phases, with the choices of each node.
    pub fn tries(&self) -> &Annotated
        ensures value { result.now ≡ self.now.tries }
    {
        &self.tries
    }

    /// The first phase, counted from 0 as this one is, that no rule tells from it: each rule may follow forms of both, or of neither.
    /// A number past the phases of the lexicon is told as it is.
    pub fn alike_phase(&self, phase: u32) -> u32
        ensures alike { IsAlike self.now.lexicon.rules result phase }
        ensures first { phase < length self.now.lexicon.rules.names → (other : ℕ) → IsAlike self.now.lexicon.rules other phase → result ≤ other }
    {
        match self.alike.get(phase as usize) {
            Some(first) => *first,
            None => phase,
        }
    }
}
