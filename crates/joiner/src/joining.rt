ghost use Rattle.std.specs.Prelude.{◌≡◌, ◌↔◌, All, IsTrue, IfOk};
ghost use Rattle.lexicon_definitions.specs.Lexicons.{IsPhaseWord};
ghost use Rattle.segmentation_definitions.specs.Derivations.{AreForms, phases_of};
ghost use Rattle.phase_automaton.specs.Automata.{state_after, is_accepting};
ghost use Rattle.annotated_trie.specs.Searched.{IsSearchedLexicon};
ghost use Rattle.chain_definitions.specs.Chains.{IsChain};
ghost use Rattle.chain_definitions.specs.JoinedChains.{MakesAnswer, IsJoinedTo};
ghost use Rattle.joiner.specs.Joining.{joined_of, HasNumberedPhase};

use super::overlapping::first_overlap;
use super::writing::covered_word;
use super::{Joined, Link};
use annotated_trie::Lexicon;
use phase_automaton::Automaton;
use phoneme::{Memory, Word};
use std::alloc::Global;
use text_definitions::MOST_LINE_LETTERS;

/// Whether the phases of the links lead to where the automaton accepts.
fn accepts_links(automaton: &Automaton, links: &[Link]) -> bool
    requires { All (HasNumberedPhase automaton.now.phases) links.now }
    ensures { result ≡ is_accepting automaton.now (state_after automaton.now (phases_of links.now)) }
{
    let mut state = automaton.start();
    for link in links {
        state = automaton.step(state, link.phase);
    }
    automaton.accepts(state)
}

/// Whether the phases of the links are a word of the grammar.
fn is_phase_word(lexicon: &Lexicon, links: &[Link]) -> bool
    requires searched { IsSearchedLexicon lexicon.now }
    requires forms { AreForms lexicon.now.lexicon links.now }
    ensures { IsTrue result ↔ IsPhaseWord lexicon.now.lexicon.rules (phases_of links.now) }
{
    accepts_links(lexicon.automaton(), links)
}

/// Whether the word is no longer than a line may be, and the phases of the links are a word of the grammar.
fn makes_answer(lexicon: &Lexicon, links: &[Link], word: &Word) -> bool
    requires searched { IsSearchedLexicon lexicon.now }
    requires forms { AreForms lexicon.now.lexicon links.now }
    ensures { IsTrue result ↔ MakesAnswer lexicon.now.lexicon links.now word.now }
{
    word.len() <= MOST_LINE_LETTERS && is_phase_word(lexicon, links)
}

/// What the chain is joined to (after Huet 2005; answers are own): its first overlap, or else the one word that it derives. There is
/// no limit on the links; the word is no longer than their forms and the `w` of their rules together, which is at most
/// `MOST_FORM_LETTERS` and `MOST_RULE_LETTERS` letters a link. Refused only for want of memory.
pub fn join_chain(alloc: Global, lexicon: &Lexicon, links: &[Link]) -> Result<Joined, Memory>
    requires chain { IsChain lexicon.now.lexicon links.now }
    ensures ok { IfOk result (λ joined. IsJoinedTo lexicon.now.lexicon links.now (joined_of joined)) }
{
    let rules = lexicon.rules();
    if let Some(overlap) = first_overlap(alloc, rules, links)? {
        return Ok(Joined::Overlap(overlap));
    }
    let word = covered_word(alloc, rules, links)?;
    let answer = makes_answer(lexicon, links, &word);
    Ok(Joined::Text { word, answer })
}
