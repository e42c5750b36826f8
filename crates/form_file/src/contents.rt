use phase_automaton::Automaton;
use sandhi_rules::RuleSet;
use shared_trie::Store;

/// What a lexicon file holds: the rule set, the automaton of its grammar, and the trie of its forms.
#[derive(Drop)]
pub struct Contents {
    pub rules: RuleSet,
    pub automaton: Automaton,
    pub store: Store,
}
