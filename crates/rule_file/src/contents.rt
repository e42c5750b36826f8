use phase_automaton::Automaton;
use sandhi_rules::RuleSet;

/// What a rule file holds: the rule set, and the automaton of its grammar.
#[derive(Drop)]
pub struct RuleFile {
    pub rules: RuleSet,
    pub automaton: Automaton,
}
