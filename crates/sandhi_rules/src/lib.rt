//! The rules of external sandhi (Huet 2005): a rule, and the set of the rules of a lexicon with the names of its phases,
//! its grammar text and its plain pairs.
//!
//! Proved: a `RuleSet` holds what it was given (`RuleSet::new`, `phases`, `grammar`, `plain`, `rules`, `rule`), always within
//! the limits and with different rules, which is the type's invariant; `is_plain` is membership in the plain pairs;
//! `leads` are the different pairs of `v` and `after` of the inner rules, rising, and `lead_of` is a rule's place there;
//! `Rule::is_strict`, `is_inner`, `is_final`, `may_follow` and `may_precede` are their definitions, as is
//! `Lead::may_precede`, and `print_rule` is the rule's notation. For those who read rules: `Rule::unlimited` and `Triple::of` are
//! theirs, `leads_of_rules` gives the leads of rules (`ok`), and `add_lead` puts a rule's lead in its place among them (`ok`);
//! `is_phase_name` is the test of a name, and `phase_named` gives the phase that has it (`named`).
#![tactic(auto)]

mod lead;
mod names;
mod plain_pairs;
mod printing;
mod rule;
mod rule_set;
mod sharing;
mod triple;

pub use lead::{Lead, add_lead};
pub use names::{is_phase_name, is_small_letter, phase_named};
pub use printing::print_rule;
pub use rule::Rule;
pub use rule_set::{RuleSet, leads_of_rules};
pub use sharing::rule_sets_are_shared;
pub use triple::Triple;
