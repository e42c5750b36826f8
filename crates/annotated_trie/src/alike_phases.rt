ghost use Rattle.std.specs.Prelude.{ℕ, ◌≤◌, ◌↔◌, length, IfOk, IsTrue};
ghost use Rattle.annotated_trie.specs.AlikePhases.{AreAlike, IsAlike};

use phoneme::Memory;
use sandhi_rules::RuleSet;
use std::alloc::Global;

/// Whether no rule tells these phases apart: each may follow forms of both, or of neither.
fn are_alike(rules: &RuleSet, one: u32, other: u32) -> bool
    ensures { IsTrue result ↔ IsAlike rules.now one other }
{
    for rule in rules.rules() {
        if rule.may_follow(one) != rule.may_follow(other) {
            return false;
        }
    }
    true
}

/// The first phase, counted from 0, that no rule tells from this one.
fn first_alike(rules: &RuleSet, phase: u32) -> u32
    ensures alike { IsAlike rules.now result phase }
    ensures first { (other : ℕ) → IsAlike rules.now other phase → result ≤ other }
{
    for earlier in 0..phase {
        if are_alike(rules, earlier, phase) {
            return earlier;
        }
    }
    phase
}

/// For each phase the first one that no rule tells from it.
pub(crate) fn alike_phases(alloc: Global, rules: &RuleSet) -> Result<Vec<u32>, Memory>
    ensures { IfOk result (λ firsts. AreAlike rules.now (length rules.now.names) firsts.items) }
{
    // The proof knows the limits of a rule set only of one whose rules are read.
    let _rules = rules.rules();
    let mut firsts = Vec::new(alloc);
    for phase in 0..rules.phases().len() as u32 {
        firsts.push(first_alike(rules, phase))?;
    }
    Ok(firsts)
}
