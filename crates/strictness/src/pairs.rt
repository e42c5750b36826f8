ghost use Rattle.std.specs.Prelude.{◌≡◌, OnOk};
ghost use Rattle.std.specs.Ordering.{nat_cmp};
ghost use Rattle.list_laws.specs.Firsts.{AreAll};
ghost use Rattle.strictness.specs.Matches.{BeginsForm, EndsForm, IsInForm, AreLettersOf};
ghost use Rattle.strictness.specs.Appending.{AppendsFirst};

use super::Overlap;
use super::found::Found;
use super::letters::LettersOfRules;
use super::matching::{are_longer, longest_u, reaches_over, rules_that_begin, rules_that_end};
use lexicon_definitions::MOST_RULE_LETTERS;
use phoneme::{Memory, Word};
use sandhi_rules::RuleSet;
use std::alloc::Global;

/// Appends the first overlaps in the form with this rule before it, by rising rule after it.
fn add_of_rule(
    rules: &RuleSet,
    phase: u32,
    form: &Word,
    before: u32,
    afters: &[u32],
    found: &mut Found,
) -> Result<(), Memory>
    requires before { BeginsForm rules.now phase form.now before }
    requires afters { AreAll nat_cmp (EndsForm rules.now phase form.now) afters.now }
    ensures ok { OnOk result (AppendsFirst (λ overlap. IsInForm rules.now phase form.now overlap × (overlap.before ≡ before)) found.old found.new) }
{
    if found.is_full() {
        return Ok(());
    }
    for after in afters {
        if are_longer(rules, before, *after, form) {
            let overlap = Overlap {
                phase,
                form: form.copy(found.alloc)?,
                before,
                after: *after,
            };
            found.take(overlap)?;
        }
    }
    Ok(())
}

/// Appends the first overlaps in the form, by rising rule before it, then by rising rule after it. The two rules have
/// `MOST_RULE_LETTERS` letters each at most, so a form of twice as many letters has no overlap.
pub(crate) fn add_of_form(
    alloc: Global,
    rules: &RuleSet,
    letters: &LettersOfRules,
    phase: u32,
    form: &Word,
    found: &mut Found,
) -> Result<(), Memory>
    requires letters { AreLettersOf rules.now letters.now }
    ensures ok { OnOk result (AppendsFirst (IsInForm rules.now phase form.now) found.old found.new) }
{
    if found.is_full() {
        return Ok(());
    }
    if form.len() >= 2 * MOST_RULE_LETTERS {
        return Ok(());
    }
    let befores = rules_that_begin(alloc, rules, letters, phase, form)?;
    if befores.is_empty() {
        return Ok(());
    }
    let afters = rules_that_end(alloc, rules, letters, phase, form)?;
    let longest = longest_u(rules, &afters);
    for before in &befores {
        if reaches_over(rules, *before, longest, form) {
            add_of_rule(rules, phase, form, *before, &afters, found)?;
        }
    }
    Ok(())
}
