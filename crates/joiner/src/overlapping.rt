ghost use Rattle.std.specs.Prelude.{◌≡◌, ◌≤◌, ◌↔◌, length, All, IsTrue, IfOk};
ghost use Rattle.lexicon_definitions.specs.Lexicons.{rule_of};
ghost use Rattle.strictness.specs.Matches.{AreLonger};
ghost use Rattle.joiner.specs.Joining.{HasNumber, IsFirstFound};

use super::Link;
use lexicon_definitions::MOST_RULE_LETTERS;
use phoneme::Memory;
use sandhi_rules::RuleSet;
use std::alloc::Global;
use strictness::Overlap;

/// The number of letters of the rule's `v`; none where there is no change.
pub(crate) fn length_of_v(rules: &RuleSet, number: u32) -> usize
    requires { number ≤ length rules.now.rules }
    ensures value { result ≡ length (rule_of rules.now number).v }
    ensures short { result ≤ MOST_RULE_LETTERS }
{
    match rules.rule(number) {
        None => 0,
        Some(rule) => rule.v.len(),
    }
}

/// The number of letters of the rule's `u`; none where there is no change.
pub(crate) fn length_of_u(rules: &RuleSet, number: u32) -> usize
    requires { number ≤ length rules.now.rules }
    ensures value { result ≡ length (rule_of rules.now number).u }
    ensures short { result ≤ MOST_RULE_LETTERS }
{
    match rules.rule(number) {
        None => 0,
        Some(rule) => rule.u.len(),
    }
}

/// Whether the `v` of the rule before and the `u` of the rule after have more letters together than the form. In a chain the
/// one begins the form and the other ends it, so they overlap exactly then.
fn overlap_in(rules: &RuleSet, before: u32, link: &Link) -> bool
    requires before { before ≤ length rules.now.rules }
    requires rule { HasNumber rules.now link.now }
    ensures { IsTrue result ↔ AreLonger rules.now before link.now.rule link.now.form }
{
    link.form.len() < length_of_v(rules, before) + length_of_u(rules, link.rule)
}

/// The first of the links in whose form the rules at its two sides overlap, where there is one.
pub(crate) fn first_overlap(
    alloc: Global,
    rules: &RuleSet,
    links: &[Link],
) -> Result<Option<Overlap>, Memory>
    requires { All (HasNumber rules.now) links.now }
    ensures ok { IfOk result (IsFirstFound rules.now 0 links.now) }
{
    let mut before = 0;
    for link in links {
        if overlap_in(rules, before, link) {
            return Ok(Some(Overlap {
                phase: link.phase,
                form: link.form.copy(alloc)?,
                before,
                after: link.rule,
            }));
        }
        before = link.rule;
    }
    Ok(None)
}
