ghost use Rattle.std.specs.Prelude.{◌≡◌, ◌≤◌, ℕ, List, [], ◌++◌, length, All, OnOk, IfOk};
ghost use Rattle.segmentation_definitions.specs.Derivations.{rule_after, Covers};
ghost use Rattle.joiner.specs.Joining.{HasNumber, Takes};

use super::Link;
use super::overlapping::{length_of_u, length_of_v};
use phoneme::{Letter, Memory, Word};
use sandhi_rules::RuleSet;
use std::alloc::Global;

/// The letters of the form between the `v` of the rule before and the `u` of the rule after.
fn taken_letters<'a>(rules: &RuleSet, before: u32, link: &'a Link) -> &'a [Letter]
    requires before { before ≤ length rules.now.rules }
    requires rule { HasNumber rules.now link.now }
    requires taken { (taken : List ℕ) × Takes rules.now before link.now taken }
    ensures { Takes rules.now before link.now result.now }
{
    let letters = link.form.as_slice();
    let end = letters.len() - length_of_u(rules, link.rule);
    &letters[length_of_v(rules, before)..end]
}

/// Appends the letters that the form takes after the rule before it, and then the `w` of the rule after it. Refused only for
/// want of memory.
fn push_link(rules: &RuleSet, before: u32, link: &Link, word: &mut Word) -> Result<(), Memory>
    requires before { before ≤ length rules.now.rules }
    requires rule { HasNumber rules.now link.now }
    requires taken { (taken : List ℕ) × Takes rules.now before link.now taken }
    ensures ok { OnOk result ((taken : List ℕ) × Takes rules.now before link.now taken
        × (word.new ≡ word.old ++ taken ++ (rule_after rules.now link.now).w)) }
{
    word.extend_from_slice(taken_letters(rules, before, link))?;
    if let Some(rule) = rules.rule(link.rule) {
        word.extend_from_slice(rule.w.as_slice())?;
    }
    Ok(())
}

/// The one word that the links cover, of which there is one. Refused only for want of memory.
pub(crate) fn covered_word(alloc: Global, rules: &RuleSet, links: &[Link]) -> Result<Word, Memory>
    requires rules { All (HasNumber rules.now) links.now }
    requires covered { (word : List ℕ) × Covers rules.now [] links.now word [] }
    ensures ok { IfOk result (λ word. Covers rules.now [] links.now word []) }
{
    let mut word = Word::new(alloc);
    let mut before = 0;
    for link in links {
        push_link(rules, before, link, &mut word)?;
        before = link.rule;
    }
    Ok(word)
}
