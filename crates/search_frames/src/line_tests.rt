ghost use Rattle.std.specs.Prelude.{◌≡◌, ◌≤◌, ◌↔◌, length, take, IsTrue};
ghost use Rattle.lexicon_definitions.specs.Lexicons.{rule_of};

use phoneme::Letter;
use sandhi_rules::RuleSet;

/// The `u` of the rule with this number, empty for no change.
pub(crate) fn u_of(rules: &RuleSet, rule: u32) -> &[Letter]
    requires { rule ≤ length rules.now.rules }
    ensures { result.now ≡ (rule_of rules.now rule).u }
{
    match rules.rule(rule) {
        None => &[],
        Some(rule) => rule.u.as_slice(),
    }
}

/// Whether the word comes first among the letters. Words are short, and most differ soon, so that they are compared letter by letter.
#[inline(always)]
pub(crate) fn begins_with(letters: &[Letter], word: &[Letter]) -> bool
    ensures { IsTrue result ↔ (take (length word.now) letters.now ≡ word.now) }
{
    if letters.len() < word.len() {
        return false;
    }
    for at in 0..word.len() {
        if letters[at] != word[at] {
            return false;
        }
    }
    true
}
