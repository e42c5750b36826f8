ghost use Rattle.std.specs.Prelude.{◌≡◌, ◌≤◌, ◌↔◌, ◌++◌, [], ◌∷◌, length, map, string_bytes, IsTrue, OnOk};
ghost use Rattle.lexicon_definitions.specs.declared.limits.TheConstants.{MOST_PHASES};
ghost use Rattle.lexicon_definitions.specs.Rules.{IsUnlimited};
ghost use Rattle.lexicon_text_definitions.specs.LexiconTexts.{text_of_lines, rule_line};
ghost use Rattle.trie_text_definitions.specs.LimitedRules.{limited_rule_line};
ghost use Rattle.trie_text_definitions.specs.TrieTexts.{rule_line_in};
ghost use Rattle.trie_text_definitions.specs.Versions.{HasRulesOf};
ghost use Rattle.lexicon_file.specs.Writing.{version_by};

use crate::writing_phases::{all_phases, push_phases, push_phases_after};
use lexicon_definitions::MOST_PHASES;
use phoneme::Memory;
use sandhi_rules::Rule;
use shared_trie::push_letters;

/// Appends `rule u|v>w`, without a line end.
fn push_triple(out: &mut Vec<u8>, rule: &Rule) -> Result<(), Memory>
    ensures ok { OnOk result (out.new.items ≡ out.old.items ++ rule_line rule.now) }
{
    out.extend_from_slice(b"rule ")?;
    push_letters(out, rule.u.as_slice())?;
    out.push(b'|')?;
    push_letters(out, rule.v.as_slice())?;
    out.push(b'>')?;
    push_letters(out, rule.w.as_slice())
}

/// Appends `rule u|v>w BEFORE AFTER`, without a line end.
fn push_limited(out: &mut Vec<u8>, names: &[String], rule: &Rule) -> Result<(), Memory>
    requires { length names.now ≤ MOST_PHASES }
    ensures ok { OnOk result (out.new.items ≡ out.old.items ++ limited_rule_line (map string_bytes names.now) rule.now) }
{
    push_triple(out, rule)?;
    out.push(b' ')?;
    push_phases(out, names, rule.before)?;
    out.push(b' ')?;
    push_phases_after(out, names, rule)
}

/// Appends the line of the rule, which tells its phases where some rule is limited.
fn push_rule(
    out: &mut Vec<u8>,
    names: &[String],
    is_limited: bool,
    rule: &Rule,
) -> Result<(), Memory>
    requires { length names.now ≤ MOST_PHASES }
    ensures ok { OnOk result (out.new.items ≡ out.old.items ++ (rule_line_in (version_by is_limited) (map string_bytes names.now) rule.now ++ 10 ∷ [])) }
{
    if is_limited {
        push_limited(out, names, rule)?;
        out.push(b'\n')?;
        return Ok(());
    }
    push_triple(out, rule)?;
    out.push(b'\n')?;
    Ok(())
}

/// Appends the line of each rule, which tells its phases where some rule is limited.
pub(crate) fn push_rules(
    out: &mut Vec<u8>,
    names: &[String],
    is_limited: bool,
    rules: &[Rule],
) -> Result<(), Memory>
    requires { length names.now ≤ MOST_PHASES }
    ensures ok { OnOk result (out.new.items ≡ out.old.items ++ text_of_lines (map (rule_line_in (version_by is_limited) (map string_bytes names.now)) rules.now)) }
{
    for rule in rules {
        push_rule(out, names, is_limited, rule)?;
    }
    Ok(())
}

/// Whether the rule is unlimited over so many phases.
fn is_unlimited(rule: &Rule, count: usize) -> bool
    requires { count ≤ MOST_PHASES }
    ensures { IsTrue result ↔ IsUnlimited count rule.now }
{
    rule.before == all_phases(count) && (rule.v.is_empty() || rule.after == all_phases(count))
}

/// Whether some rule is limited over so many phases.
pub(crate) fn has_limited(rules: &[Rule], count: usize) -> bool
    requires { count ≤ MOST_PHASES }
    ensures { HasRulesOf (version_by result) count rules.now }
{
    for rule in rules {
        if !is_unlimited(rule, count) {
            return true;
        }
    }
    false
}
