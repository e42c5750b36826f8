ghost use Rattle.std.specs.Prelude.{◌≡◌, ◌++◌, [], ◌∷◌, map, string_bytes, OnOk};
ghost use Rattle.lexicon_definitions.specs.Lexicons.{RuleSet as RuleSetValue};
ghost use Rattle.lexicon_text_definitions.specs.LexiconTexts.{text_of_lines, phase_line, grammar_line, plain_line};
ghost use Rattle.lexicon_file.specs.Writing.{front_lines};

use phoneme::{Letter, Memory};
use sandhi_rules::RuleSet;
use shared_trie::push_letters;

/// Appends the line `phase NAME`.
fn push_name(out: &mut Vec<u8>, name: &str) -> Result<(), Memory>
    ensures ok { OnOk result (out.new.items ≡ out.old.items ++ (phase_line name.now ++ 10 ∷ [])) }
{
    out.extend_from_slice(b"phase ")?;
    out.extend_from_slice(name.as_bytes())?;
    out.push(b'\n')?;
    Ok(())
}

/// Appends the line of each phase's name.
fn push_names(out: &mut Vec<u8>, names: &[String]) -> Result<(), Memory>
    ensures ok { OnOk result
        (out.new.items ≡ out.old.items ++ text_of_lines (map phase_line (map string_bytes names.now))) }
{
    for name in names {
        push_name(out, name.as_str())?;
    }
    Ok(())
}

/// Appends the line `grammar TEXT`.
fn push_grammar(out: &mut Vec<u8>, grammar: &[u8]) -> Result<(), Memory>
    ensures ok { OnOk result (out.new.items ≡ out.old.items ++ (grammar_line grammar.now ++ 10 ∷ [])) }
{
    out.extend_from_slice(b"grammar ")?;
    out.extend_from_slice(grammar)?;
    out.push(b'\n')?;
    Ok(())
}

/// Appends the line `plain X Y`.
fn push_pair(out: &mut Vec<u8>, pair: (Letter, Letter)) -> Result<(), Memory>
    ensures ok { OnOk result (out.new.items ≡ out.old.items ++ (plain_line pair ++ 10 ∷ [])) }
{
    out.extend_from_slice(b"plain ")?;
    push_letters(out, &[pair.0])?;
    out.push(b' ')?;
    push_letters(out, &[pair.1])?;
    out.push(b'\n')?;
    Ok(())
}

/// Appends the line of each plain pair.
fn push_pairs(out: &mut Vec<u8>, pairs: &[(Letter, Letter)]) -> Result<(), Memory>
    ensures ok { OnOk result (out.new.items ≡ out.old.items ++ text_of_lines (map plain_line pairs.now)) }
{
    for pair in pairs {
        push_pair(out, *pair)?;
    }
    Ok(())
}

/// Appends the lines of the phases, of the grammar and of the plain pairs, which all versions have in the same form.
pub(crate) fn push_front(out: &mut Vec<u8>, rules: &RuleSet) -> Result<(), Memory>
    ensures ok { OnOk result (out.new.items ≡ out.old.items ++ text_of_lines (front_lines rules.now)) }
{
    push_names(out, rules.phases())?;
    push_grammar(out, rules.grammar())?;
    push_pairs(out, rules.plain())
}
