ghost use Rattle.std.specs.Prelude.{◌≡◌, ◌≤◌, ◌<◌, ◌++◌, [], ◌∷◌, true, false, length, map, string_bytes, OnOk};
ghost use Rattle.lexicon_definitions.specs.declared.limits.TheConstants.{MOST_PHASES};
ghost use Rattle.lexicon_definitions.specs.Rules.{all_phases as all_phases_of};
ghost use Rattle.std.specs.List.{join_with_byte};
ghost use Rattle.trie_text_definitions.specs.LimitedRules.{has_phase as has_phase_of, names_from, phases_text, phases_after_text};

use lexicon_definitions::MOST_PHASES;
use phoneme::Memory;
use sandhi_rules::Rule;

/// The set of the first count phases.
pub(crate) fn all_phases(count: usize) -> u16
    requires { count ≤ MOST_PHASES }
    ensures { result ≡ all_phases_of count }
{
    ((1u32 << count) - 1) as u16
}

/// Whether the phase is in the set.
fn has_phase(phases: u16, phase: usize) -> bool
    requires { phase < MOST_PHASES }
    ensures { result ≡ has_phase_of phases phase }
{
    phases & (1 << phase) != 0
}

/// Appends the name, after a comma if another name came before it.
fn push_name_after(out: &mut Vec<u8>, is_first: bool, name: &str) -> Result<(), Memory>
    ensures first { is_first ≡ true → OnOk result (out.new.items ≡ out.old.items ++ name.now) }
    ensures later { is_first ≡ false → OnOk result (out.new.items ≡ (out.old.items ++ 44 ∷ []) ++ name.now) }
{
    if !is_first {
        out.push(b',')?;
        out.extend_from_slice(name.as_bytes())?;
        return Ok(());
    }
    out.extend_from_slice(name.as_bytes())?;
    Ok(())
}

/// Appends the names of the phases in the set, with commas between.
fn push_some(out: &mut Vec<u8>, names: &[String], phases: u16) -> Result<(), Memory>
    requires { length names.now ≤ MOST_PHASES }
    ensures ok { OnOk result (out.new.items ≡ out.old.items ++ join_with_byte 44 (names_from phases 0 (map string_bytes names.now))) }
{
    let mut is_first = true;
    for (phase, name) in names.iter().enumerate() {
        if !has_phase(phases, phase) {
            continue;
        }
        push_name_after(out, is_first, name.as_str())?;
        is_first = false;
    }
    Ok(())
}

/// Appends `*` for all phases, and else the names of those in the set.
pub(crate) fn push_phases(out: &mut Vec<u8>, names: &[String], phases: u16) -> Result<(), Memory>
    requires { length names.now ≤ MOST_PHASES }
    ensures ok { OnOk result (out.new.items ≡ out.old.items ++ phases_text (map string_bytes names.now) phases) }
{
    if phases == all_phases(names.len()) {
        out.push(b'*')?;
        return Ok(());
    }
    push_some(out, names, phases)
}

/// Appends the phases after the rule: `-` where it is final.
pub(crate) fn push_phases_after(
    out: &mut Vec<u8>,
    names: &[String],
    rule: &Rule,
) -> Result<(), Memory>
    requires { length names.now ≤ MOST_PHASES }
    ensures ok { OnOk result (out.new.items ≡ out.old.items ++ phases_after_text (map string_bytes names.now) rule.now.v rule.now.after) }
{
    if rule.v.is_empty() {
        out.push(b'-')?;
        return Ok(());
    }
    push_phases(out, names, rule.after)
}
