ghost use Rattle.std.specs.Prelude.{◌≡◌, Ok, Err, OnOk, IfErr, map, string_bytes};
ghost use Rattle.std.specs.List.{list_any};
ghost use Rattle.std.specs.Str.{bytes_eq};
ghost use Rattle.rule_file_definitions.specs.SoundClasses.{may_come_next as may_come_next_of, read_phases};
ghost use Rattle.rule_file.specs.Faults.{IfFault};

use crate::error::number_of;
use crate::{RuleError, RuleFault};
use lexicon_definitions::MOST_PHASES;
use sandhi_rules::is_phase_name;

/// Whether one of the names has these bytes.
fn has_name(names: &[String], name: &[u8]) -> bool
    ensures { result ≡ list_any (bytes_eq name.now) (map string_bytes names.now) }
{
    for known in names {
        if name == known.as_bytes() {
            return true;
        }
    }
    false
}

/// Whether the name may come next after these.
fn may_come_next(names: &[String], name: &[u8]) -> bool
    ensures { result ≡ may_come_next_of (map string_bytes names.now) name.now }
{
    if !is_phase_name(name) {
        return false;
    }
    if names.len() >= MOST_PHASES {
        return false;
    }
    !has_name(names, name)
}

/// Tests the names of the phases, of which there has to be one.
pub(crate) fn check_phases(names: &[String]) -> Result<(), RuleError>
    ensures ok { OnOk result (read_phases (map string_bytes names.now) ≡ Ok (map string_bytes names.now)) }
    ensures fault { IfErr result (λ error. IfFault error (λ fault. read_phases (map string_bytes names.now) ≡ Err fault)) }
{
    if names.is_empty() {
        return Err(RuleFault::Phase(0).into());
    }
    for (place, name) in names.iter().enumerate() {
        if !may_come_next(&names[..place], name.as_bytes()) {
            return Err(RuleFault::Phase(number_of(place)?).into());
        }
    }
    Ok(())
}
