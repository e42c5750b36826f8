ghost use Rattle.std.specs.Prelude.{◌≡◌, ◌≤◌, length, map, string_bytes};
ghost use Rattle.rule_file_definitions.specs.EntryPhases.{unlimited as unlimited_of, phases_told as phases_told_of};
ghost use Rattle.rule_file.specs.Written.{limits_of};

use lexicon_definitions::MOST_PHASES;
use phase_sets::{all_phases, phases_after_told, phases_told};
use std::marker::Model;

/// The sets of the phases before and after a rule, of which bit `k` stands for phase `k`, counted from 0.
#[derive(Clone, Copy)]
pub(crate) struct Phases {
    pub before: u16,
    pub after: u16,
}

impl Model for Phases {
    ghost use Rattle.rule_file_definitions.specs.EntryPhases.{Phases as PhasesValue};

    ghost Value = { PhasesValue };

    ghost view = { λ p. record { before = p.before; after = p.after } };

    ghost inverse = { λ p. record { before = p.before; after = p.after } };
}

/// The sets of a rule that is not limited.
fn unlimited(count: usize, is_final: bool) -> Phases
    requires { count ≤ MOST_PHASES }
    ensures { result ≡ unlimited_of count is_final }
{
    let all = all_phases(count);
    Phases {
        before: all,
        after: if is_final { 0 } else { all },
    }
}

/// The sets that the fields of an entry tell, over the phases with these names. Without fields its rules are not limited.
pub(crate) fn phases_of(
    names: &[String],
    is_final: bool,
    limits: Option<(&[u8], &[u8])>,
) -> Option<Phases>
    requires { length names.now ≤ MOST_PHASES }
    ensures { result ≡ phases_told_of (map string_bytes names.now) is_final (limits_of limits.entry) }
{
    let Some((before, after)) = limits else {
        return Some(unlimited(names.len(), is_final));
    };
    let Some(before) = phases_told(names, before) else {
        return None;
    };
    let Some(after) = phases_after_told(names, is_final, after) else {
        return None;
    };
    Some(Phases { before, after })
}
