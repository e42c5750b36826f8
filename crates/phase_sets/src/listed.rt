ghost use Rattle.std.specs.Prelude.{◌≡◌, ◌≤◌, length, map, string_bytes, MatchOption, None, Some};
ghost use Rattle.phase_sets.specs.ListedPhases.{nothing_listed, listed_with, set_listed};

use lexicon_definitions::MOST_PHASES;
use sandhi_rules::phase_named;
use std::marker::Model;

/// Phases that were named one after another: their set, how many they are, and the number from which on the next one may be.
#[derive(Drop)]
struct Listed {
    set: u16,
    count: usize,
    next: usize,
}

impl Model for Listed {
    ghost use Rattle.std.specs.Prelude.{◌≤◌};
    ghost use Rattle.phase_sets.specs.ListedPhases.{Listed as ListedValue};

    ghost Value = { ListedValue };

    ghost view = { λ l. record { set = l.set; count = l.count; next = l.next } };

    ghost invariant = { λ l. l.count ≤ l.next };
}

impl Listed {
    /// No phase.
    fn none() -> Listed
        ensures { result ≡ nothing_listed }
    {
        Listed {
            set: 0,
            count: 0,
            next: 0,
        }
    }

    /// The phases with the one that has this name, where it comes after them.
    fn with(self, names: &[String], name: &[u8]) -> Option<Listed>
        requires { length names.now ≤ MOST_PHASES }
        ensures { result ≡ listed_with (map string_bytes names.now) self name.now }
    {
        let Some(phase) = phase_named(names, name) else {
            return None;
        };
        if phase < self.next {
            return None;
        }
        Some(Listed {
            set: self.set | (1 << phase),
            count: self.count + 1,
            next: phase + 1,
        })
    }
}

/// The set of the phases whose names stand in the field, with `,` between: they rise, and are not all phases.
pub(crate) fn phases_listed(names: &[String], field: &[u8]) -> Option<u16>
    requires { length names.now ≤ MOST_PHASES }
    ensures { result ≡ set_listed (map string_bytes names.now) field.now }
{
    let mut listed = Listed::none();
    for name in field.split(|byte| *byte == b',') {
        let Some(more) = listed.with(names, name) else {
            return None;
        };
        listed = more;
    }
    if listed.count < names.len() {
        Some(listed.set)
    } else {
        None
    }
}
