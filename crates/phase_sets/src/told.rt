ghost use Rattle.std.specs.Prelude.{◌≡◌, ℕ, ◌≤◌, List, length, map, string_bytes};
ghost use Rattle.list_laws.specs.EmptyLists.{is_empty};
ghost use Rattle.lexicon_definitions.specs.Rules.{all_phases as all_phases_of};
ghost use Rattle.trie_text_definitions.specs.LimitedRules.{set_told, set_after_told};

use crate::listed::phases_listed;
use lexicon_definitions::MOST_PHASES;

/// The set of the first count phases, of which bit `k` stands for phase `k`, counted from 0.
pub fn all_phases(count: usize) -> u16
    requires { count ≤ MOST_PHASES }
    ensures { result ≡ all_phases_of count }
{
    ((1u32 << count) - 1) as u16
}

/// The set of phases that a field tells, over the phases with these names: `*`, or names in the order of the phases, not all
/// of them. Bit `k` of the set stands for phase `k`, counted from 0. `None` where the field is neither.
pub fn phases_told(names: &[String], field: &[u8]) -> Option<u16>
    requires { length names.now ≤ MOST_PHASES }
    ensures told { result ≡ set_told (map string_bytes names.now) field.now }
{
    if field == b"*".as_slice() {
        Some(all_phases(names.len()))
    } else {
        phases_listed(names, field)
    }
}

/// The set of the phases after a rule that a field tells: that of `phases_told`, but of a final rule the field is `-`, and the
/// set is empty.
pub fn phases_after_told(names: &[String], is_final: bool, field: &[u8]) -> Option<u16>
    requires { length names.now ≤ MOST_PHASES }
    ensures told { (v : List ℕ) → is_empty v ≡ is_final → result ≡ set_after_told (map string_bytes names.now) v field.now }
{
    if !is_final {
        return phases_told(names, field);
    }
    if field == b"-".as_slice() {
        Some(0)
    } else {
        None
    }
}
