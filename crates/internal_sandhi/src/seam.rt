ghost use Rattle.std.specs.Prelude.{◌++◌, IfOk};
ghost use Rattle.morphology_definitions.specs.InternalSandhi.{IsJoined};

use super::nasals::turn_nasals;
use super::sibilants::turn_sibilants;
use super::stops::turn_stops;
use phoneme::{Letter, Memory, Word};
use std::alloc::Global;

/// `front` followed by `ending`, whose letters change as internal sandhi has it (Whitney, sections 180 to 197).
/// Refused only for want of memory.
pub fn join(alloc: Global, front: &Word, ending: &Word) -> Result<Word, Memory>
    ensures ok { IfOk result (λ word. IsJoined front.now ending.now word) }
{
    join_parts(alloc, front.as_slice(), &[], ending.as_slice())
}

/// The same where the front is a prefix and a base, which need not stand in one word.
pub fn join_parts(
    alloc: Global,
    prefix: &[Letter],
    base: &[Letter],
    ending: &[Letter],
) -> Result<Word, Memory>
    ensures ok { IfOk result (λ word. IsJoined (prefix.now ++ base.now) ending.now word) }
{
    let mut letters = Vec::from_slice(alloc, prefix)?;
    letters.extend_from_slice(base)?;
    let start = letters.len();
    letters.extend_from_slice(ending)?;
    turn_sibilants(&mut letters, start);
    turn_stops(&mut letters, start);
    turn_nasals(&mut letters, start);
    Word::from_slice(alloc, &letters)
}
