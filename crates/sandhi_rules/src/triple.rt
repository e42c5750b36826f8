ghost use Rattle.std.specs.Prelude.{◌≡◌, IfOk};
ghost use Rattle.sandhi_rules.specs.Triples.{triple_of};

use super::Rule;
use phoneme::{Memory, Word};
use std::alloc::Global;

/// What no two rules of a rule set share: `u`, `v` and `w` of a rule.
#[derive(Drop, PartialEq, Eq, Hash)]
pub struct Triple {
    pub u: Word,
    pub v: Word,
    pub w: Word,
}

impl Triple {
    /// The triple of the rule, in memory of its own.
    pub fn of(alloc: Global, rule: &Rule) -> Result<Triple, Memory>
        ensures { IfOk result (λ triple. triple ≡ triple_of rule.now) }
    {
        Ok(Triple {
            u: rule.u.copy(alloc)?,
            v: rule.v.copy(alloc)?,
            w: rule.w.copy(alloc)?,
        })
    }
}
