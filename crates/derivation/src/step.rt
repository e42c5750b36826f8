ghost use Rattle.std.specs.Prelude.{◌≡◌};

use std::cmp::Ordering;

/// A step of a derivation (Huet 2005): a form of a phase and the rule after it. Phases count from 0 and rules from 1,
/// where rule 0 is no change. The form's letters are the `lead` letters that the rule before supplies, which are all of
/// its `v`, then the `taken` letters of the line from `at` on, then the `u` of the rule. `at`, `lead` and `taken` count
/// letters, `at` from 0.
#[derive(Clone, Copy, PartialEq, Eq)]
pub struct Step {
    pub phase: u32,
    pub rule: u32,
    pub at: u32,
    pub lead: u32,
    pub taken: u32,
}

/// The part of a step by which answers are ordered, an order of our own: its phase, counted from 0, how many letters of
/// the line it takes, and its rule, counted from 1, 0 for no change.
#[derive(Clone, Copy, Debug, PartialEq, Eq)]
pub struct Key {
    pub phase: u32,
    pub taken: u32,
    pub rule: u32,
}

impl Key {
    ghost use Rattle.segmentation_definitions.specs.Listings.{compare_keys};
    ghost use Rattle.derivation.specs.Steps.{key_meant};

    /// The order of keys: the smaller phase is first, then the larger number of letters taken, then the smaller rule (own).
    pub fn compare(&self, other: &Key) -> Ordering
        ensures { result ≡ compare_keys (key_meant self.now) (key_meant other.now) }
    {
        self.phase
            .cmp(&other.phase)
            .then(other.taken.cmp(&self.taken))
            .then(self.rule.cmp(&other.rule))
    }
}

impl Step {
    /// The key of the step.
    pub fn key(&self) -> Key
        ensures { result ≡ record { phase = self.now.phase; taken = self.now.taken; rule = self.now.rule } }
    {
        Key {
            phase: self.phase,
            taken: self.taken,
            rule: self.rule,
        }
    }
}
