ghost use Rattle.std.specs.Prelude.{◌≡◌, ◌≢◌, ◌<◌, ◌≤◌, ◌^◌, ◌↔◌, [], IsTrue};
ghost use Rattle.lexicon_definitions.specs.declared.limits.TheConstants.{MOST_PHASES};
ghost use Rattle.lexicon_definitions.specs.Rules.{IsStrict, IsInner, IsFinal, HasPhase, all_phases as all_phases_of, unlimited_rule};

use lexicon_definitions::MOST_PHASES;
use phoneme::Word;
use std::marker::Model;

/// A rule of external sandhi (Huet 2005): a form that ends in `u`, of a phase in `before`, followed by a form that
/// begins with `v`, of a phase in `after`, is written `w` at the seam. Where `v` is empty the rule is final: it changes
/// the end of the last form of a line, and `after` is 0. Bit `k` of `before` and of `after` stands for phase `k`,
/// counted from 0.
#[derive(Drop)]
pub struct Rule {
    pub u: Word,
    pub v: Word,
    pub w: Word,
    pub before: u16,
    pub after: u16,
}

impl Model for Rule {
    ghost use Rattle.lexicon_definitions.specs.Rules.{Rule as RuleValue};

    ghost Value = { RuleValue };

    ghost view = { λ r. record { u = r.u; v = r.v; w = r.w; before = r.before; after = r.after } };
}

/// Whether the phase, counted from 0, is in the set of phases.
pub(crate) fn has_phase(phases: u16, phase: u32) -> bool
    ensures { IsTrue result ↔ HasPhase phases phase }
{
    phase < MOST_PHASES as u32 && (phases >> phase) & 1 == 1
}

/// The set of the first count phases.
fn all_phases(count: usize) -> u16
    requires { count ≤ MOST_PHASES }
    ensures { result ≡ all_phases_of count }
{
    ((1u32 << count) - 1) as u16
}

impl Rule {
    /// The rule with this `u`, `v` and `w` that is unlimited over so many phases.
    pub fn unlimited(count: usize, u: Word, v: Word, w: Word) -> Rule
        requires { count ≤ MOST_PHASES }
        ensures { result ≡ unlimited_rule count u v w }
    {
        let before = all_phases(count);
        let after = if v.is_empty() { 0 } else { before };
        Rule {
            u,
            v,
            w,
            before,
            after,
        }
    }

    /// Whether neither `u` nor `w` is empty, as of every rule of a rule set (Huet 2005).
    pub fn is_strict(&self) -> bool
        ensures { IsTrue result ↔ IsStrict self.now }
    {
        !self.u.as_slice().is_empty() && !self.w.as_slice().is_empty()
    }

    /// Whether `v` is not empty, so that the rule stands between two forms.
    pub fn is_inner(&self) -> bool
        ensures { IsTrue result ↔ IsInner self.now }
    {
        !self.v.as_slice().is_empty()
    }

    /// Whether `v` is empty, so that the rule changes the end of the last form.
    pub fn is_final(&self) -> bool
        ensures { IsTrue result ↔ IsFinal self.now }
    {
        self.v.as_slice().is_empty()
    }

    /// Whether the rule may follow a form of this phase, counted from 0.
    pub fn may_follow(&self, phase: u32) -> bool
        ensures { IsTrue result ↔ HasPhase self.now.before phase }
    {
        has_phase(self.before, phase)
    }

    /// Whether the rule may precede a form of this phase, counted from 0.
    pub fn may_precede(&self, phase: u32) -> bool
        ensures { IsTrue result ↔ HasPhase self.now.after phase }
    {
        has_phase(self.after, phase)
    }
}
