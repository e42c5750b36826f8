use phoneme::Word;
use std::marker::Model;

/// A form of a phase, an inner rule whose `v` begins the form, and a rule whose `u` ends it, where `v` and `u` together are
/// longer than the form. The phase is in the set after the one rule and in the set before the other. The phase counts from
/// 0, the rules from 1.
#[derive(Drop)]
pub struct Overlap {
    pub phase: u32,
    pub form: Word,
    pub before: u32,
    pub after: u32,
}

impl Model for Overlap {
    ghost use Rattle.segmentation_definitions.specs.Overlaps.{Overlap as OverlapValue};

    ghost Value = { OverlapValue };

    ghost view = { λ o. record { phase = o.phase; form = o.form; before = o.before; after = o.after } };
}
