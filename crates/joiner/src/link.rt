use phoneme::Word;
use std::marker::Model;

/// A form of a chain with the number of its phase, counted from 0, and the number of the rule after it, counted from 1; 0
/// where there is no change.
#[derive(Drop)]
pub struct Link {
    pub phase: u32,
    pub form: Word,
    pub rule: u32,
}

impl Model for Link {
    ghost use Rattle.segmentation_definitions.specs.Derivations.{Step};

    ghost Value = { Step };

    ghost view = { λ l. record { phase = l.phase; form = l.form; rule = l.rule } };
}
