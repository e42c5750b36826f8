use phoneme::Word;
use sandhi_rules::Triple;
use std::marker::Model;

/// A form as a chain's text writes it: its letters, and the name of its phase.
#[derive(Drop)]
pub(crate) struct WrittenForm {
    pub letters: Word,
    pub name: Vec<u8>,
}

impl Model for WrittenForm {
    ghost use Rattle.chain_definitions.specs.ChainTexts.{WrittenForm as FormValue};

    ghost Value = { FormValue };

    ghost view = { λ f. record { letters = f.letters; name = f.name.items } };
}

/// A written form, and the words of the rule after it; `None` where there is no change.
#[derive(Drop)]
pub(crate) struct WrittenStep {
    pub form: WrittenForm,
    pub change: Option<Triple>,
}

impl Model for WrittenStep {
    ghost use Rattle.chain_definitions.specs.ChainTexts.{WrittenStep as StepValue};
    ghost use Rattle.joiner.specs.Triples.{change_of};

    ghost Value = { StepValue };

    ghost view = { λ s. record { form = s.form; change = change_of s.change } };
}
