use phoneme::Word;
use std::marker::Model;

/// A segment as a reader sees it (after Goyal and Huet 2016): how many letters of the line stand before it, how many of its
/// form the rule before it supplies, its phase, counted from 0, and its form.
#[derive(Drop)]
pub struct Item {
    pub at: u32,
    pub lead: u32,
    pub phase: u32,
    pub form: Word,
}

impl Model for Item {
    ghost use Rattle.segmentation_definitions.specs.Items.{Item as ItemValue};

    ghost Value = { ItemValue };

    ghost view = { λ i. record { at = i.at; lead = i.lead; phase = i.phase; form = i.form } };
}

/// A reader's choice: an item is kept, or rejected (after Goyal and Huet 2016).
#[derive(Drop)]
pub struct Choice {
    pub kept: bool,
    pub item: Item,
}

impl Model for Choice {
    ghost use Rattle.segmentation_definitions.specs.Items.{Choice as ChoiceValue};

    ghost Value = { ChoiceValue };

    ghost view = { λ c. record { kept = c.kept; item = c.item } };
}
