use phoneme::Letter;

/// How a search enters the next form (own): at the start of the line; unchanged after a form that ends in the letter; or
/// after an inner rule, whose lead is given by its place in the rule set's list of leads, counted from 0. After a rule the
/// form begins with the lead's `v` and is of a phase in its `after`.
#[derive(Clone, Copy)]
pub enum Entrance {
    Start,
    Plain(Letter),
    Lead(u16),
}
