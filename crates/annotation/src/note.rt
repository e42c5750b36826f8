use derivation::Step;
use phoneme::Line;
use reader_choices::Choices;

/// A finished reading (own): a line, the reader's choices, and the one answer that these leave, step by step.
#[derive(Drop)]
pub struct Note {
    pub line: Line,
    pub choices: Choices,
    pub steps: Vec<Step>,
}
