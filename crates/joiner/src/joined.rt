use phoneme::Word;
use strictness::Overlap;

/// What a chain is joined to (after Huet 2005; answers are own): the one word that it derives, with whether the chain is an answer
/// for this word; or the first of its forms in which the rules at its two sides overlap.
#[derive(Drop)]
pub enum Joined {
    Text { word: Word, answer: bool },
    Overlap(Overlap),
}
