use derivation::Key;
use search_frames::Resumption;

/// A part of a search: the answers of one front, which is the list of the first keys of an answer, as many as a depth or all where it
/// has fewer. `from` stands at the first answer of the front.
#[derive(Drop)]
pub struct Part {
    pub front: Vec<Key>,
    pub from: Resumption,
}

/// Some parts of a search in the order of their answers, and whether a front is left after them.
#[derive(Drop)]
pub struct Parts {
    pub list: Vec<Part>,
    pub more: bool,
}
