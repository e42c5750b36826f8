use super::Node;

/// A node on the way to a form, and how many of its children were walked.
#[derive(Clone, Copy)]
pub(crate) struct Level {
    pub node: Node,
    pub walked: usize,
}
