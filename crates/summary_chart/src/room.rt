use super::alike::AlikeFront;
use super::memo::Memo;
use super::walk_memo::WalkMemo;
use shared_trie::Node;

/// What walks use again: room for their nodes, and what is known of the work that was done and of the walks that were made.
#[derive(Drop)]
pub(crate) struct WalkRoom {
    pub nodes: Vec<Node>,
    pub memo: Memo,
    pub walks: WalkMemo,
}

/// What a pass uses again at each place: what walks use, and room for the fronts of phases. In the pass forward these are the ones that are
/// next, those with one letter more, where the seats tell of some of them, and those that were gone over.
#[derive(Drop)]
pub(crate) struct Room {
    pub walking: WalkRoom,
    pub fronts: Vec<AlikeFront>,
    pub longer: Vec<AlikeFront>,
    pub walked: Vec<AlikeFront>,
    pub seats: Vec<usize>,
}
