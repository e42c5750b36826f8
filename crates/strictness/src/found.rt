ghost use Rattle.std.specs.Prelude.{◌≡◌, ◌↔◌, [], IsTrue, OnOk};

use super::Overlap;
use phoneme::Memory;
use std::alloc::Global;

/// The overlaps found so far, of which at most so many are wanted.
#[derive(Drop)]
pub(crate) struct Found {
    pub alloc: Global,
    pub overlaps: Vec<Overlap>,
    pub most: usize,
}

impl Found {
    ghost use Rattle.strictness.specs.Appending.{IsFull, Takes};

    /// For a search that wants at most this many overlaps and has found no overlap yet. Takes no memory.
    pub fn new(alloc: Global, most: usize) -> Found
        ensures overlaps { result.overlaps.items ≡ [] }
        ensures most { result.most ≡ most }
    {
        Found {
            alloc,
            overlaps: Vec::new(alloc),
            most,
        }
    }

    /// Whether as many overlaps were found as are wanted, so that a search may end.
    pub fn is_full(&self) -> bool
        ensures { IsTrue result ↔ IsFull self.now }
    {
        self.overlaps.len() == self.most
    }

    /// Takes the overlap where more are wanted.
    pub fn take(&mut self, overlap: Overlap) -> Result<(), Memory>
        ensures ok { OnOk result (Takes overlap self.old self.new) }
    {
        if !self.is_full() {
            self.overlaps.push(overlap)?;
        }
        Ok(())
    }
}
