ghost use Rattle.std.specs.Prelude.{◌≡◌, ◌≤◌, IfOk, IsTrue};

use phoneme::Memory;
use std::alloc::Global;
use std::sync::atomic::{AtomicUsize, Ordering};

/// How far the workers of a block have come: which part is to be taken next, and how many answers of each part are listed. It only
/// saves work: what is on a page rests on nothing that the workers tell one another.
#[derive(Drop)]
pub(crate) struct Progress {
    /// How many answers the page can still take.
    pub room: usize,
    next: AtomicUsize,
    listed: Vec<AtomicUsize>,
}

impl Progress {
    /// That of a block of so many parts, of which none is taken.
    pub fn new(alloc: Global, parts: usize, room: usize) -> Result<Progress, Memory>
        ensures room { IfOk result (λ progress. progress.room ≡ room) }
    {
        let mut listed = Vec::with_capacity(alloc, parts)?;
        for _ in 0..parts {
            listed.push(AtomicUsize::new(0))?;
        }
        Ok(Progress {
            room,
            next: AtomicUsize::new(0),
            listed,
        })
    }

    /// The number of the next part that no worker has taken, counted from 0; past the last where all are taken.
    pub fn take_next(&self) -> usize {
        self.next.fetch_add(1, Ordering::SeqCst)
    }

    /// Tells the other workers that so many answers of the part are listed.
    pub fn tell(&self, place: usize, count: usize) {
        if let Some(listed) = self.listed.get(place) {
            listed.store(count, Ordering::SeqCst);
        }
    }

    /// How many answers of the parts before this one are listed so far.
    fn count_before(&self, place: usize) -> usize
        ensures { place ≡ 0 → result ≡ 0 }
    {
        let mut count: usize = 0;
        for number in 0..place {
            if let Some(listed) = self.listed.get(number) {
                count = count.saturating_add(listed.load(Ordering::SeqCst));
            }
        }
        count
    }

    /// Whether the page is full with so many answers of the part after those of the parts before it that are listed so far.
    pub fn is_full(&self, place: usize, count: usize) -> bool
        ensures { place ≡ 0 → IsTrue result → self.now.room ≤ count }
    {
        self.room <= self.count_before(place).saturating_add(count)
    }
}
