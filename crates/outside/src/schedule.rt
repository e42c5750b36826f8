ghost use Rattle.std.specs.Prelude.{◌≡◌, ◌↔◌, IsTrue};
ghost use Rattle.outside.specs.Counts.{one_more};
ghost use Rattle.outside.specs.States.{NextFails};

/// Which calls of a device in memory are to fail, by their numbers, and how many calls there were. Calls are
/// counted from 1; a call after number 2^64 - 1 has that number too.
#[derive(Drop)]
pub struct Schedule {
    pub failing: Vec<u64>,
    pub calls: u64,
}

impl Schedule {
    /// No call yet.
    pub fn new(failing: Vec<u64>) -> Schedule
        ensures { result ≡ record { failing = failing; calls = 0 } }
    {
        Schedule { failing, calls: 0 }
    }

    /// Counts a call, and says whether it is to fail.
    pub fn next_fails(&mut self) -> bool
        ensures value { IsTrue result ↔ NextFails self.old.failing.items self.old.calls }
        ensures counted { self.new ≡ record self.old { calls = one_more self.old.calls } }
    {
        self.calls = self.calls.saturating_add(1);
        self.failing.contains(&self.calls)
    }
}
