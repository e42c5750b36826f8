/// What a worker passes before it begins a piece of work. It has no clause and no count: nothing is claimed of what
/// a gate does, how long it takes, or in which order workers pass it.
pub trait Gate {
    /// Called before the piece with this number, counted from 0. It can't refuse.
    fn pass(&self, piece: u64);
}

/// The gate of the program, which does nothing.
#[derive(Clone, Copy)]
pub struct NoGate;

impl Gate for NoGate {
    fn pass(&self, _piece: u64) {}
}
