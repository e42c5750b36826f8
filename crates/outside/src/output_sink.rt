ghost use Rattle.std.specs.Prelude.{◌≡◌, None};

use super::retrying::write_some;
use super::{Sink, WriteError};
use std::io;
use std::marker::Model;
use std::rt::Clock;

/// Standard output as a sink: each call is a write of the system, with no buffer between. It doesn't tell the bytes
/// written. It keeps its last fault for whoever tells a person. Contracts see it as its count of faults.
#[derive(Drop)]
pub struct OutputSink<'a, P> {
    printer: &'a P,
    faults: u64,
    last_fault: Option<io::Error>,
}

impl<'a, P> Model for OutputSink<'a, P> {
    ghost use Rattle.std.specs.Prelude.{ℕ, ◌-◌, ◌^◌, ◌≤◌};

    ghost Value = { ℕ };

    ghost view = { λ s. s.faults };

    ghost invariant = { λ s. s.faults ≤ 2 ^ 64 - 1 };
}

impl<'a, P: Print> OutputSink<'a, P> {
    /// The standard output that the runtime gives, with no fault so far.
    pub fn new(rt: &'a P) -> OutputSink<'a, P>
        ensures { result ≡ 0 }
    {
        OutputSink {
            printer: rt,
            faults: 0,
            last_fault: None,
        }
    }

    /// What the system said of the last write that failed, for a message to a person; `None` where none did.
    pub fn last_fault(&self) -> Option<io::Error> {
        self.last_fault
    }
}

impl<'a, P: Print + Clock> Sink for OutputSink<'a, P> {
    ghost written = { λ _. None };

    ghost faults = { λ s. s };

    /// A write that takes no byte is a fault, as each `Err` is.
    fn write(&mut self, bytes: &[u8]) -> Result<usize, WriteError> {
        match write_some(self.printer, &mut io::writer(self.printer), bytes) {
            Ok(count) => Ok(count),
            Err(cause) => {
                self.last_fault = Some(cause);
                self.faults = self.faults.saturating_add(1);
                Err(WriteError::Failed)
            }
        }
    }
}
