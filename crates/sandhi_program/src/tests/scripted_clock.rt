use std::cell::Cell;
use std::io::{self, ErrorKind};
use std::rt::Clock;
use std::time::Duration;

/// A clock that can't be read, and counts for how many milliseconds it was to sleep.
#[derive(Drop)]
pub struct ScriptedClock {
    slept: Cell<u64>,
}

impl ScriptedClock {
    pub fn new() -> ScriptedClock {
        ScriptedClock {
            slept: Cell::new(0),
        }
    }

    /// How many milliseconds all sleeps together took.
    pub fn slept(&self) -> u64 {
        self.slept.get()
    }
}

impl Clock for ScriptedClock {
    fn monotonic(&self) -> io::Result<Duration> {
        Err(ErrorKind::Unsupported.into())
    }

    fn since_1970(&self) -> io::Result<Duration> {
        Err(ErrorKind::Unsupported.into())
    }

    fn sleep(&self, duration: Duration) {
        let millis = u64::from(duration.subsec_millis());
        self.slept.set(self.slept.get().saturating_add(millis));
    }
}
