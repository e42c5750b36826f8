use std::alloc::Global;
use std::cell::{Cell, RefCell};
use std::fmt::Display;
use std::io::{self, ErrorKind};
use std::rt::Clock;
use std::time::Duration;

/// Standard output that takes at most so many bytes or fails so, one a write. After them it takes all. Its clock can't be
/// read, and doesn't sleep.
#[derive(Drop)]
pub struct ScriptedPrinter {
    writes: Cell<&'static [Result<usize, ErrorKind>]>,
    taken: RefCell<Vec<u8>>,
}

impl ScriptedPrinter {
    pub fn new(alloc: Global, writes: &'static [Result<usize, ErrorKind>]) -> ScriptedPrinter {
        ScriptedPrinter {
            writes: Cell::new(writes),
            taken: RefCell::new(Vec::new(alloc)),
        }
    }

    /// All bytes that it took.
    pub fn into_taken(self) -> Vec<u8> {
        self.taken.into_inner()
    }
}

impl Print for ScriptedPrinter {
    fn print<D: Display + Drop>(&self, _value: D) -> io::Result<()> {
        Err(ErrorKind::Unsupported.into())
    }

    fn println<D: Display + Drop>(&self, _value: D) -> io::Result<()> {
        Err(ErrorKind::Unsupported.into())
    }

    fn write_all(&self, _bytes: &[u8]) -> io::Result<()> {
        Err(ErrorKind::Unsupported.into())
    }

    fn write_some(&self, bytes: &[u8]) -> io::Result<usize> {
        let mut count = bytes.len();
        if let Some((next, rest)) = self.writes.get().split_first() {
            self.writes.set(rest);
            let most = (*next)?;
            count = count.min(most);
        }
        let Ok(mut taken) = self.taken.try_borrow_mut() else {
            return Err(ErrorKind::ResourceBusy.into());
        };
        taken.extend_from_slice(&bytes[..count])?;
        Ok(count)
    }
}

impl Clock for ScriptedPrinter {
    fn monotonic(&self) -> io::Result<Duration> {
        Err(ErrorKind::Unsupported.into())
    }

    fn since_1970(&self) -> io::Result<Duration> {
        Err(ErrorKind::Unsupported.into())
    }
}
