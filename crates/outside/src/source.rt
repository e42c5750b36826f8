ghost use Rattle.std.specs.Prelude.{◌≡◌, ℕ, ◌-◌, ◌^◌, ◌<◌, ◌≤◌, List, length, take, drop, Option, OnOk, OnErr, IfOk};
ghost use Rattle.outside.specs.Counts.{Rose};
ghost use Rattle.outside.specs.Told.{bytes_before, IsAtEnd};

use std::error::Error;
use std::fmt;

/// A read of a source failed, and the source counted it.
#[derive(Clone, Copy, Debug, PartialEq, Eq)]
pub struct Failed;

impl fmt::Display for Failed {
    fn fmt<W: fmt::Write>(&self, f: &mut fmt::Formatter<W>) -> fmt::Result {
        write!(f, "the input could not be read")
    }
}

impl Error for Failed {}

/// Bytes that come in order. Whether a source tells the bytes left is fixed. Failed reads are counted; the count
/// never falls and rises only where a read fails. It stops at 2^64 - 1, and there counts as having risen.
pub trait Source {
    /// The bytes left, where the source tells them.
    ghost left: { Self → Option (List ℕ) };

    /// How many reads have failed.
    ghost faults: { Self → ℕ };

    /// Puts the next bytes at the front of `buf`, which has room for one at least, and answers how many; 0 is the
    /// end of input. `Failed` only where the count of faults rose; then no byte is taken. What comes after these
    /// bytes in `buf` stays as it was, and so does all of `buf` after an error.
    fn read(&mut self, buf: &mut [u8]) -> Result<usize, Failed>
        requires { 0 < length buf.old }
        ensures bound { IfOk result (λ n. n ≤ length buf.new) }
        ensures ok { IfOk result (λ n. left self.old ≡ bytes_before (take n buf.new) (left self.new)) }
        ensures end { IfOk result (λ n. n ≡ 0 → IsAtEnd (left self.old)) }
        ensures fault { OnErr result (Rose (faults self.old) (faults self.new)) }

        // What stays.
        ensures rest { IfOk result (λ n. drop n buf.new ≡ drop n buf.old) }
        ensures unchanged { OnErr result (left self.new ≡ left self.old) }
        ensures buffer { OnErr result (buf.new ≡ buf.old) }
        ensures faults { OnOk result (faults self.new ≡ faults self.old) }
        ensures never_falls { faults self.old ≤ faults self.new }
        ensures limit { faults self.new ≤ 2 ^ 64 - 1 };
}
