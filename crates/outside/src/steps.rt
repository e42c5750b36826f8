ghost use Rattle.std.specs.Prelude.{◌≡◌, ◌+◌};
ghost use Rattle.outside.specs.Numbers.{number_after};

use std::marker::{Model, PhantomData};
use std::mem;
use std::snapshot::Snapshot;

/// How many steps were taken, for bounds on the cost of a call. Contracts see it as that number, which has no upper
/// end. It takes no bytes, so a running program can't read it. `L` names the ledger in which the steps are counted, so
/// that two counts are not taken for one another; any type serves.
pub struct Steps<L> {
    count: Snapshot<Number>,
    ledger: PhantomData<L>,
}

impl<L> Model for Steps<L> {
    ghost use Rattle.std.specs.Prelude.{ℕ};

    ghost Value = { ℕ };

    ghost view = { λ s. s.count.value };
}

impl<L> Steps<L> {
    /// No step so far.
    #[inline]
    pub fn new() -> Steps<L>
        ensures { result ≡ 0 }
    {
        Steps {
            count: snapshot_after(None),
            ledger: PhantomData,
        }
    }

    /// Counts one step. Nothing is done when the program runs.
    #[inline]
    pub fn tick(&mut self)
        ensures { self.new ≡ self.old + 1 }
    {
        let before = mem::replace(&mut self.count, snapshot_after(None));
        self.count = snapshot_after(Some(before));
    }
}

impl<L> Drop for Steps<L> {
    fn drop(self) {
        let Self { count, ledger: _ } = self;
        drop(count);
    }
}

/// A natural number as the chain of those before it: 0, or one more than the number before. Only its snapshots are
/// kept, which clauses alone see.
#[derive(Drop)]
struct Number {
    before: Option<Snapshot<Number>>,
}

impl Model for Number {
    ghost use Rattle.std.specs.Prelude.{ℕ};
    ghost use Rattle.std.proofs.Common.{arith};
    ghost use Rattle.outside.specs.Numbers.{number_after};

    ghost Value = { ℕ };

    ghost view = { λ n. number_after n.before };

    ghost size = { λ n. n };

    ghost size_decreases = { λ n valid. Prim.grind arith };
}

/// The number after the given one, or 0.
#[inline]
fn snapshot_after(before: Option<Snapshot<Number>>) -> Snapshot<Number>
    ensures { result.value ≡ number_after before }
{
    Snapshot::of(&Number { before })
}
