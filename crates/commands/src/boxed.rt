ghost use Rattle.std.specs.Prelude.{◌≡◌, IfOk};

use phoneme::Memory;
use std::alloc::Global;

/// The value in a box of its own: for one of many parts, so that whoever owns it owns one thing. Refused only for want of memory.
pub(crate) fn in_box<T: Drop>(alloc: Global, value: T) -> Result<Box<T>, Memory>
    ensures { IfOk result (λ boxed. boxed.value ≡ value) }
{
    Ok(Box::new(alloc, value)?)
}
