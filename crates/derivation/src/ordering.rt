ghost use Rattle.std.specs.Prelude.{◌≡◌};
ghost use Rattle.segmentation_definitions.specs.Listings.{compare_key_lists};
ghost use Rattle.derivation.specs.Steps.{keys_of};

use super::Step;
use std::cmp::Ordering;

/// The order of answers: at the first step whose keys differ the smaller phase is first, then the larger number of
/// letters taken, then the smaller rule; a list whose keys are a proper prefix of the other's is smaller. The order is
/// our own.
pub fn compare(a: &[Step], b: &[Step]) -> Ordering
    ensures { result ≡ compare_key_lists (keys_of a.now) (keys_of b.now) }
{
    for i in 0..a.len().min(b.len()) {
        let order = a[i].key().compare(&b[i].key());
        if order.is_ne() {
            return order;
        }
    }
    a.len().cmp(&b.len())
}
