ghost use Rattle.std.specs.Prelude.{◌≡◌, ◌↔◌, ℕ, ◌+◌, ◌*◌, ◌<◌, List, length, IsTrue, IfOk, Contains};
ghost use Rattle.sandhi_rules.specs.AllowedPairs.{AreAllowed};

use phoneme::{Letter, Memory};
use std::alloc::Global;

/// The codes of letters lie below this number.
const CODES: usize = 51;

/// Which pairs of letters may meet unchanged, each told by one look-up.
#[derive(Drop)]
pub(crate) struct PlainPairs {
    /// For each two codes, at their place, whether their letters may meet so.
    pub allowed: Vec<bool>,
}

/// The place of the two letters among all pairs of codes. Different pairs have different places, since codes are below 51.
fn place_of(x: Letter, y: Letter) -> usize
    ensures place { result ≡ 51 * x + y }
    ensures codes { (x < 51) × (y < 51) }
{
    CODES * x.code() as usize + y.code() as usize
}

impl PlainPairs {
    /// Only these pairs may meet unchanged. Refused only for want of memory.
    pub fn of(alloc: Global, pairs: &[(Letter, Letter)]) -> Result<PlainPairs, Memory>
        ensures ok { IfOk result (λ plain. AreAllowed pairs.now plain.allowed.items) }
    {
        let mut allowed = vec![in alloc; false; CODES * CODES]?;
        for (x, y) in pairs {
            allowed[place_of(*x, *y)] = true;
        }
        Ok(PlainPairs { allowed })
    }

    /// Whether the letters may meet unchanged, `x` before `y`.
    pub fn has(&self, x: Letter, y: Letter) -> bool
        requires { length self.now.allowed.items ≡ 51 * 51 }
        ensures { (pairs : List (ℕ × ℕ)) → AreAllowed pairs self.now.allowed.items → IsTrue result ↔ Contains pairs (x, y) }
    {
        self.allowed[place_of(x, y)]
    }
}
