ghost use Rattle.std.specs.Prelude.{◌≡◌, ◌↔◌, ℕ, ◌+◌, ◌<◌, ◌≤◌, List, [], ◌∷◌, ◌++◌};
ghost use Rattle.std.specs.Cmp.Lexicographic.{slice_cmp};
ghost use Rattle.std.specs.declared.cmp.Ordering.TheVariants.{Less, Equal};
ghost use Rattle.list_laws.specs.Firsts.{AreAll};
ghost use Rattle.listing_laws.specs.Ways.{AreOrderly, AreRanked, IsPath, kept};
ghost use Rattle.listing_laws.specs.Stacks.{IsToCome};
ghost use Rattle.listing_laws.specs.Depths.{IsToComeAt};
ghost use Rattle.listing_laws.specs.Listings.{Edge, AreEdges, listing};

use crate::searched::Searched;

/// Where branches lead to higher ranks up to a bound, the depth-first listing is the strictly rising list that has every path
/// and nothing else. No path is a proper front of another, and paths that compare as equal are the same.
pub fn the_listing_has_every_path<S: Searched>()
    ensures listed { (rank : S.Configuration → ℕ) (bound : ℕ) (edges : S.Configuration → List (Edge S.Configuration S.Branch))
        → AreOrderly S.ways → AreRanked S.ways rank bound → AreEdges S.ways edges
        → (deep : ℕ) (at : S.Configuration) → rank at ≤ bound → bound < deep + rank at
        → AreAll (slice_cmp S.ways.compare) (IsPath S.ways at) (listing edges deep at) }
    ensures no_front { AreOrderly S.ways → (at : S.Configuration) (path more : List S.Branch) → IsPath S.ways at path
        → IsPath S.ways at (path ++ more) → more ≡ [] }
    ensures same { AreOrderly S.ways → (at : S.Configuration) (left right : List S.Branch) → IsPath S.ways at left
        → IsPath S.ways at right → slice_cmp S.ways.compare left right ≡ Equal → left ≡ right }
{}

/// What is to come on a stack is so at one depth, and what is to come at a greater depth comes first.
pub fn what_is_to_come_falls_into_depths<S: Searched>()
    ensures somewhere { (taken path : List S.Branch)
        → IsToCome S.ways.compare taken S.IsLeft path ↔ ((depth : ℕ) × IsToComeAt S.ways.compare taken S.IsLeft depth path) }
    ensures once { AreOrderly S.ways → (taken : List S.Branch) (depth other : ℕ) (path : List S.Branch)
        → IsToComeAt S.ways.compare taken S.IsLeft depth path → IsToComeAt S.ways.compare taken S.IsLeft other path → depth ≡ other }
    ensures deeper_first { AreOrderly S.ways → (taken : List S.Branch) (deep shallow : ℕ) (left right : List S.Branch) → shallow < deep
        → IsToComeAt S.ways.compare taken S.IsLeft deep left → IsToComeAt S.ways.compare taken S.IsLeft shallow right
        → slice_cmp S.ways.compare left right ≡ Less }
{}

/// To leave out branches that begin no path leaves out no path.
pub fn branches_without_a_path_are_left_out<S: Searched>()
    ensures { ((at : S.Configuration) (branch : S.Branch) (rest : List S.Branch) → IsPath S.ways at (branch ∷ rest) → S.IsKept at branch)
        → (at : S.Configuration) (path : List S.Branch) → IsPath (kept S.ways S.IsKept) at path ↔ IsPath S.ways at path }
{}
