ghost use Rattle.std.specs.Prelude.{◌≡◌, ℕ, ◌+◌, List, [], ◌∷◌};
ghost use Rattle.std.specs.Ordering.{nat_cmp};
ghost use Rattle.std.specs.Cmp.Lexicographic.{slice_cmp};
ghost use Rattle.list_laws.specs.Firsts.{AreAll};
ghost use Rattle.listing_laws.specs.Ways.{IsPath};
ghost use Rattle.listing_laws.specs.Listings.{listing};
ghost use Rattle.listing_laws.specs.SmallSums.{sums, edges_of_sums};

/// A small case, which shows what the definitions mean: the ways to write a number as a sum of numbers above 0 are listed,
/// and those of 3 are these.
pub fn sums_are_listed()
    ensures listed { (total : ℕ) → AreAll (slice_cmp nat_cmp) (IsPath (sums total) 0) (listing (edges_of_sums total) (total + 1) 0) }
    ensures of_three { listing (edges_of_sums 3) 4 0
        ≡ (1 ∷ 1 ∷ 1 ∷ []) ∷ (1 ∷ 2 ∷ []) ∷ (2 ∷ 1 ∷ []) ∷ (3 ∷ []) ∷ [] }
{}
