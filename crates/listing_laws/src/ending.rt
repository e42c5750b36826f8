ghost use Rattle.std.specs.Prelude.{ℕ, ◌+◌, ◌<◌, List, [], ◌∷◌, ◌++◌, length};
ghost use Rattle.listing_laws.specs.Measures.{AreDigits, far_from_end};

/// A search comes to an end, whether what it enters has a path or not: where its branches are numbered as they rise, from 1
/// and below a base, and its frames are fewer than some number of places, the measure falls at each step. The digits are
/// those of the branches taken and of the next one.
pub fn a_search_comes_to_an_end()
    ensures entering { (base places : ℕ) (taken : List ℕ) (next first : ℕ) → 0 < base → AreDigits base (taken ++ next ∷ []) → 0 < first
        → length taken + 1 < places
        → far_from_end base places ((taken ++ next ∷ []) ++ first ∷ []) < far_from_end base places (taken ++ next ∷ []) }
    ensures passing { (base places : ℕ) (taken : List ℕ) (next later : ℕ) → 0 < base → AreDigits base (taken ++ next ∷ []) → next < later
        → length taken < places
        → far_from_end base places (taken ++ later ∷ []) < far_from_end base places (taken ++ next ∷ []) }
    ensures leaving { (base places : ℕ) (taken : List ℕ) (last next later : ℕ) → 0 < base
        → AreDigits base ((taken ++ last ∷ []) ++ next ∷ []) → last < later → length taken < places
        → far_from_end base places (taken ++ later ∷ []) < far_from_end base places ((taken ++ last ∷ []) ++ next ∷ []) }
{}
