ghost use Rattle.std.specs.Prelude.{◌≡◌, ◌↔◌, List, [], ◌∷◌, ◌++◌};
ghost use Rattle.std.specs.Cmp.Lexicographic.{slice_cmp};
ghost use Rattle.std.specs.declared.cmp.Ordering.TheVariants.{Less};
ghost use Rattle.listing_laws.specs.Ways.{AreOrderly, IsPath};
ghost use Rattle.listing_laws.specs.Cursors.{IsFirst};
ghost use Rattle.listing_laws.specs.Stacks.{Frame, taken_in, Every, From, After, HasPathLeft, StandsFor};

use crate::searched::Searched;

/// How a search moves on. At the start every path is still to come. Branches that begin no path may be passed over. The
/// first branch left, if it leads on, is taken; if it ends, the path that ends there is the first that is wanted, and then
/// the later ones are left. Where no branch is left the last frame is taken off; where no frame is left, no path is wanted.
pub fn a_search_moves_on<S: Searched>()
    ensures starts { (start : S.Configuration) → StandsFor S.ways start (λ path. Unit {0}) [] start Every }
    ensures passes_over { AreOrderly S.ways → (start : S.Configuration) (frames : List (Frame S.Configuration S.Branch)) (top : S.Configuration)
        → ((branch : S.Branch) (rest : List S.Branch) → IsPath S.ways top (branch ∷ rest) → S.IsLeft branch ↔ S.IsLeftThen branch)
        → StandsFor S.ways start S.IsWanted frames top S.IsLeft → StandsFor S.ways start S.IsWanted frames top S.IsLeftThen }
    ensures enters { AreOrderly S.ways → (start : S.Configuration) (frames : List (Frame S.Configuration S.Branch)) (top : S.Configuration)
        (branch : S.Branch) (next : S.Configuration) → S.ways.leads top branch next
        → StandsFor S.ways start S.IsWanted frames top (From S.ways.compare branch)
        → StandsFor S.ways start S.IsWanted (frames ++ record { at = top; taken = branch } ∷ []) next Every }
    ensures leaves { AreOrderly S.ways → (start : S.Configuration) (frames : List (Frame S.Configuration S.Branch)) (last : Frame S.Configuration S.Branch)
        (top : S.Configuration)
        → (HasPathLeft S.ways top S.IsLeft → ⊥)
        → StandsFor S.ways start S.IsWanted (frames ++ last ∷ []) top S.IsLeft
        → StandsFor S.ways start S.IsWanted frames last.at (After S.ways.compare last.taken) }
    ensures finds { AreOrderly S.ways → (start : S.Configuration) (frames : List (Frame S.Configuration S.Branch)) (top : S.Configuration)
        (branch : S.Branch) → S.ways.ends top branch → StandsFor S.ways start S.IsWanted frames top (From S.ways.compare branch)
        → IsFirst S.ways start S.IsWanted (taken_in frames ++ branch ∷ []) }
    ensures goes_on { AreOrderly S.ways → (start : S.Configuration) (frames : List (Frame S.Configuration S.Branch)) (top : S.Configuration)
        (branch : S.Branch) → S.ways.ends top branch → StandsFor S.ways start S.IsWanted frames top (From S.ways.compare branch)
        → StandsFor S.ways start (λ path. S.IsWanted path × (slice_cmp S.ways.compare (taken_in frames ++ branch ∷ []) path ≡ Less))
        frames top (After S.ways.compare branch) }
    ensures exhausted { AreOrderly S.ways → (start top : S.Configuration)
        → (HasPathLeft S.ways top S.IsLeft → ⊥)
        → StandsFor S.ways start S.IsWanted [] top S.IsLeft
        → (path : List S.Branch) → IsPath S.ways start path → S.IsWanted path → ⊥ }
{}
