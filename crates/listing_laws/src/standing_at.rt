ghost use Rattle.std.specs.Prelude.{◌≡◌, ◌↔◌, ℕ, suc, min, List, [], ◌∷◌, ◌++◌, length};
ghost use Rattle.std.specs.Cmp.Lexicographic.{slice_cmp};
ghost use Rattle.list_laws.specs.Firsts.{AreAll};
ghost use Rattle.listing_laws.specs.Ways.{AreOrderly, IsBranch, IsPath};
ghost use Rattle.listing_laws.specs.Cursors.{Cursor, AtPath, PastLast, IsAbove, IsPast, IsFirst, IsListingAbove};
ghost use Rattle.listing_laws.specs.Stacks.{Frame, taken_in, LeadTo, After, Nothing, IsToCome, StandsFor};

use crate::searched::Searched;

/// Going to a path by its branches: those that are left to go to are a path from the top exactly where all of them are a
/// path from the start. At a branch that ends, the stack after it stands for the paths above the path that ends there. With
/// nothing left it stands for what is past the last path.
pub fn a_path_is_gone_to<S: Searched>()
    ensures rest { AreOrderly S.ways → (start : S.Configuration) (frames : List (Frame S.Configuration S.Branch)) (top : S.Configuration)
        (rest : List S.Branch) → LeadTo S.ways start frames top
        → IsPath S.ways start (taken_in frames ++ rest) ↔ IsPath S.ways top rest }
    ensures at_path { AreOrderly S.ways → (start : S.Configuration) (frames : List (Frame S.Configuration S.Branch)) (top : S.Configuration)
        (last : S.Branch) → LeadTo S.ways start frames top → S.ways.ends top last
        → StandsFor S.ways start (IsAbove S.ways.compare (AtPath (taken_in frames ++ last ∷ []))) frames top (After S.ways.compare last) }
    ensures past_last { (start : S.Configuration) → StandsFor S.ways start (IsAbove S.ways.compare PastLast) [] start Nothing }
{}

/// Where a search stands at a path and all frames past a depth are dropped, the stack stands for the paths above it that
/// have other first branches, as many as the depth; a shorter path counts whole.
pub fn first_branches_are_skipped<S: Searched>()
    ensures { AreOrderly S.ways → (start : S.Configuration) (frames : List (Frame S.Configuration S.Branch)) (at : S.Configuration)
        (last : S.Branch) (rest here : List S.Branch) (depth : ℕ) → LeadTo S.ways start frames at → IsBranch S.ways at last
        → IsPath S.ways start here → here ≡ taken_in frames ++ last ∷ rest → suc (length frames) ≡ min depth (length here)
        → StandsFor S.ways start (IsPast S.ways.compare depth here) frames at (After S.ways.compare last) }
{}

/// What is to come on a stack that stands for a cursor is the listing above it. The first path above a cursor and the
/// listing above that path are together the listing above the cursor; where no path is above, that listing is empty.
pub fn what_is_to_come_is_the_listing<S: Searched>()
    ensures listing { (start : S.Configuration) (cursor : Cursor S.Branch) (frames : List (Frame S.Configuration S.Branch))
        (top : S.Configuration) (paths : List (List S.Branch))
        → StandsFor S.ways start (IsAbove S.ways.compare cursor) frames top S.IsLeft
        → AreAll (slice_cmp S.ways.compare)
        (λ path. IsPath S.ways start path × IsToCome S.ways.compare (taken_in frames) S.IsLeft path) paths
        → IsListingAbove S.ways start cursor paths }
    ensures goes_on { AreOrderly S.ways → (start : S.Configuration) (cursor : Cursor S.Branch) (path : List S.Branch)
        (rest : List (List S.Branch)) → IsFirst S.ways start (IsAbove S.ways.compare cursor) path
        → IsListingAbove S.ways start (AtPath path) rest → IsListingAbove S.ways start cursor (path ∷ rest) }
    ensures ends { (start : S.Configuration) (cursor : Cursor S.Branch)
        → ((path : List S.Branch) → IsPath S.ways start path → IsAbove S.ways.compare cursor path → ⊥)
        → IsListingAbove S.ways start cursor [] }
{}
