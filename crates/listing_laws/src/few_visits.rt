ghost use Rattle.std.specs.Prelude.{◌≡◌, ◌⊎◌, ℕ, ◌+◌, ◌*◌, ◌≤◌, Bool, false, List, length};
ghost use Rattle.listing_laws.specs.Ways.{AreRanked, HasPath};
ghost use Rattle.listing_laws.specs.Stacks.{Frame, LeadTo};
ghost use Rattle.listing_laws.specs.Visits.{Visit, AreVisits, visits_left};

use crate::searched::Searched;

/// A stack has no more frames than there are ranks. Where a configuration has a path, one of its branches ends or leads to
/// one that has a path; so a move that enters only such configurations leaves frames first and then enters some, and visits
/// at most twice as many as the bound.
pub fn a_move_visits_few_frames<S: Searched>()
    ensures frames { (rank : S.Configuration → ℕ) (bound : ℕ) → AreRanked S.ways rank bound
        → (start : S.Configuration) (frames : List (Frame S.Configuration S.Branch)) (top : S.Configuration)
        → rank start ≤ bound → LeadTo S.ways start frames top → length frames + rank start ≤ bound }
    ensures onward { (at : S.Configuration) → HasPath S.ways at → (branch : S.Branch)
        × (S.ways.ends at branch ⊎ ((next : S.Configuration) × S.ways.leads at branch next × HasPath S.ways next)) }
    ensures left { (bound : ℕ) (has_entered : Bool) (frames : ℕ) (visits : List Visit) → frames ≤ bound
        → AreVisits bound has_entered frames visits → length visits ≤ visits_left bound has_entered frames }
    ensures all { (bound frames : ℕ) (visits : List Visit) → frames ≤ bound → AreVisits bound false frames visits
        → length visits ≤ 2 * bound }
{}
