ghost use Rattle.std.specs.Prelude.{◌≡◌, ◌↔◌, ℕ, List, Contains};
ghost use Rattle.std.specs.List.Sorted.{IsStrictlyIncreasing};

/// Two strictly rising lists of numbers with the same elements are the same list.
pub fn a_rising_list_is_told_by_its_elements()
    ensures { (left right : List ℕ) → IsStrictlyIncreasing left → IsStrictlyIncreasing right
        → ((n : ℕ) → Contains left n ↔ Contains right n) → left ≡ right }
{}
