ghost use Rattle.std.specs.Prelude.{◌≡◌, ℕ, List};
ghost use Rattle.std.specs.Cmp.{IsTotalOrder};
ghost use Rattle.lexicon_definitions.specs.Lexicons.{Lexicon};
ghost use Rattle.segmentation_definitions.specs.Overlaps.{Overlap, compare_overlaps};
ghost use Rattle.strictness.specs.Overlaps.{AreFirstOverlaps};

/// Of a lexicon there is one list at most of the first overlaps, since their order is total.
pub fn the_first_overlaps_are_one_list()
    ensures total { IsTotalOrder compare_overlaps }
    ensures one { (lexicon : Lexicon) (most : ℕ) (left right : List Overlap) → AreFirstOverlaps lexicon most left
        → AreFirstOverlaps lexicon most right → left ≡ right }
{}
