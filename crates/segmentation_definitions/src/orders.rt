ghost use Rattle.std.specs.Cmp.{IsTotalOrder};
ghost use Rattle.segmentation_definitions.specs.Listings.{compare_items};

/// Items are totally ordered.
pub fn items_are_ordered()
    ensures { IsTotalOrder compare_items }
{}
