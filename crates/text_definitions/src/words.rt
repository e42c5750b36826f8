ghost use Rattle.std.specs.Cmp.{IsTotalOrder};
ghost use Rattle.text_definitions.specs.Words.{compare_words};

/// Words are totally ordered by their letters' codes.
pub fn words_are_ordered()
    ensures { IsTotalOrder compare_words }
{}
