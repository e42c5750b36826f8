ghost use Rattle.std.specs.Prelude.{ℕ, ◌≤◌, List, length, All};
ghost use Rattle.std.specs.List.Sorted.{IsStrictlySortedBy};
ghost use Rattle.text_definitions.specs.Lines.{Line};
ghost use Rattle.lexicon_definitions.specs.Lexicons.{Lexicon, IsLexicon};
ghost use Rattle.segmentation_definitions.specs.Derivations.{Step};
ghost use Rattle.segmentation_definitions.specs.Items.{Choice};
ghost use Rattle.segmentation_definitions.specs.Answers.{IsAnswer};
ghost use Rattle.segmentation_definitions.specs.Listings.{compare_answers};
ghost use Rattle.segmentation_definitions.specs.StepBounds.{answer_bound};

/// A line has finitely many answers: a strictly rising list of them, as a listing is, is no longer than a bound in the
/// line's letters and the lexicon's phases and rules. The bound is not tight.
pub fn answers_are_finitely_many()
    ensures bound { (lexicon : Lexicon) (line : Line) (choices : List Choice) (answers : List (List Step)) → IsLexicon lexicon
        → IsStrictlySortedBy (compare_answers lexicon.rules) answers → All (IsAnswer lexicon line choices) answers
        → length answers ≤ answer_bound lexicon (length line.letters) }
{}
