ghost use Rattle.std.specs.Prelude.{◌≡◌, ℕ, ◌*◌, List, [], length};
ghost use Rattle.text_definitions.specs.Lines.{Line};
ghost use Rattle.lexicon_definitions.specs.Lexicons.{Lexicon, RuleSet, IsLexicon};
ghost use Rattle.segmentation_definitions.specs.Items.{Choice};
ghost use Rattle.listing_laws.specs.Ways.{AreOrderly, AreRanked};
ghost use Rattle.answer_paths.specs.Fronts.{ways_of, rank};

/// The ways to the answers are orderly, and each key leads to a front of higher rank, up to twice the number of the line's
/// letters. The empty front has the rank 1.
pub fn ways_are_orderly()
    ensures orderly { (lexicon : Lexicon) (line : Line) (choices : List Choice) → AreOrderly (ways_of lexicon line choices) }
    ensures ranked { (lexicon : Lexicon) (line : Line) (choices : List Choice) → IsLexicon lexicon
        → AreRanked (ways_of lexicon line choices) (rank lexicon.rules) (2 * length line.letters) }
    ensures start { (rules : RuleSet) → rank rules [] ≡ 1 }
{}
