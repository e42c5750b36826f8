ghost use Rattle.std.specs.Prelude.{◌≡◌, ◌↔◌, ℕ, List, [], map};
ghost use Rattle.text_definitions.specs.Lines.{Line};
ghost use Rattle.lexicon_definitions.specs.Lexicons.{Lexicon, RuleSet, IsLexicon};
ghost use Rattle.segmentation_definitions.specs.Derivations.{Step};
ghost use Rattle.segmentation_definitions.specs.Items.{Choice};
ghost use Rattle.segmentation_definitions.specs.Answers.{IsAnswer};
ghost use Rattle.segmentation_definitions.specs.Listings.{Key, keys_of, compare_keys, Cursor, IsAbove, IsNext, IsListingAbove};
ghost use Rattle.listing_laws.specs.Ways.{IsPath};
ghost use Rattle.listing_laws.specs.Cursors.{IsAbove as IsPathAbove, IsFirst, IsListingAbove as IsPathListingAbove};
ghost use Rattle.answer_paths.specs.Fronts.{ways_of};
ghost use Rattle.answer_paths.specs.Cursors.{path_cursor};

/// An answer is above a cursor exactly where its keys are above the path there. So the next answer is the one whose keys
/// are the first path above; where no path is above, no answer is; and the listings above a cursor have the same answers.
pub fn cursors_agree()
    ensures above { (rules : RuleSet) (cursor : Cursor) (steps : List Step)
        → IsAbove rules cursor steps ↔ IsPathAbove compare_keys (path_cursor rules cursor) (keys_of rules steps) }
    ensures next { (lexicon : Lexicon) (line : Line) (choices : List Choice) (cursor : Cursor) (path : List Key)
        → IsLexicon lexicon
        → IsFirst (ways_of lexicon line choices) [] (IsPathAbove compare_keys (path_cursor lexicon.rules cursor)) path
        ↔ ((steps : List Step) × IsNext lexicon line choices cursor steps × (keys_of lexicon.rules steps ≡ path)) }
    ensures none { (lexicon : Lexicon) (line : Line) (choices : List Choice) (cursor : Cursor) → IsLexicon lexicon
        → ((path : List Key) → IsPath (ways_of lexicon line choices) [] path
        → IsPathAbove compare_keys (path_cursor lexicon.rules cursor) path → ⊥)
        ↔ ((steps : List Step) → IsAnswer lexicon line choices steps → IsAbove lexicon.rules cursor steps → ⊥) }
    ensures listing { (lexicon : Lexicon) (line : Line) (choices : List Choice) (cursor : Cursor) (paths : List (List Key)) → IsLexicon lexicon
        → IsPathListingAbove (ways_of lexicon line choices) [] (path_cursor lexicon.rules cursor) paths
        ↔ ((answers : List (List Step)) × IsListingAbove lexicon line choices cursor answers × (map (keys_of lexicon.rules) answers ≡ paths)) }
{}
