ghost use Rattle.std.specs.Prelude.{ℕ, Bool, List};
ghost use Rattle.text_definitions.specs.Lines.{Line};
ghost use Rattle.lexicon_definitions.specs.Lexicons.{Lexicon, IsLexicon};
ghost use Rattle.segmentation_definitions.specs.Derivations.{Step};
ghost use Rattle.segmentation_definitions.specs.Items.{Item, Choice};
ghost use Rattle.segmentation_definitions.specs.Listings.{Cursor, IsListingAbove, IsPage, IsSummary};

/// Over a lexicon a line with choices has a listing above each cursor; before the first answer it is the whole listing.
pub fn a_line_has_a_listing()
    ensures { (lexicon : Lexicon) (line : Line) (choices : List Choice) (cursor : Cursor) → IsLexicon lexicon
        → (answers : List (List Step)) × IsListingAbove lexicon line choices cursor answers }
{}

/// Over a lexicon a line with choices has a page of each size at each cursor.
pub fn a_line_has_a_page()
    ensures { (lexicon : Lexicon) (line : Line) (choices : List Choice) (cursor : Cursor) (count : ℕ) → IsLexicon lexicon
        → (answers : List (List Step)) × (more : Bool) × IsPage lexicon line choices cursor count answers more }
{}

/// Over a lexicon a line with choices has a summary.
pub fn a_line_has_a_summary()
    ensures { (lexicon : Lexicon) (line : Line) (choices : List Choice) → IsLexicon lexicon
        → (items : List Item) × IsSummary lexicon line choices items }
{}
