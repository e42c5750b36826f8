ghost use Rattle.std.specs.Prelude.{◌≡◌, ◌≢◌, ◌↔◌, ℕ, Bool, false, IsTrue, List, [], ◌∷◌, ◌++◌, take, drop};
ghost use Rattle.std.specs.List.{flat_map};
ghost use Rattle.text_definitions.specs.Lines.{Line};
ghost use Rattle.lexicon_definitions.specs.Lexicons.{Lexicon};
ghost use Rattle.segmentation_definitions.specs.Derivations.{Step};
ghost use Rattle.segmentation_definitions.specs.Items.{Item, Choice};
ghost use Rattle.segmentation_definitions.specs.Listings.{Cursor, IsListingAbove, IsPage, Page, ArePages, IsSummary};

/// A line with choices has one listing at most, above each cursor.
pub fn one_listing()
    ensures { (lexicon : Lexicon) (line : Line) (choices : List Choice) (cursor : Cursor) (left right : List (List Step))
        → IsListingAbove lexicon line choices cursor left → IsListingAbove lexicon line choices cursor right → left ≡ right }
{}

/// A line with choices has one page of a size at a cursor at most.
pub fn one_page()
    ensures { (lexicon : Lexicon) (line : Line) (choices : List Choice) (cursor : Cursor) (count : ℕ)
        (left right : List (List Step)) (left_more right_more : Bool)
        → IsPage lexicon line choices cursor count left left_more → IsPage lexicon line choices cursor count right right_more
        → (left ≡ right) × (left_more ≡ right_more) }
{}

/// Where the answers above a cursor are listed, a page there is the first count of them (or all, where they are fewer),
/// and more says whether any is left.
pub fn page_is_front_of_listing()
    ensures { (lexicon : Lexicon) (line : Line) (choices : List Choice) (cursor : Cursor) (answers : List (List Step))
        (count : ℕ) (page : List (List Step)) (more : Bool)
        → IsListingAbove lexicon line choices cursor answers
        → IsPage lexicon line choices cursor count page more
        ↔ ((page ≡ take count answers) × (IsTrue more ↔ (drop count answers ≢ []))) }
{}

/// A line with choices has one summary at most.
pub fn one_summary()
    ensures { (lexicon : Lexicon) (line : Line) (choices : List Choice) (left right : List Item)
        → IsSummary lexicon line choices left → IsSummary lexicon line choices right → left ≡ right }
{}

/// Pages that follow one another from a cursor, up to one after which no answer is left, are together the listing above that
/// cursor, whatever their sizes are; from before the first answer they are the whole listing.
pub fn pages_make_the_listing()
    ensures { (lexicon : Lexicon) (line : Line) (choices : List Choice) (cursor : Cursor) (pages : List Page) (last : Page)
        → ArePages lexicon line choices cursor (pages ++ last ∷ []) → last.more ≡ false
        → IsListingAbove lexicon line choices cursor (flat_map (λ page. page.answers) (pages ++ last ∷ [])) }
{}
