ghost use Rattle.std.specs.Prelude.{◌≡◌, ◌++◌, ◌∷◌, [], ℕ, Option, Some, List, All, false};
ghost use Rattle.std.specs.List.{flat_map};
ghost use Rattle.text_definitions.specs.Lines.{Line};
ghost use Rattle.lexicon_definitions.specs.Lexicons.{Lexicon};
ghost use Rattle.lexicon_text_definitions.specs.FileLines as file;
ghost use Rattle.segmentation_definitions.specs.Derivations.{Step};
ghost use Rattle.segmentation_definitions.specs.Listings.{Cursor, BeforeFirst, Page, ArePages, IsListingAbove, IsListing};
ghost use Rattle.bookmark_definitions.specs.Bookmarks.{Bookmark};
ghost use Rattle.session_definitions.specs.SessionLines.{lines_of_input};
ghost use Rattle.session_definitions.specs.States.{State, opening, after_resume};
ghost use Rattle.session_definitions.specs.Requests.{Summary, Tags, Mark};
ghost use Rattle.session_definitions.specs.Replies.{Open, Reply, refused, IsReplyTo, IsCursorOfBookmark};
ghost use Rattle.session_definitions.specs.Sessions.{End, AreReplies, IsSession};
ghost use Rattle.session_definitions.specs.PageReplies.{KeepsPlace, ArePageReplies};
ghost use Rattle.session_definitions.specs.PrintedPages.{IsBetweenChanges, PrintsPages};

/// For one line and one list of choices, the pages from nothing printed up to `end` are together the listing, wherever they were
/// cut; those from a later cursor on are what lies above it; and after a bookmark was resumed they are what lies above its
/// last answer.
pub fn pages_to_the_end_are_the_listing()
    ensures whole { (lexicon : Lexicon) (line : Line) (state : State) (answers : List (List Step)) → state.cursor ≡ BeforeFirst
        → ArePageReplies lexicon line state answers → IsListing lexicon line state.choices answers }
    ensures above { (lexicon : Lexicon) (line : Line) (state : State) (answers : List (List Step))
        → ArePageReplies lexicon line state answers → IsListingAbove lexicon line state.choices state.cursor answers }
    ensures resumed { (lexicon : Lexicon) (mark : Bookmark) (cursor : Cursor) (answers : List (List Step))
        → IsCursorOfBookmark lexicon mark cursor → ArePageReplies lexicon mark.line (after_resume mark cursor) answers
        → IsListingAbove lexicon mark.line mark.choices cursor answers }
    ensures one { (lexicon : Lexicon) (line : Line) (state other : State) (left right : List (List Step))
        → other.choices ≡ state.choices → other.cursor ≡ state.cursor → ArePageReplies lexicon line state left
        → ArePageReplies lexicon line other right → left ≡ right }
{}

/// The replies to `summary`, `tags` and `mark`, and each refusal, keep the place, so they may stand between two pages.
pub fn requests_between_pages_keep_the_place()
    ensures summary { (lexicon : Lexicon) (state : State) (reply : Reply)
        → IsReplyTo lexicon state Summary reply → KeepsPlace state reply }
    ensures tags { (lexicon : Lexicon) (state : State) (number : Option ℕ) (reply : Reply)
        → IsReplyTo lexicon state (Tags number) reply → KeepsPlace state reply }
    ensures mark { (lexicon : Lexicon) (state : State) (reply : Reply)
        → IsReplyTo lexicon state Mark reply → KeepsPlace state reply }
    ensures refusal { (state : State) (why : List ℕ) (reply : Reply) → reply ≡ refused state why → KeepsPlace state reply }
{}

/// Between two changes of its line or its choices a session prints pages that follow one another, and beside them only replies that
/// keep the place. So from before the first answer on, up to a page that ends with `end`, its pages are together the listing.
pub fn a_session_prints_the_listing()
    ensures session { (lexicon : Lexicon) (input output : List ℕ) (end : End) (before between following : List file.Line) (front : List ℕ)
        (state : State) (line : Line) → IsSession lexicon input output end → lines_of_input input ≡ before ++ (between ++ following)
        → AreReplies lexicon opening before front (Open state) → state.line ≡ Some line → All IsBetweenChanges between
        → (printed : List ℕ) × (rest : List ℕ) × (pages : List Page) × (output ≡ front ++ (printed ++ rest))
        × PrintsPages lexicon line state printed pages }
    ensures pages { (lexicon : Lexicon) (line : Line) (state : State) (output : List ℕ) (pages : List Page)
        → PrintsPages lexicon line state output pages → ArePages lexicon line state.choices state.cursor pages }
    ensures listing { (lexicon : Lexicon) (line : Line) (state : State) (output : List ℕ) (pages : List Page) (last : Page)
        → state.cursor ≡ BeforeFirst → PrintsPages lexicon line state output (pages ++ last ∷ []) → last.more ≡ false
        → IsListing lexicon line state.choices (flat_map (λ page. page.answers) (pages ++ last ∷ [])) }
{}
