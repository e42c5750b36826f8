ghost use Rattle.std.specs.Prelude.{◌≡◌, ◌↔◌, Some, None};
ghost use Rattle.text_definitions.specs.Lines.{Line};
ghost use Rattle.lexicon_definitions.specs.Lexicons.{Lexicon, IsLexicon};
ghost use Rattle.lexicon_definitions.specs.Limits.{IsWithinLimits};
ghost use Rattle.segmentation_definitions.specs.Listings.{PastLast};
ghost use Rattle.bookmark_definitions.specs.Bookmarks.{IsBookmark};
ghost use Rattle.bookmark_definitions.specs.BookmarkTexts.{text_of_bookmark};
ghost use Rattle.bookmark_definitions.specs.BookmarkReadings.{bookmark_of_text};
ghost use Rattle.session_definitions.specs.States.{State, bookmark_at};
ghost use Rattle.session_definitions.specs.Requests.{Resume};
ghost use Rattle.session_definitions.specs.Replies.{Reply, agreed, IsReplyTo};
ghost use Rattle.session_definitions.specs.ReachedStates.{IsReached};

/// No state that a session reaches is past the last answer of its line.
pub fn no_state_is_past_the_last()
    ensures { (lexicon : Lexicon) (state : State) → IsReached lexicon state → state.cursor ≡ PastLast → ⊥ }
{}

/// What `mark` prints in a state that a session over a lexicon reaches is the text of a bookmark within the bounds, and is read back
/// as it. Asked to resume it, in any session over the lexicon, the reply is that the session goes on in this state, without its summary.
pub fn a_mark_resumes_its_state()
    ensures bounds { (lexicon : Lexicon) (state : State) (line : Line) → IsLexicon lexicon → IsWithinLimits lexicon
        → IsReached lexicon state → state.line ≡ Some line → IsBookmark (bookmark_at lexicon.rules state line) }
    ensures read_back { (lexicon : Lexicon) (state : State) (line : Line) → IsLexicon lexicon → IsWithinLimits lexicon
        → IsReached lexicon state → state.line ≡ Some line
        → bookmark_of_text (text_of_bookmark (bookmark_at lexicon.rules state line)) ≡ Some (bookmark_at lexicon.rules state line) }
    ensures resumed { (lexicon : Lexicon) (state : State) (line : Line) → IsLexicon lexicon → IsWithinLimits lexicon
        → IsReached lexicon state → state.line ≡ Some line → (other : State) (reply : Reply)
        → IsReplyTo lexicon other (Resume (Some (bookmark_at lexicon.rules state line))) reply
        ↔ (reply ≡ agreed (record state { summary = None })) }
{}
