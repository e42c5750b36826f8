ghost use Rattle.std.specs.Prelude.{◌≡◌, ℕ, List, ◌++◌};
ghost use Rattle.lexicon_definitions.specs.Lexicons.{Lexicon};
ghost use Rattle.lexicon_text_definitions.specs.FileLines.{Line};
ghost use Rattle.session_definitions.specs.States.{State};
ghost use Rattle.session_definitions.specs.Replies.{After, Reply, IsReply};
ghost use Rattle.session_definitions.specs.Sessions.{End, IsWrittenAfter, AreReplies, IsSession};

/// A line has one reply at most, which says how the session goes on.
pub fn a_line_has_one_reply()
    ensures { (lexicon : Lexicon) (state : State) (line : Line) (left right : Reply)
        → IsReply lexicon state line left → IsReply lexicon state line right → left ≡ right }
{}

/// From one state, lines have one list of replies at most, after which the session stands in one way.
pub fn lines_have_one_list_of_replies()
    ensures { (lexicon : Lexicon) (state : State) (lines : List Line) (left right : List ℕ) (left_after right_after : After)
        → AreReplies lexicon state lines left left_after → AreReplies lexicon state lines right right_after
        → (left ≡ right) × (left_after ≡ right_after) }
{}

/// An input has one session at most over a lexicon: one output, and one end.
pub fn an_input_has_one_session()
    ensures { (lexicon : Lexicon) (input left right : List ℕ) (left_end right_end : End)
        → IsSession lexicon input left left_end → IsSession lexicon input right right_end
        → (left ≡ right) × (left_end ≡ right_end) }
{}

/// What is replied to some first lines begins what is written for all of them, and the rest is what is written for the others
/// from there on. Replies to some lines, and then what is written for others from there on, are together what is written for
/// all of them.
pub fn first_replies_begin_all_replies()
    ensures begun { (lexicon : Lexicon) (lines others : List Line) (state : State) (front whole : List ℕ)
        → (front_after after : After) → AreReplies lexicon state lines front front_after → AreReplies lexicon state (lines ++ others) whole after
        → (tail : List ℕ) × (whole ≡ front ++ tail)
        × IsWrittenAfter front_after (λ next rest last. AreReplies lexicon next others rest last) tail after }
    ensures joined { (lexicon : Lexicon) (lines others : List Line) (state : State) (front tail : List ℕ)
        → (front_after after : After) → AreReplies lexicon state lines front front_after
        → IsWrittenAfter front_after (λ next rest last. AreReplies lexicon next others rest last) tail after
        → AreReplies lexicon state (lines ++ others) (front ++ tail) after }
{}
