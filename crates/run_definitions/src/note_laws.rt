ghost use Rattle.std.specs.Prelude.{◌≡◌, ◌↔◌, ◌++◌, ℕ, List, codes};
ghost use Rattle.outside.specs.Files.{Files};
ghost use Rattle.lexicon_definitions.specs.Lexicons.{Lexicon};
ghost use Rattle.session_definitions.specs.States.{State};
ghost use Rattle.session_definitions.specs.Requests.{request_of};
ghost use Rattle.session_definitions.specs.Replies.{refused, IsReplyTo};
ghost use Rattle.run_definitions.specs.Arguments.{FileWord};
ghost use Rattle.run_definitions.specs.Ends.{Outcome};
ghost use Rattle.run_definitions.specs.AnnotateOutcomes.{IsBadMark, IsAnnotateOutcome};
ghost use Rattle.run_definitions.specs.RereadOutcomes.{IsRereadOutcome};

/// With one lexicon file, one text of a bookmark and a file to write, `annotate` has one outcome at most over the same files.
pub fn annotate_has_one_outcome()
    ensures { (lex : FileWord) (mark : List ℕ) (out : FileWord) (files : Files) (left right : Outcome)
        → IsAnnotateOutcome lex mark out files left → IsAnnotateOutcome lex mark out files right → left ≡ right }
{}

/// With one lexicon file and one file of a note, `reread` has one outcome at most over the same files.
pub fn reread_has_one_outcome()
    ensures { (lex file : FileWord) (files : Files) (left right : Outcome)
        → IsRereadOutcome lex file files left → IsRereadOutcome lex file files right → left ≡ right }
{}

/// `annotate` refuses a bookmark exactly where a session over the lexicon replies `? bookmark` to `resume` with its text.
pub fn bookmarks_are_refused_as_in_a_session()
    ensures { (lexicon : Lexicon) (state : State) (text : List ℕ) → IsBadMark lexicon text
        ↔ IsReplyTo lexicon state (request_of (codes "resume " ++ text)) (refused state (codes "bookmark")) }
{}
