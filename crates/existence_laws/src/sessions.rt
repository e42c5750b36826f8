ghost use Rattle.std.specs.Prelude.{ℕ, List};
ghost use Rattle.lexicon_definitions.specs.Lexicons.{Lexicon, IsLexicon};
ghost use Rattle.lexicon_text_definitions.specs.FileLines as file;
ghost use Rattle.session_definitions.specs.States.{State};
ghost use Rattle.session_definitions.specs.Replies.{Reply, IsReply};
ghost use Rattle.session_definitions.specs.Sessions.{End, IsSession};

/// Over a lexicon a session has a reply to each line, in any state.
pub fn a_line_has_a_reply()
    ensures { (lexicon : Lexicon) (state : State) (line : file.Line) → IsLexicon lexicon
        → (reply : Reply) × IsReply lexicon state line reply }
{}

/// Over a lexicon each input has a session: what is written for it, and how it ends.
pub fn an_input_has_a_session()
    ensures { (lexicon : Lexicon) (input : List ℕ) → IsLexicon lexicon
        → (output : List ℕ) × (end : End) × IsSession lexicon input output end }
{}
