ghost use Rattle.std.specs.Prelude.{ℕ, List, Option};
ghost use Rattle.outside.specs.Told.{GrowsByPrefix};
ghost use Rattle.lexicon_definitions.specs.Lexicons.{Lexicon};
ghost use Rattle.session_definitions.specs.Sessions.{End, IsSession};
ghost use Rattle.reader_session.specs.Served.{WroteFront};

/// Wherever serving stopped, what was written is a prefix of what the session of the input writes.
pub fn what_was_written_begins_the_session()
    ensures { (lexicon : Lexicon) (input output : List ℕ) (end : End) (old new : Option (List ℕ))
        → IsSession lexicon input output end → WroteFront lexicon input old new → GrowsByPrefix old new output }
{}
