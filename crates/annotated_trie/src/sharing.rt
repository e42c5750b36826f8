ghost use denote.Param.Send.{IsSync};
ghost use Rattle.annotated_trie.specs.contracts.lexicon.Lexicon as Lexicon;

/// A lexicon may be shared among threads.
pub fn lexicons_are_shared()
    ensures { IsSync Lexicon.the_row }
{}
