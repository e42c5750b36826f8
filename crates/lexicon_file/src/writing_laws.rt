ghost use Rattle.std.specs.Prelude.{Option};
ghost use Rattle.lexicon_definitions.specs.Lexicons.{Lexicon};
ghost use Rattle.trie_text_definitions.specs.Versions.{Version};
ghost use Rattle.trie_text_definitions.specs.VersionTexts.{HasTextIn};
ghost use Rattle.lexicon_file.specs.Writing.{HasNewestText};

/// A lexicon that has a text of some version has a newest text.
pub fn what_has_a_text_has_a_newest_text()
    ensures { (version : Option Version) (lexicon : Lexicon) → HasTextIn version lexicon → HasNewestText lexicon }
{}
