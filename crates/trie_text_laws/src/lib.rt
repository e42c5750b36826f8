//! What follows from the definitions of lexicon files of versions 2 and 3; apart, so that a law more proves nothing else again.
//!
//! Proved: the text of a lexicon is read as this lexicon, in whichever version it is written (`the_text_of_a_lexicon_is_read_as_it`).
//! Nothing rests on it, and no crate uses it.
#![tactic(auto)]

ghost use Rattle.std.specs.Prelude.{ℕ, List, Option, Ok};
ghost use Rattle.lexicon_definitions.specs.Lexicons.{Lexicon};
ghost use Rattle.trie_text_definitions.specs.Versions.{Version};
ghost use Rattle.trie_text_definitions.specs.VersionReadings.{IsReadAs};
ghost use Rattle.trie_text_definitions.specs.VersionTexts.{IsTrieText, IsTextIn, IsNewestText};

/// The text of a lexicon is read as this lexicon: that of version 2 and that of version 3, that of any version, and its newest text.
pub fn the_text_of_a_lexicon_is_read_as_it()
    ensures version { (version : Version) (lexicon : Lexicon) (bytes : List ℕ) → IsTrieText version lexicon bytes → IsReadAs bytes (Ok lexicon) }
    ensures any { (version : Option Version) (lexicon : Lexicon) (bytes : List ℕ) → IsTextIn version lexicon bytes → IsReadAs bytes (Ok lexicon) }
    ensures newest { (lexicon : Lexicon) (bytes : List ℕ) → IsNewestText lexicon bytes → IsReadAs bytes (Ok lexicon) }
{}
