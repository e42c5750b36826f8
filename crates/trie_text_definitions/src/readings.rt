ghost use Rattle.std.specs.Prelude.{◌≡◌, ℕ, List, Ok, All, false};
ghost use Rattle.lexicon_definitions.specs.Lexicons.{Lexicon, Form, IsPhase};
ghost use Rattle.lexicon_definitions.specs.Limits.{count_lines};
ghost use Rattle.lexicon_definitions.specs.Tries.{Row, Trie, IsTrie, IsTrieOf};
ghost use Rattle.trie_text_definitions.specs.TrieForms.{phases_of, count_pairs, has_too_many_pairs, has_wrong_delta};
ghost use Rattle.trie_text_definitions.specs.NodeLines.{node_line};
ghost use Rattle.trie_text_definitions.specs.NodeValues.{has_unused};
ghost use Rattle.trie_text_definitions.specs.PrintableRows.{IsPrintable};
ghost use Rattle.trie_text_definitions.specs.Versions.{Version, version_of};
ghost use Rattle.trie_text_definitions.specs.VersionFaults.{FileResult};
ghost use Rattle.trie_text_definitions.specs.VersionReadings.{IsReadAs, HasContent, reading_in};
ghost use Rattle.trie_text_definitions.specs.VersionSteps.{Told, trie_told};
ghost use Rattle.trie_text_definitions.specs.VersionTexts.{HasText, HasTextIn, IsOrderedTrieOf, IsTextIn, IsTrieText, IsNewestText};

/// The bytes of a lexicon file of any version are read in one way at most: as one lexicon, or with one first fault.
pub fn a_file_of_any_version_is_read_in_one_way()
    ensures { (bytes : List ℕ) (left right : FileResult) → IsReadAs bytes left → IsReadAs bytes right → left ≡ right }
{}

/// What the lines of a file of version 2 or 3 tell is a trie: each child has a smaller number than its node, and no two rows are the
/// same.
pub fn tries_that_are_read_are_shared()
    ensures { (version : Version) (bytes : List ℕ) (told : Told) → HasContent (reading_in version bytes) told → IsTrie (trie_told told) }
{}

/// What a file of any version is read as is a lexicon within the limits, with the rules of this version and stems that have a
/// spelling.
pub fn what_is_read_is_a_lexicon()
    ensures { (bytes : List ℕ) (lexicon : Lexicon) → IsReadAs bytes (Ok lexicon) → HasTextIn (version_of bytes) lexicon }
{}

/// Bytes that are read as a lexicon are its text in their version.
pub fn what_is_read_is_a_text_of_its_version()
    ensures { (bytes : List ℕ) (lexicon : Lexicon) → IsReadAs bytes (Ok lexicon) → IsTextIn (version_of bytes) lexicon bytes }
{}

/// A trie of phases tells just these phases: the forms for which its roots stand, with their analyses.
pub fn a_trie_tells_its_phases()
    ensures { (trie : Trie) (phases : List (List Form)) → IsTrieOf trie phases → All IsPhase phases → phases_of trie ≡ phases }
{}

/// A lexicon has one text at most in version 2, one in version 3, and one newest text.
pub fn a_lexicon_has_one_text_in_a_version()
    ensures version { (version : Version) (lexicon : Lexicon) (left right : List ℕ) → IsTrieText version lexicon left → IsTrieText version lexicon right → left ≡ right }
    ensures newest { (lexicon : Lexicon) (left right : List ℕ) → IsNewestText lexicon left → IsNewestText lexicon right → left ≡ right }
{}

/// The trie of a lexicon that has a text passes what is asked of it at the line `end`.
pub fn the_trie_of_a_lexicon_ends_well()
    ensures limit { (version : Version) (lexicon : Lexicon) (trie : Trie) → HasText version lexicon → IsOrderedTrieOf trie lexicon.phases → has_too_many_pairs trie ≡ false }
    ensures unused { (version : Version) (lexicon : Lexicon) (trie : Trie) → HasText version lexicon → IsOrderedTrieOf trie lexicon.phases → has_unused trie ≡ false }
    ensures delta { (version : Version) (lexicon : Lexicon) (trie : Trie) → HasText version lexicon → IsOrderedTrieOf trie lexicon.phases → has_wrong_delta trie ≡ false }
{}

/// The trie of a lexicon that has a text has as many pairs of a form and a delta as the lexicon has lines of forms.
pub fn a_trie_has_as_many_pairs_as_its_phases_have_lines()
    ensures { (version : Version) (lexicon : Lexicon) (trie : Trie) → HasText version lexicon → IsTrieOf trie lexicon.phases → count_pairs trie ≡ count_lines lexicon.phases }
{}

/// Rows with letters and tags are told by their lines.
pub fn a_node_is_told_by_its_line()
    ensures { (left right : Row) → IsPrintable left → IsPrintable right → node_line left ≡ node_line right → left ≡ right }
{}
