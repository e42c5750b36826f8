ghost use Rattle.std.specs.Prelude.{◌≡◌, Some, [], ◌∷◌, codes};
ghost use Rattle.lexicon_text_definitions.specs.FileReadings.{reading_of};
ghost use Rattle.lexicon_text_definitions.specs.LexiconTexts.{text_of_lines};
ghost use Rattle.trie_text_definitions.specs.Versions.{Second, Third};
ghost use Rattle.trie_text_definitions.specs.VersionFaults.{Field, Child, Twice, Falling, Unused, Delta, Unlimited};
ghost use Rattle.trie_text_definitions.specs.WorkedFiles.{lexicon_in, first_lexicon_in, written_again, fault_in, with_line_as, read_in, small_lines, small_trie_lines, small_lexicon, inflected_lines, inflected_trie_lines, limited_lines, limited_lexicon};

/// A small file of version 2 is read as the lexicon of its file of version 1, and written again as itself.
pub fn a_small_trie_is_read()
    ensures trie { lexicon_in (read_in Second small_trie_lines) ≡ Some small_lexicon }
    ensures forms { first_lexicon_in (reading_of (text_of_lines small_lines)) ≡ Some small_lexicon }
    ensures written { written_again Second (read_in Second small_trie_lines) ≡ Some (text_of_lines small_trie_lines) }
{}

/// So is a file with two phases, one of which has a form whose stem is another word.
pub fn an_inflected_trie_is_read()
    ensures same { lexicon_in (read_in Second inflected_trie_lines) ≡ first_lexicon_in (reading_of (text_of_lines inflected_lines)) }
    ensures written { written_again Second (read_in Second inflected_trie_lines) ≡ Some (text_of_lines inflected_trie_lines) }
{}

/// Lines of a small file of version 2 are refused for each reason that is its own.
pub fn lines_of_a_small_trie_are_refused()
    ensures twice { fault_in (read_in Second (with_line_as small_trie_lines 6 (codes "node - a=0" ∷ codes "node - a=0" ∷ []))) ≡ Some (7, Twice) }
    ensures falling { fault_in (read_in Second (with_line_as (with_line_as small_trie_lines 6 (codes "node - i=0" ∷ [])) 7 (codes "node - a=0" ∷ []))) ≡ Some (7, Falling) }
    ensures unused { fault_in (read_in Second (with_line_as small_trie_lines 9 (codes "node - i=3" ∷ []))) ≡ Some (11, Unused) }
    ensures delta { fault_in (read_in Second (with_line_as small_trie_lines 5 (codes "node 1:a:ind -" ∷ []))) ≡ Some (11, Delta) }
    ensures child { fault_in (read_in Second (with_line_as small_trie_lines 6 (codes "node - a=1" ∷ []))) ≡ Some (6, Child) }
    ensures two_signs { fault_in (read_in Second (with_line_as small_trie_lines 6 (codes "node - a==0" ∷ []))) ≡ Some (6, Field) }
    ensures leading_zero { fault_in (read_in Second (with_line_as small_trie_lines 10 (codes "root word 04" ∷ []))) ≡ Some (10, Field) }
{}

/// A small file of version 3 is read with its limited rules, and written again as itself; without them it is refused, and so is a
/// line whose phases do not rise.
pub fn limited_rules_are_read()
    ensures lexicon { lexicon_in (read_in Third limited_lines) ≡ Some limited_lexicon }
    ensures written { written_again Third (read_in Third limited_lines) ≡ Some (text_of_lines limited_lines) }
    ensures unlimited { fault_in (read_in Third (with_line_as (with_line_as limited_lines 6 (codes "rule a|i>e * *" ∷ [])) 7 (codes "rule A|i>e * *" ∷ []))) ≡ Some (17, Unlimited) }
    ensures falling_phases { fault_in (read_in Third (with_line_as limited_lines 6 (codes "rule a|i>e p q,p" ∷ []))) ≡ Some (6, Field) }
{}
