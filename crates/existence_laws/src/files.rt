ghost use Rattle.std.specs.Prelude.{◌≡◌, ◌≤◌, ◌⊎◌, ℕ, List, Option, Ok, All, length};
ghost use Rattle.lexicon_definitions.specs.GrammarFaults.{Fault, IsFirstFault, IsGrammarTextWithinLimits};
ghost use Rattle.lexicon_definitions.specs.Lexicons.{RuleSet, Lexicon, Form, IsPhase};
ghost use Rattle.lexicon_definitions.specs.declared.limits.TheConstants.{MOST_FORM_LINES, MOST_PHASES};
ghost use Rattle.lexicon_definitions.specs.Limits.{IsShortForm, count_lines};
ghost use Rattle.lexicon_definitions.specs.Tries.{Trie};
ghost use Rattle.trie_text_definitions.specs.Versions.{Version};
ghost use Rattle.trie_text_definitions.specs.VersionFaults.{FileResult};
ghost use Rattle.trie_text_definitions.specs.VersionReadings.{IsReadAs};
ghost use Rattle.trie_text_definitions.specs.VersionTexts.{HasTextIn, IsNewestText, IsOrderedTrieOf};
ghost use Rattle.morphology_definitions.specs.Inflection.{Class, Stem};
ghost use Rattle.paradigm_file_definitions.specs.StemFiles.{stems_of};
ghost use Rattle.paradigm_file_definitions.specs.TableFiles.{tables_of};
ghost use Rattle.rule_file_definitions.specs.RuleFileReadings as rule_file;
ghost use Rattle.run_definitions.specs.SourceLexicons.{IsLexiconOf};

/// A text is a grammar text within the limits over these names of phases, or it has a first fault. Whether a grammar has too many
/// states is decided with it.
pub fn a_grammar_text_is_within_the_limits_or_has_a_fault()
    ensures { (names : List (List ℕ)) (text : List ℕ)
        → IsGrammarTextWithinLimits names text ⊎ ((fault : Fault) × IsFirstFault names text fault) }
{}

/// Any bytes are read as a lexicon, or have a first fault as a lexicon file of some version.
pub fn a_lexicon_file_is_read()
    ensures { (bytes : List ℕ) → (result : FileResult) × IsReadAs bytes result }
{}

/// Phases of a lexicon within the limits have an ordered trie, as lexicon files of versions 2 and 3 tell it.
pub fn phases_have_an_ordered_trie()
    ensures { (phases : List (List Form)) → All IsPhase phases → All (λ forms. All IsShortForm forms) phases → length phases ≤ MOST_PHASES
        → count_lines phases ≤ MOST_FORM_LINES → (trie : Trie) × IsOrderedTrieOf trie phases }
{}

/// A lexicon that has a text of some version has a newest text.
pub fn a_lexicon_with_a_text_has_a_newest_text()
    ensures { (version : Option Version) (lexicon : Lexicon) → HasTextIn version lexicon → (bytes : List ℕ) × IsNewestText lexicon bytes }
{}

/// Any bytes are read as a rule set, or have a first fault as a rule file.
pub fn a_rule_file_is_read()
    ensures { (bytes : List ℕ) → (result : rule_file.FileResult) × rule_file.IsReadAs bytes result }
{}

/// What is read of a rule file, a table file and a stem file has a lexicon.
pub fn sources_have_a_lexicon()
    ensures { (rule_bytes table_bytes stem_bytes : List ℕ) (rules : RuleSet) (classes : List Class) (stems : List Stem)
        → rule_file.IsReadAs rule_bytes (Ok rules) → tables_of rules.names table_bytes ≡ Ok classes
        → stems_of classes stem_bytes ≡ Ok stems → (lexicon : Lexicon) × IsLexiconOf rules classes stems lexicon }
{}
