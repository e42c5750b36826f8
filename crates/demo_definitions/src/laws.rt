ghost use Rattle.std.specs.Prelude.{◌≡◌, ◌<◌, ◌≤◌, ℕ, List, Ok, Contains, length};
ghost use Rattle.text_definitions.specs.Schemes.{Slp1};
ghost use Rattle.text_definitions.specs.LineTexts.{line_of_text};
ghost use Rattle.lexicon_definitions.specs.FormEntries.{Entry, HasEntry};
ghost use Rattle.lexicon_definitions.specs.Lexicons.{Lexicon, IsLexicon};
ghost use Rattle.lexicon_definitions.specs.Limits.{count_lines};
ghost use Rattle.morphology_definitions.specs.InternalSandhi.{IsJoined};
ghost use Rattle.morphology_definitions.specs.Inflection.{Row, Stem, rows_of, front_of, AreAllInflected};
ghost use Rattle.rule_file_definitions.specs.RuleFileReadings.{IsReadAs};
ghost use Rattle.paradigm_file_definitions.specs.TableFiles.{tables_of};
ghost use Rattle.paradigm_file_definitions.specs.StemFiles.{stems_of};
ghost use Rattle.demo_definitions.specs.DrawnStems.{stems_of_number};
ghost use Rattle.demo_definitions.specs.DrawnTexts.{word_drawn, text_of_number};
ghost use Rattle.demo_definitions.specs.SourceTexts.{demo_rules, demo_tables, demo_stems};
ghost use Rattle.demo_definitions.specs.SourceContents.{demo_rule_set, demo_classes, letters_spelled, stems_spelled, line_spelled};

/// The rule file and the table file have no fault: they are read as the rule set and the classes.
pub fn the_sources_are_read()
    ensures rules { IsReadAs demo_rules (Ok demo_rule_set) }
    ensures tables { tables_of demo_rule_set.names demo_tables ≡ Ok demo_classes }
{}

/// The stem file of each number has no fault: it is read as the stems that were drawn, of which there is one at least. It is short.
pub fn the_stems_are_read()
    ensures stems { (number : ℕ) → stems_of demo_classes (demo_stems number) ≡ Ok (stems_spelled number) }
    ensures some { (number : ℕ) → 0 < length (stems_spelled number) }
    ensures short { (number : ℕ) → length (demo_stems number) ≤ 9000 }
{}

/// A lexicon whose entries are among those of the stems of a number has few lines of forms, and so is within the limits.
pub fn the_lexicon_is_small()
    ensures { (number : ℕ) (lexicon : Lexicon) (entries : List Entry) → IsLexicon lexicon
        → AreAllInflected demo_classes (stems_spelled number) entries
        → ((entry : Entry) → HasEntry lexicon.phases entry → Contains entries entry) → count_lines lexicon.phases ≤ 5000 }
{}

/// Each word that is drawn for a text is a form: it is joined of a stem of the number and the ending of a row of the class.
pub fn drawn_words_are_forms()
    ensures { (number seed : ℕ) → (row : Row) × (stem : Stem) × Contains (rows_of demo_classes 0) row × Contains (stems_spelled number) stem
        × IsJoined (front_of row stem.letters) row.ending (letters_spelled (word_drawn (stems_of_number number) seed)) }
{}

/// The text of each number has no fault: it is read as a line. It is short.
pub fn the_text_is_read()
    ensures line { (number : ℕ) → line_of_text Slp1 (text_of_number number) ≡ Ok (line_spelled number) }
    ensures short { (number : ℕ) → length (text_of_number number) ≤ 270 }
{}
