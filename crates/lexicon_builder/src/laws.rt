ghost use Rattle.std.specs.Prelude.{◌≡◌, ℕ, List, Ok};
ghost use Rattle.lexicon_definitions.specs.Lexicons.{RuleSet};
ghost use Rattle.morphology_definitions.specs.Inflection.{Class, Stem};
ghost use Rattle.rule_file_definitions.specs.RuleFileReadings.{IsReadAs};
ghost use Rattle.paradigm_file_definitions.specs.TableFiles.{tables_of};
ghost use Rattle.paradigm_file_definitions.specs.StemFiles.{stems_of};
ghost use Rattle.lexicon_builder.specs.Sources.{AreSources};

/// What is read of a rule file, of a table file over its phases and of a stem file over its classes are sources of a lexicon.
pub fn what_is_read_are_sources()
    ensures { (rule_bytes table_bytes stem_bytes : List ℕ) (rules : RuleSet) (classes : List Class) (stems : List Stem)
        → IsReadAs rule_bytes (Ok rules)
        → tables_of rules.names table_bytes ≡ Ok classes
        → stems_of classes stem_bytes ≡ Ok stems
        → AreSources rules classes stems }
{}
