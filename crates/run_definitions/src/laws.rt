ghost use Rattle.std.specs.Prelude.{◌≡◌, ◌++◌, ℕ, List, Option};
ghost use Rattle.outside.specs.Files.{Files};
ghost use Rattle.text_definitions.specs.Schemes.{Scheme};
ghost use Rattle.lexicon_definitions.specs.Lexicons.{Lexicon, RuleSet};
ghost use Rattle.morphology_definitions.specs.Inflection.{Class, Stem};
ghost use Rattle.run_definitions.specs.Commands.{Command, FileWord, AreWordsOf};
ghost use Rattle.run_definitions.specs.CheckOutcomes.{IsCheckOutcome};
ghost use Rattle.run_definitions.specs.BuildOutcomes.{IsBuildOutcome};
ghost use Rattle.run_definitions.specs.DemoOutcomes.{IsDemoOutcome};
ghost use Rattle.run_definitions.specs.SourceLexicons.{IsLexiconOf};
ghost use Rattle.run_definitions.specs.Outcomes.{Outcome, IsOutcome, IsSoFar};
ghost use Rattle.run_definitions.specs.ReadOutcomes.{IsReadOutcome};
ghost use Rattle.run_definitions.specs.BatchOutcomes.{IsBatchOutcome};
ghost use Rattle.conversion_definitions.specs.AnySchemes.{AnyScheme};
ghost use Rattle.run_definitions.specs.ConvertOutcomes.{IsConvertOutcome};
ghost use Rattle.run_definitions.specs.JoinOutcomes.{IsJoinOutcome};
ghost use Rattle.run_definitions.specs.SplitOutcomes.{IsSplitOutcome};
ghost use Rattle.run_definitions.specs.SegmentOutcomes.{IsSegmentOutcome};
ghost use Rattle.run_definitions.specs.MigrateOutcomes.{IsMigrateOutcome};

/// Words are those of one command at most.
pub fn words_are_of_one_command()
    ensures { (words : List (List ℕ)) (left right : Command) → AreWordsOf left words → AreWordsOf right words → left ≡ right }
{}

/// With one file and one text in one scheme, `segment` has one outcome at most over the same files.
pub fn segment_has_one_outcome()
    ensures { (lex : FileWord) (scheme : Scheme) (text : List ℕ) (files : Files) (left right : Outcome)
        → IsSegmentOutcome lex scheme text files left → IsSegmentOutcome lex scheme text files right → left ≡ right }
{}

/// With one file, `check` has one outcome at most over the same files.
pub fn check_has_one_outcome()
    ensures { (lex : FileWord) (files : Files) (left right : Outcome)
        → IsCheckOutcome lex files left → IsCheckOutcome lex files right → left ≡ right }
{}

/// A rule set, classes and stems have one lexicon at most.
pub fn sources_have_one_lexicon()
    ensures { (rules : RuleSet) (classes : List Class) (stems : List Stem) (left right : Lexicon)
        → IsLexiconOf rules classes stems left → IsLexiconOf rules classes stems right → left ≡ right }
{}

/// With three source files and a file to write, `build` has one outcome at most over the same files.
pub fn build_has_one_outcome()
    ensures { (rules tables stems out : FileWord) (files : Files) (left right : Outcome)
        → IsBuildOutcome rules tables stems out files left → IsBuildOutcome rules tables stems out files right → left ≡ right }
{}

/// With one number, `demo` has one outcome at most over the same files.
pub fn demo_has_one_outcome()
    ensures { (number : ℕ) (files : Files) (left right : Outcome)
        → IsDemoOutcome number files left → IsDemoOutcome number files right → left ≡ right }
{}

/// With one file and one input, `read` has one outcome at most over the same files.
pub fn read_has_one_outcome()
    ensures { (lex : FileWord) (files : Files) (input : Option (List ℕ)) (left right : Outcome)
        → IsReadOutcome lex files input left → IsReadOutcome lex files input right → left ≡ right }
{}

/// With two files, a scheme and a size of pages, `batch` has one outcome at most over the same files.
pub fn batch_has_one_outcome()
    ensures { (lex : FileWord) (scheme : Scheme) (file : FileWord) (count : ℕ) (files : Files) (left right : Outcome)
        → IsBatchOutcome lex scheme file count files left → IsBatchOutcome lex scheme file count files right → left ≡ right }
{}

/// With two schemes, a text file and a file to write, `convert` has one outcome at most over the same files.
pub fn convert_has_one_outcome()
    ensures { (from to : AnyScheme) (file out : FileWord) (files : Files) (left right : Outcome)
        → IsConvertOutcome from to file out files left → IsConvertOutcome from to file out files right → left ≡ right }
{}

/// With one file and one text of a chain, `join` has one outcome at most over the same files.
pub fn join_has_one_outcome()
    ensures { (lex : FileWord) (chain : List ℕ) (files : Files) (left right : Outcome)
        → IsJoinOutcome lex chain files left → IsJoinOutcome lex chain files right → left ≡ right }
{}

/// With one file, one text and a size of the page, `split` has one outcome at most over the same files.
pub fn split_has_one_outcome()
    ensures { (lex : FileWord) (text : List ℕ) (count : ℕ) (files : Files) (left right : Outcome)
        → IsSplitOutcome lex text count files left → IsSplitOutcome lex text count files right → left ≡ right }
{}

/// With a lexicon file and a file to write, `migrate` has one outcome at most over the same files.
pub fn migrate_has_one_outcome()
    ensures { (lex out : FileWord) (files : Files) (left right : Outcome)
        → IsMigrateOutcome lex out files left → IsMigrateOutcome lex out files right → left ≡ right }
{}

/// A run has one outcome at most: these words over these files and this input write one output, leave one set of files,
/// and end in one way.
pub fn a_run_has_one_outcome()
    ensures { (words : List (List ℕ)) (files : Files) (input : Option (List ℕ)) (left right : Outcome)
        → IsOutcome words files input left → IsOutcome words files input right → left ≡ right }
{}

/// Where a run stops, a prefix is written of what it may have come to write; and this begins the output of its outcome.
pub fn what_was_written_begins_the_outcome()
    ensures { (words : List (List ℕ)) (files : Files) (input : Option (List ℕ)) (output : List ℕ) (outcome : Outcome)
        → IsSoFar words files input output → IsOutcome words files input outcome
        → (rest : List ℕ) × (outcome.output ≡ output ++ rest) }
{}
