ghost use Rattle.std.specs.Prelude.{◌≡◌, ◌⊎◌, ℕ, List, Option, Some};
ghost use Rattle.outside.specs.Files.{Files};
ghost use Rattle.text_definitions.specs.Schemes.{Scheme};
ghost use Rattle.lexicon_definitions.specs.Lexicons.{Lexicon};
ghost use Rattle.conversion_definitions.specs.AnySchemes.{AnyScheme};
ghost use Rattle.run_definitions.specs.AnnotateOutcomes.{IsAnnotateOutcome};
ghost use Rattle.run_definitions.specs.BatchOutcomes.{IsBatchOutcome};
ghost use Rattle.run_definitions.specs.BuildOutcomes.{IsBuildOutcome};
ghost use Rattle.run_definitions.specs.CheckOutcomes.{IsCheckOutcome};
ghost use Rattle.run_definitions.specs.Commands.{Command, FileWord, AreWordsOf, AreOfNoCommand};
ghost use Rattle.run_definitions.specs.ConvertOutcomes.{IsConvertOutcome};
ghost use Rattle.run_definitions.specs.DemoOutcomes.{IsDemoOutcome};
ghost use Rattle.run_definitions.specs.JoinOutcomes.{IsJoinOutcome};
ghost use Rattle.run_definitions.specs.LexiconTells.{Holds, DoesTell};
ghost use Rattle.run_definitions.specs.Outcomes.{Outcome, IsOutcome, IsSoFar};
ghost use Rattle.run_definitions.specs.ReadOutcomes.{IsReadOutcome, IsToldWhereServed};
ghost use Rattle.run_definitions.specs.RereadOutcomes.{IsRereadOutcome};
ghost use Rattle.run_definitions.specs.MigrateOutcomes.{IsMigrateOutcome};
ghost use Rattle.run_definitions.specs.SegmentOutcomes.{IsSegmentOutcome};
ghost use Rattle.run_definitions.specs.SplitOutcomes.{IsSplitOutcome};

/// Words are those of a command, or of none.
pub fn words_are_of_a_command_or_of_none()
    ensures { (words : List (List ℕ)) → ((command : Command) × AreWordsOf command words) ⊎ AreOfNoCommand words }
{}

/// `segment` has an outcome over any files.
pub fn segment_has_an_outcome()
    ensures { (lex : FileWord) (scheme : Scheme) (text : List ℕ) (files : Files)
        → (outcome : Outcome) × IsSegmentOutcome lex scheme text files outcome }
{}

/// `check` has an outcome over any files.
pub fn check_has_an_outcome()
    ensures { (lex : FileWord) (files : Files) → (outcome : Outcome) × IsCheckOutcome lex files outcome }
{}

/// `build` has an outcome over any files.
pub fn build_has_an_outcome()
    ensures { (rules tables stems out : FileWord) (files : Files)
        → (outcome : Outcome) × IsBuildOutcome rules tables stems out files outcome }
{}

/// `read` has an outcome over any files, where the input is told if the file holds a lexicon.
pub fn read_has_an_outcome()
    ensures { (lex : FileWord) (files : Files) (input : Option (List ℕ))
        → ((lexicon : Lexicon) → DoesTell files lex.name (Holds lexicon) → (bytes : List ℕ) × (input ≡ Some bytes))
        → (outcome : Outcome) × IsReadOutcome lex files input outcome }
{}

/// `batch` has an outcome over any files.
pub fn batch_has_an_outcome()
    ensures { (lex : FileWord) (scheme : Scheme) (file : FileWord) (count : ℕ) (files : Files)
        → (outcome : Outcome) × IsBatchOutcome lex scheme file count files outcome }
{}

/// `demo` has an outcome for each number.
pub fn demo_has_an_outcome()
    ensures { (number : ℕ) (files : Files) → (outcome : Outcome) × IsDemoOutcome number files outcome }
{}

/// `convert` has an outcome over any files.
pub fn convert_has_an_outcome()
    ensures { (from to : AnyScheme) (file out : FileWord) (files : Files)
        → (outcome : Outcome) × IsConvertOutcome from to file out files outcome }
{}

/// `join` has an outcome over any files.
pub fn join_has_an_outcome()
    ensures { (lex : FileWord) (chain : List ℕ) (files : Files) → (outcome : Outcome) × IsJoinOutcome lex chain files outcome }
{}

/// `split` has an outcome over any files.
pub fn split_has_an_outcome()
    ensures { (lex : FileWord) (text : List ℕ) (count : ℕ) (files : Files)
        → (outcome : Outcome) × IsSplitOutcome lex text count files outcome }
{}

/// `annotate` has an outcome over any files.
pub fn annotate_has_an_outcome()
    ensures { (lex : FileWord) (mark : List ℕ) (out : FileWord) (files : Files)
        → (outcome : Outcome) × IsAnnotateOutcome lex mark out files outcome }
{}

/// `reread` has an outcome over any files.
pub fn reread_has_an_outcome()
    ensures { (lex file : FileWord) (files : Files) → (outcome : Outcome) × IsRereadOutcome lex file files outcome }
{}

/// `migrate` has an outcome over any files.
pub fn migrate_has_an_outcome()
    ensures { (lex out : FileWord) (files : Files) → (outcome : Outcome) × IsMigrateOutcome lex out files outcome }
{}

/// A run has an outcome, whatever its words and files are, where the input is told if a session is served. All of its output is
/// what the run may have come to write; so where a run stops, a prefix of its output is a prefix of something.
pub fn a_run_has_an_outcome()
    ensures outcome { (words : List (List ℕ)) (files : Files) (input : Option (List ℕ)) → IsToldWhereServed words files input
        → (outcome : Outcome) × IsOutcome words files input outcome }
    ensures so_far { (words : List (List ℕ)) (files : Files) (input : Option (List ℕ)) → IsToldWhereServed words files input
        → (output : List ℕ) × IsSoFar words files input output }
{}
