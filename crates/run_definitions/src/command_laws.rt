ghost use Rattle.std.specs.Prelude.{◌≡◌, ◌↔◌, ◌∷◌, ℕ, List, Option, codes};
ghost use Rattle.outside.specs.Files.{Files};
ghost use Rattle.text_definitions.specs.Schemes.{Scheme};
ghost use Rattle.run_definitions.specs.Arguments.{FileWord};
ghost use Rattle.run_definitions.specs.Ends.{Outcome};
ghost use Rattle.run_definitions.specs.Refusals.{usage_outcome};
ghost use Rattle.run_definitions.specs.SegmentOutcomes.{AreSegmentWords, IsSegmentOutcome, IsSegmentRun};
ghost use Rattle.run_definitions.specs.CheckOutcomes.{AreCheckWords, IsCheckOutcome, IsCheckRun};
ghost use Rattle.run_definitions.specs.BuildOutcomes.{AreBuildWords, IsBuildOutcome, IsBuildRun};
ghost use Rattle.run_definitions.specs.ReadOutcomes.{AreReadWords, IsReadOutcome, IsReadRun, IsReadSoFar};
ghost use Rattle.run_definitions.specs.BatchOutcomes.{AreBatchWords, IsBatchOutcome, IsBatchRun, IsBatchSoFar};
ghost use Rattle.run_definitions.specs.DemoOutcomes.{AreDemoWords, IsDemoOutcome, IsDemoRun};
ghost use Rattle.conversion_definitions.specs.AnySchemes.{AnyScheme};
ghost use Rattle.run_definitions.specs.ConvertOutcomes.{AreConvertWords, IsConvertOutcome, IsConvertRun};
ghost use Rattle.run_definitions.specs.JoinOutcomes.{AreJoinWords, IsJoinOutcome, IsJoinRun};
ghost use Rattle.run_definitions.specs.SplitOutcomes.{AreSplitWords, IsSplitOutcome, IsSplitRun};
ghost use Rattle.run_definitions.specs.AnnotateOutcomes.{AreAnnotateWords, IsAnnotateOutcome, IsAnnotateRun};
ghost use Rattle.run_definitions.specs.RereadOutcomes.{AreRereadWords, IsRereadOutcome, IsRereadRun};
ghost use Rattle.run_definitions.specs.MigrateOutcomes.{AreMigrateWords, IsMigrateOutcome, IsMigrateRun};
ghost use Rattle.run_definitions.specs.Commands.{Command, Segment, Check, Build, Read, Batch, Demo, Convert, Join, Split, Annotate, Reread, Migrate};
ghost use Rattle.run_definitions.specs.Commands.{name_of_command, AreWordsOf, DoWrite, WriteNoFile, DoReadInput};
ghost use Rattle.run_definitions.specs.Outcomes.{IsOutcome, IsSoFar};

/// The outcomes of a run whose first word is `segment` are just those that the definitions of `segment` alone give; so is what it may have
/// come to write where it stops.
pub fn segment_alone()
    ensures words { (lex : FileWord) (scheme : Scheme) (text : List ℕ) (words : List (List ℕ)) → AreSegmentWords lex scheme text words ↔ AreWordsOf (Segment lex scheme text) words }
    ensures run { (words following : List (List ℕ)) (files : Files) (input : Option (List ℕ)) (outcome : Outcome)
        → words ≡ codes "segment" ∷ following → IsOutcome words files input outcome ↔ IsSegmentRun words files outcome }
    ensures outcome { (lex : FileWord) (scheme : Scheme) (text : List ℕ) (words : List (List ℕ)) (files : Files) (input : Option (List ℕ)) (outcome : Outcome)
        → AreSegmentWords lex scheme text words → IsOutcome words files input outcome ↔ IsSegmentOutcome lex scheme text files outcome }
    ensures so_far { (lex : FileWord) (scheme : Scheme) (text : List ℕ) (words : List (List ℕ)) (files : Files) (input : Option (List ℕ)) (output : List ℕ)
        → AreSegmentWords lex scheme text words → IsSoFar words files input output
        ↔ ((outcome : Outcome) × IsSegmentOutcome lex scheme text files outcome × (output ≡ outcome.output)) }
    ensures writes { (lex : FileWord) (scheme : Scheme) (text : List ℕ) (words : List (List ℕ)) → AreSegmentWords lex scheme text words → WriteNoFile words }
    ensures input { (lex : FileWord) (scheme : Scheme) (text : List ℕ) (words : List (List ℕ)) → AreSegmentWords lex scheme text words → DoReadInput words → ⊥ }
{}

/// The outcomes of a run whose first word is `check` are just those that the definitions of `check` alone give; so is what it may have
/// come to write where it stops.
pub fn check_alone()
    ensures words { (lex : FileWord) (words : List (List ℕ)) → AreCheckWords lex words ↔ AreWordsOf (Check lex) words }
    ensures run { (words following : List (List ℕ)) (files : Files) (input : Option (List ℕ)) (outcome : Outcome)
        → words ≡ codes "check" ∷ following → IsOutcome words files input outcome ↔ IsCheckRun words files outcome }
    ensures outcome { (lex : FileWord) (words : List (List ℕ)) (files : Files) (input : Option (List ℕ)) (outcome : Outcome)
        → AreCheckWords lex words → IsOutcome words files input outcome ↔ IsCheckOutcome lex files outcome }
    ensures so_far { (lex : FileWord) (words : List (List ℕ)) (files : Files) (input : Option (List ℕ)) (output : List ℕ)
        → AreCheckWords lex words → IsSoFar words files input output
        ↔ ((outcome : Outcome) × IsCheckOutcome lex files outcome × (output ≡ outcome.output)) }
    ensures writes { (lex : FileWord) (words : List (List ℕ)) → AreCheckWords lex words → WriteNoFile words }
    ensures input { (lex : FileWord) (words : List (List ℕ)) → AreCheckWords lex words → DoReadInput words → ⊥ }
{}

/// The outcomes of a run whose first word is `build` are just those that the definitions of `build` alone give; so is what it may have
/// come to write where it stops.
pub fn build_alone()
    ensures words { (rules tables stems out : FileWord) (words : List (List ℕ)) → AreBuildWords rules tables stems out words ↔ AreWordsOf (Build rules tables stems out) words }
    ensures run { (words following : List (List ℕ)) (files : Files) (input : Option (List ℕ)) (outcome : Outcome)
        → words ≡ codes "build" ∷ following → IsOutcome words files input outcome ↔ IsBuildRun words files outcome }
    ensures outcome { (rules tables stems out : FileWord) (words : List (List ℕ)) (files : Files) (input : Option (List ℕ)) (outcome : Outcome)
        → AreBuildWords rules tables stems out words → IsOutcome words files input outcome ↔ IsBuildOutcome rules tables stems out files outcome }
    ensures so_far { (rules tables stems out : FileWord) (words : List (List ℕ)) (files : Files) (input : Option (List ℕ)) (output : List ℕ)
        → AreBuildWords rules tables stems out words → IsSoFar words files input output
        ↔ ((outcome : Outcome) × IsBuildOutcome rules tables stems out files outcome × (output ≡ outcome.output)) }
    ensures writes { (rules tables stems out : FileWord) (words : List (List ℕ)) (other : FileWord) → AreBuildWords rules tables stems out words → DoWrite words other → other ≡ out }
    ensures input { (rules tables stems out : FileWord) (words : List (List ℕ)) → AreBuildWords rules tables stems out words → DoReadInput words → ⊥ }
{}

/// The outcomes of a run whose first word is `read` are just those that the definitions of `read` alone give; so is what it may have
/// come to write where it stops.
pub fn read_alone()
    ensures words { (lex : FileWord) (words : List (List ℕ)) → AreReadWords lex words ↔ AreWordsOf (Read lex) words }
    ensures run { (words following : List (List ℕ)) (files : Files) (input : Option (List ℕ)) (outcome : Outcome)
        → words ≡ codes "read" ∷ following → IsOutcome words files input outcome ↔ IsReadRun words files input outcome }
    ensures outcome { (lex : FileWord) (words : List (List ℕ)) (files : Files) (input : Option (List ℕ)) (outcome : Outcome)
        → AreReadWords lex words → IsOutcome words files input outcome ↔ IsReadOutcome lex files input outcome }
    ensures so_far { (lex : FileWord) (words : List (List ℕ)) (files : Files) (input : Option (List ℕ)) (output : List ℕ)
        → AreReadWords lex words → IsSoFar words files input output
        ↔ IsReadSoFar lex files input output }
    ensures writes { (lex : FileWord) (words : List (List ℕ)) → AreReadWords lex words → WriteNoFile words }
    ensures input { (lex : FileWord) (words : List (List ℕ)) → AreReadWords lex words → DoReadInput words }
{}

/// The outcomes of a run whose first word is `batch` are just those that the definitions of `batch` alone give; so is what it may have
/// come to write where it stops.
pub fn batch_alone()
    ensures words { (lex : FileWord) (scheme : Scheme) (file : FileWord) (count : ℕ) (words : List (List ℕ)) → AreBatchWords lex scheme file count words ↔ AreWordsOf (Batch lex scheme file count) words }
    ensures run { (words following : List (List ℕ)) (files : Files) (input : Option (List ℕ)) (outcome : Outcome)
        → words ≡ codes "batch" ∷ following → IsOutcome words files input outcome ↔ IsBatchRun words files outcome }
    ensures outcome { (lex : FileWord) (scheme : Scheme) (file : FileWord) (count : ℕ) (words : List (List ℕ)) (files : Files) (input : Option (List ℕ)) (outcome : Outcome)
        → AreBatchWords lex scheme file count words → IsOutcome words files input outcome ↔ IsBatchOutcome lex scheme file count files outcome }
    ensures so_far { (lex : FileWord) (scheme : Scheme) (file : FileWord) (count : ℕ) (words : List (List ℕ)) (files : Files) (input : Option (List ℕ)) (output : List ℕ)
        → AreBatchWords lex scheme file count words → IsSoFar words files input output
        ↔ IsBatchSoFar lex scheme file count files output }
    ensures writes { (lex : FileWord) (scheme : Scheme) (file : FileWord) (count : ℕ) (words : List (List ℕ)) → AreBatchWords lex scheme file count words → WriteNoFile words }
    ensures input { (lex : FileWord) (scheme : Scheme) (file : FileWord) (count : ℕ) (words : List (List ℕ)) → AreBatchWords lex scheme file count words → DoReadInput words → ⊥ }
{}

/// The outcomes of a run whose first word is `demo` are just those that the definitions of `demo` alone give; so is what it may have
/// come to write where it stops.
pub fn demo_alone()
    ensures words { (number : ℕ) (words : List (List ℕ)) → AreDemoWords number words ↔ AreWordsOf (Demo number) words }
    ensures run { (words following : List (List ℕ)) (files : Files) (input : Option (List ℕ)) (outcome : Outcome)
        → words ≡ codes "demo" ∷ following → IsOutcome words files input outcome ↔ IsDemoRun words files outcome }
    ensures outcome { (number : ℕ) (words : List (List ℕ)) (files : Files) (input : Option (List ℕ)) (outcome : Outcome)
        → AreDemoWords number words → IsOutcome words files input outcome ↔ IsDemoOutcome number files outcome }
    ensures so_far { (number : ℕ) (words : List (List ℕ)) (files : Files) (input : Option (List ℕ)) (output : List ℕ)
        → AreDemoWords number words → IsSoFar words files input output
        ↔ ((outcome : Outcome) × IsDemoOutcome number files outcome × (output ≡ outcome.output)) }
    ensures writes { (number : ℕ) (words : List (List ℕ)) → AreDemoWords number words → WriteNoFile words }
    ensures input { (number : ℕ) (words : List (List ℕ)) → AreDemoWords number words → DoReadInput words → ⊥ }
{}

/// The outcomes of a run whose first word is `convert` are just those that the definitions of `convert` alone give; so is what it may have
/// come to write where it stops.
pub fn convert_alone()
    ensures words { (from to : AnyScheme) (file out : FileWord) (words : List (List ℕ)) → AreConvertWords from to file out words ↔ AreWordsOf (Convert from to file out) words }
    ensures run { (words following : List (List ℕ)) (files : Files) (input : Option (List ℕ)) (outcome : Outcome)
        → words ≡ codes "convert" ∷ following → IsOutcome words files input outcome ↔ IsConvertRun words files outcome }
    ensures outcome { (from to : AnyScheme) (file out : FileWord) (words : List (List ℕ)) (files : Files) (input : Option (List ℕ)) (outcome : Outcome)
        → AreConvertWords from to file out words → IsOutcome words files input outcome ↔ IsConvertOutcome from to file out files outcome }
    ensures so_far { (from to : AnyScheme) (file out : FileWord) (words : List (List ℕ)) (files : Files) (input : Option (List ℕ)) (output : List ℕ)
        → AreConvertWords from to file out words → IsSoFar words files input output
        ↔ ((outcome : Outcome) × IsConvertOutcome from to file out files outcome × (output ≡ outcome.output)) }
    ensures writes { (from to : AnyScheme) (file out : FileWord) (words : List (List ℕ)) (other : FileWord) → AreConvertWords from to file out words → DoWrite words other → other ≡ out }
    ensures input { (from to : AnyScheme) (file out : FileWord) (words : List (List ℕ)) → AreConvertWords from to file out words → DoReadInput words → ⊥ }
{}

/// The outcomes of a run whose first word is `join` are just those that the definitions of `join` alone give; so is what it may have
/// come to write where it stops.
pub fn join_alone()
    ensures words { (lex : FileWord) (chain : List ℕ) (words : List (List ℕ)) → AreJoinWords lex chain words ↔ AreWordsOf (Join lex chain) words }
    ensures run { (words following : List (List ℕ)) (files : Files) (input : Option (List ℕ)) (outcome : Outcome)
        → words ≡ codes "join" ∷ following → IsOutcome words files input outcome ↔ IsJoinRun words files outcome }
    ensures outcome { (lex : FileWord) (chain : List ℕ) (words : List (List ℕ)) (files : Files) (input : Option (List ℕ)) (outcome : Outcome)
        → AreJoinWords lex chain words → IsOutcome words files input outcome ↔ IsJoinOutcome lex chain files outcome }
    ensures so_far { (lex : FileWord) (chain : List ℕ) (words : List (List ℕ)) (files : Files) (input : Option (List ℕ)) (output : List ℕ)
        → AreJoinWords lex chain words → IsSoFar words files input output
        ↔ ((outcome : Outcome) × IsJoinOutcome lex chain files outcome × (output ≡ outcome.output)) }
    ensures writes { (lex : FileWord) (chain : List ℕ) (words : List (List ℕ)) → AreJoinWords lex chain words → WriteNoFile words }
    ensures input { (lex : FileWord) (chain : List ℕ) (words : List (List ℕ)) → AreJoinWords lex chain words → DoReadInput words → ⊥ }
{}

/// The outcomes of a run whose first word is `split` are just those that the definitions of `split` alone give; so is what it may have
/// come to write where it stops.
pub fn split_alone()
    ensures words { (lex : FileWord) (text : List ℕ) (count depth : ℕ) (words : List (List ℕ)) → AreSplitWords lex text count depth words ↔ AreWordsOf (Split lex text count depth) words }
    ensures run { (words following : List (List ℕ)) (files : Files) (input : Option (List ℕ)) (outcome : Outcome)
        → words ≡ codes "split" ∷ following → IsOutcome words files input outcome ↔ IsSplitRun words files outcome }
    ensures outcome { (lex : FileWord) (text : List ℕ) (count depth : ℕ) (words : List (List ℕ)) (files : Files) (input : Option (List ℕ)) (outcome : Outcome)
        → AreSplitWords lex text count depth words → IsOutcome words files input outcome ↔ IsSplitOutcome lex text count files outcome }
    ensures so_far { (lex : FileWord) (text : List ℕ) (count depth : ℕ) (words : List (List ℕ)) (files : Files) (input : Option (List ℕ)) (output : List ℕ)
        → AreSplitWords lex text count depth words → IsSoFar words files input output
        ↔ ((outcome : Outcome) × IsSplitOutcome lex text count files outcome × (output ≡ outcome.output)) }
    ensures writes { (lex : FileWord) (text : List ℕ) (count depth : ℕ) (words : List (List ℕ)) → AreSplitWords lex text count depth words → WriteNoFile words }
    ensures input { (lex : FileWord) (text : List ℕ) (count depth : ℕ) (words : List (List ℕ)) → AreSplitWords lex text count depth words → DoReadInput words → ⊥ }
{}

/// The outcomes of a run whose first word is `annotate` are just those that the definitions of `annotate` alone give; so is what it may have
/// come to write where it stops.
pub fn annotate_alone()
    ensures words { (lex : FileWord) (mark : List ℕ) (out : FileWord) (words : List (List ℕ)) → AreAnnotateWords lex mark out words ↔ AreWordsOf (Annotate lex mark out) words }
    ensures run { (words following : List (List ℕ)) (files : Files) (input : Option (List ℕ)) (outcome : Outcome)
        → words ≡ codes "annotate" ∷ following → IsOutcome words files input outcome ↔ IsAnnotateRun words files outcome }
    ensures outcome { (lex : FileWord) (mark : List ℕ) (out : FileWord) (words : List (List ℕ)) (files : Files) (input : Option (List ℕ)) (outcome : Outcome)
        → AreAnnotateWords lex mark out words → IsOutcome words files input outcome ↔ IsAnnotateOutcome lex mark out files outcome }
    ensures so_far { (lex : FileWord) (mark : List ℕ) (out : FileWord) (words : List (List ℕ)) (files : Files) (input : Option (List ℕ)) (output : List ℕ)
        → AreAnnotateWords lex mark out words → IsSoFar words files input output
        ↔ ((outcome : Outcome) × IsAnnotateOutcome lex mark out files outcome × (output ≡ outcome.output)) }
    ensures writes { (lex : FileWord) (mark : List ℕ) (out : FileWord) (words : List (List ℕ)) (other : FileWord) → AreAnnotateWords lex mark out words → DoWrite words other → other ≡ out }
    ensures input { (lex : FileWord) (mark : List ℕ) (out : FileWord) (words : List (List ℕ)) → AreAnnotateWords lex mark out words → DoReadInput words → ⊥ }
{}

/// The outcomes of a run whose first word is `reread` are just those that the definitions of `reread` alone give; so is what it may have
/// come to write where it stops.
pub fn reread_alone()
    ensures words { (lex file : FileWord) (words : List (List ℕ)) → AreRereadWords lex file words ↔ AreWordsOf (Reread lex file) words }
    ensures run { (words following : List (List ℕ)) (files : Files) (input : Option (List ℕ)) (outcome : Outcome)
        → words ≡ codes "reread" ∷ following → IsOutcome words files input outcome ↔ IsRereadRun words files outcome }
    ensures outcome { (lex file : FileWord) (words : List (List ℕ)) (files : Files) (input : Option (List ℕ)) (outcome : Outcome)
        → AreRereadWords lex file words → IsOutcome words files input outcome ↔ IsRereadOutcome lex file files outcome }
    ensures so_far { (lex file : FileWord) (words : List (List ℕ)) (files : Files) (input : Option (List ℕ)) (output : List ℕ)
        → AreRereadWords lex file words → IsSoFar words files input output
        ↔ ((outcome : Outcome) × IsRereadOutcome lex file files outcome × (output ≡ outcome.output)) }
    ensures writes { (lex file : FileWord) (words : List (List ℕ)) → AreRereadWords lex file words → WriteNoFile words }
    ensures input { (lex file : FileWord) (words : List (List ℕ)) → AreRereadWords lex file words → DoReadInput words → ⊥ }
{}

/// The outcomes of a run whose first word is `migrate` are just those that the definitions of `migrate` alone give; so is what it may have
/// come to write where it stops.
pub fn migrate_alone()
    ensures words { (lex out : FileWord) (words : List (List ℕ)) → AreMigrateWords lex out words ↔ AreWordsOf (Migrate lex out) words }
    ensures run { (words following : List (List ℕ)) (files : Files) (input : Option (List ℕ)) (outcome : Outcome)
        → words ≡ codes "migrate" ∷ following → IsOutcome words files input outcome ↔ IsMigrateRun words files outcome }
    ensures outcome { (lex out : FileWord) (words : List (List ℕ)) (files : Files) (input : Option (List ℕ)) (outcome : Outcome)
        → AreMigrateWords lex out words → IsOutcome words files input outcome ↔ IsMigrateOutcome lex out files outcome }
    ensures so_far { (lex out : FileWord) (words : List (List ℕ)) (files : Files) (input : Option (List ℕ)) (output : List ℕ)
        → AreMigrateWords lex out words → IsSoFar words files input output
        ↔ ((outcome : Outcome) × IsMigrateOutcome lex out files outcome × (output ≡ outcome.output)) }
    ensures writes { (lex out : FileWord) (words : List (List ℕ)) (other : FileWord) → AreMigrateWords lex out words → DoWrite words other → other ≡ out }
    ensures input { (lex out : FileWord) (words : List (List ℕ)) → AreMigrateWords lex out words → DoReadInput words → ⊥ }
{}

/// A run whose first word is the name of no command, or that has no word, is refused with `usage`.
pub fn other_words_alone()
    ensures { (words : List (List ℕ)) (files : Files) (input : Option (List ℕ)) (outcome : Outcome)
        → ((command : Command) (following : List (List ℕ)) → words ≡ name_of_command command ∷ following → ⊥)
        → IsOutcome words files input outcome ↔ (outcome ≡ usage_outcome files) }
{}
