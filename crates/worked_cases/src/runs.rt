ghost use Rattle.std.specs.Prelude.{◌≡◌, ℕ, List, Option, codes};
ghost use Rattle.segmentation_definitions.specs.PrintedAnswers.{output_line};
ghost use Rattle.trie_text_definitions.specs.VersionFaults.{Unlimited};
ghost use Rattle.run_definitions.specs.Ends.{Lexicon};
ghost use Rattle.run_definitions.specs.Refusals.{file_refusal};
ghost use Rattle.run_definitions.specs.MigrateOutcomes.{text_fault};
ghost use Rattle.run_definitions.specs.Outcomes.{IsOutcome};
ghost use Rattle.worked_cases.specs.WorkedRuns.{small_files, migrate_words, small_outcome};

/// `migrate l1 m` over a file that lists the forms `ca` and `iti` writes the five nodes of their trie, and prints how many they are.
pub fn a_small_lexicon_is_migrated()
    ensures { (input : Option (List ℕ)) → IsOutcome migrate_words small_files input small_outcome }
{}

/// A lexicon file is refused by the line at fault and the reason; a text that would be too long is told of line 0.
pub fn lexicon_files_are_refused_by_line_and_reason()
    ensures unlimited { file_refusal (codes "l20") (Lexicon (record { line = 17; why = Unlimited })) ≡ output_line (codes "bad file l20 line 17: Unlimited") }
    ensures long { file_refusal (codes "l1") text_fault ≡ output_line (codes "bad file l1 line 0: Limit") }
{}
