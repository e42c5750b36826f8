ghost use Rattle.std.specs.Prelude.{◌≡◌, ◌≢◌, ℕ, ◌≤◌, false, List, [], ◌∷◌, length, Result, Some};
ghost use Rattle.outside.specs.Files.{Files, contents_of};
ghost use Rattle.text_definitions.specs.Lines.{Line};
ghost use Rattle.lexicon_definitions.specs.Lexicons.{Lexicon, IsLexicon};
ghost use Rattle.lexicon_text_definitions.specs.declared.limits.TheConstants.{MOST_FILE_BYTES};
ghost use Rattle.segmentation_definitions.specs.Derivations.{Step};
ghost use Rattle.segmentation_definitions.specs.Items.{Choice};
ghost use Rattle.segmentation_definitions.specs.PrintedAnswers.{printed_page};
ghost use Rattle.bookmark_definitions.specs.Bookmarks.{Bookmark};
ghost use Rattle.note_definitions.specs.NoteFaults.{Why};
ghost use Rattle.note_definitions.specs.Notes.{Note, IsOnlyAnswer};
ghost use Rattle.note_definitions.specs.NoteOutcomes.{Outcome, IsOutcome};
ghost use Rattle.note_definitions.specs.NoteReadings.{IsNoteRead};
ghost use Rattle.run_definitions.specs.Arguments.{FileWord};
ghost use Rattle.run_definitions.specs.AnnotateOutcomes.{IsMarkOver, IsAnnotateOutcome};
ghost use Rattle.run_definitions.specs.Ends as ends;
ghost use Rattle.run_definitions.specs.Ends.{Done, outcome_over};
ghost use Rattle.run_definitions.specs.RereadOutcomes.{IsRereadOutcome};

/// Writing the note of a line and choices has an outcome: the note, that there is no answer, or that there are several.
pub fn writing_a_note_has_an_outcome()
    ensures { (lexicon : Lexicon) → IsLexicon lexicon → (line : Line) (choices : List Choice)
        → (outcome : Outcome) × IsOutcome lexicon line choices outcome }
{}

/// Any bytes are read over a lexicon as a note, or have a first fault as one.
pub fn a_file_is_read_as_a_note()
    ensures { (lexicon : Lexicon) → IsLexicon lexicon → (bytes : List ℕ) → (result : Result Note Why) × IsNoteRead lexicon bytes result }
{}

/// What `annotate` has written beside the lexicon file, within the limit of a file, `reread` reads: it prints the only answer of the
/// bookmark's line and choices.
pub fn a_note_that_was_written_is_reread()
    ensures { (lex file out : FileWord) (mark : List ℕ) (files : Files) (outcome : ends.Outcome)
        → IsAnnotateOutcome lex mark out files outcome → outcome.end ≡ Done → lex.name ≢ out.name → file.name ≡ out.name
        → ((text : List ℕ) → contents_of outcome.files out.name ≡ Some text → length text ≤ MOST_FILE_BYTES)
        → (lexicon : Lexicon) × ((bookmark : Bookmark) × ((steps : List Step) × (IsMarkOver lexicon mark bookmark
        × (IsOnlyAnswer lexicon bookmark.line bookmark.choices steps
        × IsRereadOutcome lex file outcome.files
        (outcome_over outcome.files (printed_page lexicon.rules 1 (steps ∷ []) false) Done))))) }
{}
