ghost use Rattle.std.specs.Prelude.{◌≡◌, ◌≤◌, ℕ, List, length, All, Result, Ok, Some};
ghost use Rattle.text_definitions.specs.Lines.{Line, IsLine};
ghost use Rattle.lexicon_definitions.specs.Lexicons.{Lexicon, IsLexicon};
ghost use Rattle.lexicon_definitions.specs.Limits.{IsWithinLimits};
ghost use Rattle.segmentation_definitions.specs.declared.limits.TheConstants.{MOST_CHOICES};
ghost use Rattle.segmentation_definitions.specs.Derivations.{Step};
ghost use Rattle.segmentation_definitions.specs.Items.{Choice};
ghost use Rattle.segmentation_definitions.specs.Listings.{IsListing};
ghost use Rattle.note_definitions.specs.NoteFaults.{Why};
ghost use Rattle.note_definitions.specs.Notes.{Note, IsChoiceOver, IsNote};
ghost use Rattle.note_definitions.specs.NoteTexts.{value_of_note, text_of_note};
ghost use Rattle.note_definitions.specs.NoteOutcomes.{Outcome, Written, IsOutcome, outcome_of};
ghost use Rattle.note_definitions.specs.NoteReadings.{IsNoteRead, value_of_bytes};

/// Writing the note of a line and choices has one outcome at most.
pub fn writing_has_one_outcome()
    ensures { (lexicon : Lexicon) (line : Line) (choices : List Choice) (left right : Outcome)
        → IsOutcome lexicon line choices left → IsOutcome lexicon line choices right → left ≡ right }
{}

/// Where all answers are listed, the outcome is told by their list.
pub fn the_outcome_is_that_of_the_listing()
    ensures { (lexicon : Lexicon) (line : Line) (choices : List Choice) (answers : List (List Step))
        → IsListing lexicon line choices answers → IsOutcome lexicon line choices (outcome_of lexicon line choices answers) }
{}

/// A file is read in one way over a lexicon: as one note, or with one first fault.
pub fn a_note_is_read_in_one_way()
    ensures { (lexicon : Lexicon) (bytes : List ℕ) (left right : Result Note Why)
        → IsNoteRead lexicon bytes left → IsNoteRead lexicon bytes right → left ≡ right }
{}

/// What is read is a note over the lexicon, and the JSON value of what was read is that of this note.
pub fn what_is_read_is_a_note()
    ensures note { (lexicon : Lexicon) (bytes : List ℕ) (note : Note) → IsNoteRead lexicon bytes (Ok note) → IsNote lexicon note }
    ensures value { (lexicon : Lexicon) (bytes : List ℕ) (note : Note) → IsNoteRead lexicon bytes (Ok note)
        → value_of_bytes bytes ≡ Some (value_of_note lexicon note) }
{}

/// The text of a note over a lexicon is read as this note, and so what is written is read as the note of its line and choices.
pub fn a_note_is_read_back()
    ensures written { (lexicon : Lexicon) (line : Line) (choices : List Choice) (text : List ℕ) → IsLexicon lexicon → IsWithinLimits lexicon
        → IsLine line → length choices ≤ MOST_CHOICES → All (IsChoiceOver lexicon) choices → IsOutcome lexicon line choices (Written text)
        → (steps : List Step) × IsNoteRead lexicon text (Ok (record { line = line; choices = choices; steps = steps })) }
    ensures note { (lexicon : Lexicon) (note : Note) → IsLexicon lexicon → IsWithinLimits lexicon → IsNote lexicon note
        → IsNoteRead lexicon (text_of_note lexicon note) (Ok note) }
{}
