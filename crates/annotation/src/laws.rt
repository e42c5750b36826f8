ghost use Rattle.std.specs.Prelude.{◌≤◌, ℕ, List, Vec, Result, Ok, length, All};
ghost use Rattle.std.specs.Global.{Global};
ghost use Rattle.text_definitions.specs.Lines.{Line, IsLine};
ghost use Rattle.lexicon_definitions.specs.Lexicons.{Lexicon, IsLexicon};
ghost use Rattle.lexicon_definitions.specs.Limits.{IsWithinLimits};
ghost use Rattle.segmentation_definitions.specs.declared.limits.TheConstants.{MOST_CHOICES};
ghost use Rattle.segmentation_definitions.specs.Items.{Choice};
ghost use Rattle.note_definitions.specs.Notes.{IsChoiceOver};
ghost use Rattle.annotation.specs.declared.note.Note.{Note};
ghost use Rattle.annotation.specs.declared.read_error.ReadNoteError.{ReadNoteError};
ghost use Rattle.annotation.specs.Answers.{IsNoteWritten};
ghost use Rattle.annotation.specs.Readings.{IsNoteReadAs, IsReadBack};

use note_definitions::{a_note_is_read_back, a_note_is_read_in_one_way};

/// What `write_note` gave, `read_note` reads over the same lexicon as a note of that line and those choices, or memory is wanting.
pub fn what_is_written_is_read()
    ensures { (lexicon : Lexicon) (line : Line) (choices : List Choice) (bytes : Vec ℕ Global) (result : Result Note ReadNoteError)
        → IsLexicon lexicon → IsWithinLimits lexicon → IsLine line → length choices ≤ MOST_CHOICES → All (IsChoiceOver lexicon) choices
        → IsNoteWritten lexicon line choices (Ok bytes) → IsNoteReadAs lexicon bytes.items result → IsReadBack line choices result }
{
    a_note_is_read_back();
    a_note_is_read_in_one_way();
}
