ghost use Rattle.std.specs.Prelude.{ℕ, ◌↔◌, true, List, length};
ghost use Rattle.text_definitions.specs.Lines.{Line, IsLine};
ghost use Rattle.lexicon_definitions.specs.Lexicons.{Lexicon, IsLexicon};
ghost use Rattle.segmentation_definitions.specs.Derivations.{Step, Derives};
ghost use Rattle.segmentation_definitions.specs.Items.{Choice, placed};
ghost use Rattle.segmentation_definitions.specs.Answers.{KeepsBlanks, KeepsChoices};
ghost use Rattle.segmentation_definitions.specs.LocalTests.{KeepsBlanksLocally, AllAllow};

/// Of a list of steps that derives the line's word, blanks are kept exactly where no blank stands strictly inside the
/// letters that a step takes, and no blank stands after the beginning of the last step.
pub fn blanks_are_local()
    ensures { (lexicon : Lexicon) (line : Line) (steps : List Step) → IsLexicon lexicon → IsLine line
        → Derives lexicon steps line.letters
        → KeepsBlanks lexicon.rules line.blanks steps ↔ KeepsBlanksLocally lexicon.rules line.blanks steps }
{}

/// Of a list of steps that derives a word, choices are kept exactly where each step passes the local test of each choice.
pub fn choices_are_local()
    ensures { (lexicon : Lexicon) (word : List ℕ) (choices : List Choice) (steps : List Step) → IsLexicon lexicon
        → Derives lexicon steps word
        → KeepsChoices lexicon.rules choices steps ↔ AllAllow lexicon.rules (length word) choices true (placed lexicon.rules steps) }
{}
