ghost use Rattle.std.specs.Prelude.{◌≢◌, ℕ, List, [], ◌++◌};
ghost use Rattle.text_definitions.specs.Lines.{Line, IsLine};
ghost use Rattle.lexicon_definitions.specs.Lexicons.{Lexicon, IsLexicon};
ghost use Rattle.segmentation_definitions.specs.Derivations.{Step};
ghost use Rattle.segmentation_definitions.specs.Items.{Choice};
ghost use Rattle.segmentation_definitions.specs.Answers.{IsAnswer};
ghost use Rattle.segmentation_definitions.specs.Configurations.{Configuration, EndsAt, IsFront, PassesTests};

/// Where two lists of steps end at one configuration, and each of their steps passes the local tests of blanks and
/// choices, whatever completes the one to an answer completes the other.
pub fn same_configuration_same_rests()
    ensures { (lexicon : Lexicon) (line : Line) (choices : List Choice) (configuration : Configuration) (left right rest : List Step)
        → IsLexicon lexicon → IsLine line
        → IsFront lexicon left line.letters → EndsAt lexicon.rules left configuration → PassesTests lexicon.rules line choices left
        → IsFront lexicon right line.letters → EndsAt lexicon.rules right configuration → PassesTests lexicon.rules line choices right
        → rest ≢ [] → IsAnswer lexicon line choices (left ++ rest) → IsAnswer lexicon line choices (right ++ rest) }
{}
