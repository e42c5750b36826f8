ghost use Rattle.std.specs.Prelude.{◌≡◌, ◌↔◌, ℕ, List, ◌∷◌, ◌++◌};
ghost use Rattle.lexicon_definitions.specs.Lexicons.{Lexicon, IsLexicon};
ghost use Rattle.segmentation_definitions.specs.Derivations.{Derives};
ghost use Rattle.segmentation_definitions.specs.Items.{Choice as ChoiceValue};
ghost use Rattle.segmentation_definitions.specs.Answers.{KeepsChoices};
ghost use Rattle.derivation.specs.declared.step.Step.{Step as ProgramStep};
ghost use Rattle.derivation.specs.Steps.{StandIn, steps_of};
ghost use Rattle.reader_choices.specs.Allowing.{AllowsStep};

/// Of steps that derive a line's letters, the choices are kept exactly where each step passes the local test after the steps
/// before it.
pub fn allowed_steps_keep_the_choices()
    ensures { (lexicon : Lexicon) (letters : List ℕ) (choices : List ChoiceValue) (steps : List ProgramStep) → IsLexicon lexicon
        → StandIn lexicon.rules letters steps → Derives lexicon (steps_of lexicon.rules letters steps) letters
        → KeepsChoices lexicon.rules choices (steps_of lexicon.rules letters steps)
        ↔ ((before : List ProgramStep) (step : ProgramStep) (rest : List ProgramStep) → steps ≡ before ++ step ∷ rest
        → AllowsStep lexicon.rules letters choices before step) }
{}
