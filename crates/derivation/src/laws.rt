ghost use Rattle.std.specs.Prelude.{◌≡◌, ℕ, List, []};
ghost use Rattle.lexicon_definitions.specs.Lexicons.{RuleSet as RuleSetValue};
ghost use Rattle.segmentation_definitions.specs.Items.{placed};
ghost use Rattle.segmentation_definitions.specs.Listings.{keys_of as definition_keys};
ghost use Rattle.derivation.specs.declared.step.Step.{Step as ProgramStep};
ghost use Rattle.derivation.specs.Steps.{StandIn, steps_of, keys_of, places_of};

/// Steps that stand in a line have the places and the keys of the steps of the definitions that they stand for.
pub fn steps_keep_places_and_keys()
    ensures places { (rules : RuleSetValue) (letters : List ℕ) (steps : List ProgramStep) → StandIn rules letters steps
        → placed rules (steps_of rules letters steps) ≡ places_of rules letters [] steps }
    ensures keys { (rules : RuleSetValue) (letters : List ℕ) (steps : List ProgramStep) → StandIn rules letters steps
        → keys_of steps ≡ definition_keys rules (steps_of rules letters steps) }
{}
