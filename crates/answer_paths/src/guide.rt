ghost use Rattle.std.specs.Prelude.{◌≡◌, ◌↔◌, ℕ, List, []};
ghost use Rattle.text_definitions.specs.Lines.{Line, IsLine};
ghost use Rattle.lexicon_definitions.specs.Grammars.{State, IsStateAfter};
ghost use Rattle.lexicon_definitions.specs.Lexicons.{Lexicon, RuleSet, tree_of, IsLexicon};
ghost use Rattle.segmentation_definitions.specs.Derivations.{Step, phases_of};
ghost use Rattle.segmentation_definitions.specs.Items.{Choice, covered_from};
ghost use Rattle.segmentation_definitions.specs.Configurations.{Configuration, Start, entrance_after, EndsAt, IsReached, StandsInAnswer};
ghost use Rattle.listing_laws.specs.Ways.{HasPath};
ghost use Rattle.answer_paths.specs.Fronts.{ways_of, IsLedTo};

/// A front that a search comes to has a path exactly where the configuration that it ends at stands in an answer. It ends
/// at the configuration with the letters that it covers, the entrance after it, and the grammar's state after its phases,
/// and what it ends at is reached.
pub fn a_guide_tells_paths()
    ensures guide { (lexicon : Lexicon) (line : Line) (choices : List Choice) (front : List Step) (configuration : Configuration)
        → IsLexicon lexicon → IsLine line → IsLedTo lexicon line choices front → EndsAt lexicon.rules front configuration
        → HasPath (ways_of lexicon line choices) front ↔ StandsInAnswer lexicon line choices configuration }
    ensures reached { (lexicon : Lexicon) (line : Line) (choices : List Choice) (front : List Step) (configuration : Configuration)
        → IsLedTo lexicon line choices front → EndsAt lexicon.rules front configuration → IsReached lexicon line.letters configuration }
    ensures ends { (rules : RuleSet) (front : List Step) (state : State) → IsStateAfter (tree_of rules) (phases_of front) state
        → EndsAt rules front (record { at = covered_from rules 0 [] front; entrance = entrance_after rules Start front; state = state }) }
{}
