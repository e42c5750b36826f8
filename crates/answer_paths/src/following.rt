ghost use Rattle.std.specs.Prelude.{◌≡◌, ◌↔◌, ℕ, ◌+◌, List, [], ◌∷◌, ◌++◌, length};
ghost use Rattle.text_definitions.specs.Lines.{Line, IsLine};
ghost use Rattle.lexicon_definitions.specs.Grammars.{State, IsStateAfter, IsLiveState};
ghost use Rattle.lexicon_definitions.specs.Lexicons.{Lexicon, RuleSet, rule_of, tree_of, IsLexicon, IsPhaseWord};
ghost use Rattle.segmentation_definitions.specs.Derivations.{Step, phases_of};
ghost use Rattle.segmentation_definitions.specs.Items.{Choice, covered_from};
ghost use Rattle.segmentation_definitions.specs.Listings.{Key, keys_of};
ghost use Rattle.segmentation_definitions.specs.Configurations.{Entrance, Start, entrance_after, entrance_after_step};
ghost use Rattle.listing_laws.specs.Stacks.{Frame, LeadTo};
ghost use Rattle.answer_paths.specs.Fronts.{ways_of, IsLedTo};
ghost use Rattle.answer_paths.specs.Following.{step_at, MayFollow, MayEnd};

/// A search from the empty front comes only to lists of steps that may begin an answer. From such a front a key leads to the
/// front that has the step with this key at its end, exactly where that step may follow; and it ends exactly where that step
/// may end the line. How many letters the front covers, how the next form is entered, and the phases decide both; and a key
/// that leads on tells these of the next front. Some list of phases goes on exactly where the grammar's state is live.
pub fn keys_are_local()
    ensures led { (lexicon : Lexicon) (line : Line) (choices : List Choice) (frames : List (Frame (List Step) Key)) (top : List Step)
        → LeadTo (ways_of lexicon line choices) [] frames top → IsLedTo lexicon line choices top }
    ensures leads { (lexicon : Lexicon) (line : Line) (choices : List Choice) (front next : List Step) (key : Key) (at : ℕ) (entrance : Entrance)
        → IsLexicon lexicon → IsLedTo lexicon line choices front
        → at ≡ covered_from lexicon.rules 0 [] front → entrance ≡ entrance_after lexicon.rules Start front
        → (ways_of lexicon line choices).leads front key next
        ↔ ((next ≡ front ++ step_at lexicon.rules line at entrance key ∷ []) × MayFollow lexicon line choices at entrance (phases_of front) key) }
    ensures next { (lexicon : Lexicon) (line : Line) (choices : List Choice) (front next : List Step) (key : Key) (at : ℕ) (entrance : Entrance)
        → at ≡ covered_from lexicon.rules 0 [] front → entrance ≡ entrance_after lexicon.rules Start front
        → (ways_of lexicon line choices).leads front key next
        → (covered_from lexicon.rules 0 [] next ≡ at + key.taken + length (rule_of lexicon.rules key.rule).w)
        × (entrance_after lexicon.rules Start next ≡ entrance_after_step lexicon.rules (step_at lexicon.rules line at entrance key))
        × (phases_of next ≡ phases_of front ++ key.phase ∷ []) × (keys_of lexicon.rules next ≡ keys_of lexicon.rules front ++ key ∷ []) }
    ensures live { (rules : RuleSet) (phases : List ℕ) (phase : ℕ) (state : State) → IsStateAfter (tree_of rules) (phases ++ phase ∷ []) state
        → IsLiveState state ↔ ((rest : List ℕ) × IsPhaseWord rules (phases ++ phase ∷ rest)) }
    ensures ends { (lexicon : Lexicon) (line : Line) (choices : List Choice) (front : List Step) (key : Key) (at : ℕ) (entrance : Entrance)
        → IsLexicon lexicon → IsLine line → IsLedTo lexicon line choices front
        → at ≡ covered_from lexicon.rules 0 [] front → entrance ≡ entrance_after lexicon.rules Start front
        → (ways_of lexicon line choices).ends front key ↔ MayEnd lexicon line choices at entrance (phases_of front) key }
{}
