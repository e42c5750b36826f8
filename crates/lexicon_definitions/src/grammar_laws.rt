ghost use Rattle.std.specs.Prelude.{◌≡◌, ◌≢◌, ℕ, List, [], ◌++◌};
ghost use Rattle.lexicon_definitions.specs.Grammars.{Grammar, Accepts, IsPositionAfter, State, IsStateAfter, HaveSamePositions};
ghost use Rattle.lexicon_definitions.specs.GrammarFaults.{Fault, IsFirstFault, IsGrammarTextWithinLimits};

/// Lists of phases with the same positions after them go on to words by the same rests.
pub fn same_positions_same_rests()
    ensures { (grammar : Grammar) (left right rest : List ℕ) → HaveSamePositions grammar left right
        → Accepts grammar (left ++ rest) → Accepts grammar (right ++ rest) }
{}

/// Lists of phases after which a grammar is in one state have the same positions after them.
pub fn same_state_same_positions()
    ensures { (grammar : Grammar) (left right : List ℕ) (state : State) → IsStateAfter grammar left state
        → IsStateAfter grammar right state → HaveSamePositions grammar left right }
{}

/// A list of phases with no position after it, and not empty, begins no word.
pub fn no_position_begins_no_word()
    ensures { (grammar : Grammar) (phases rest : List ℕ) → phases ≢ []
        → ((position : ℕ) → IsPositionAfter grammar phases position → ⊥) → Accepts grammar (phases ++ rest) → ⊥ }
{}

/// Lists of phases with the same positions after them have the same state.
pub fn same_positions_same_state()
    ensures { (grammar : Grammar) (left right : List ℕ) (first second : State) → HaveSamePositions grammar left right
        → IsStateAfter grammar left first → IsStateAfter grammar right second → first ≡ second }
{}

/// A text has one first fault as a grammar text at most, and no fault where it is a grammar text within the limits.
pub fn a_grammar_text_has_one_first_fault()
    ensures one { (names : List (List ℕ)) (text : List ℕ) (first second : Fault) → IsFirstFault names text first
        → IsFirstFault names text second → first ≡ second }
    ensures none { (names : List (List ℕ)) (text : List ℕ) (fault : Fault) → IsGrammarTextWithinLimits names text
        → IsFirstFault names text fault → ⊥ }
{}
