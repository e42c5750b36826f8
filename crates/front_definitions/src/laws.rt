ghost use Rattle.std.specs.Prelude.{◌≡◌, ◌≢◌, ◌↔◌, ℕ, Bool, IsTrue, Option, None, List, [], take, drop};
ghost use Rattle.std.specs.declared.cmp.Ordering.TheVariants.{Less, Greater};
ghost use Rattle.text_definitions.specs.Lines.{Line};
ghost use Rattle.lexicon_definitions.specs.Lexicons.{Lexicon, RuleSet};
ghost use Rattle.segmentation_definitions.specs.Derivations.{Step};
ghost use Rattle.segmentation_definitions.specs.Items.{Choice};
ghost use Rattle.segmentation_definitions.specs.Listings.{Key, compare_answers, compare_key_lists};
ghost use Rattle.front_definitions.specs.Fronts.{front_of, AreFronts, AreNextFronts};

/// The answers of a line have one list of fronts of a depth at most, and one list of the next fronts after one.
pub fn one_list_of_fronts()
    ensures all { (lexicon : Lexicon) (line : Line) (choices : List Choice) (depth : ℕ) (left right : List (List Key))
        → AreFronts lexicon line choices depth left → AreFronts lexicon line choices depth right → left ≡ right }
    ensures next { (lexicon : Lexicon) (line : Line) (choices : List Choice) (depth : ℕ) (earlier : Option (List Key)) (most : ℕ)
        (left right : List (List Key)) (left_more right_more : Bool)
        → AreNextFronts lexicon line choices depth earlier most left left_more
        → AreNextFronts lexicon line choices depth earlier most right right_more → (left ≡ right) × (left_more ≡ right_more) }
{}

/// What stands between two answers of one front has that front too. Of two answers with different fronts, the one with the smaller
/// front comes first.
pub fn answers_of_a_front_stand_together()
    ensures together { (rules : RuleSet) (depth : ℕ) (first middle last : List Step)
        → compare_answers rules first middle ≢ Greater → compare_answers rules middle last ≢ Greater
        → front_of rules depth first ≡ front_of rules depth last → front_of rules depth middle ≡ front_of rules depth first }
    ensures in_order { (rules : RuleSet) (depth : ℕ) (left right : List Step)
        → (compare_key_lists (front_of rules depth left) (front_of rules depth right) ≡ Less)
        ↔ ((compare_answers rules left right ≡ Less) × (front_of rules depth left ≢ front_of rules depth right)) }
{}

/// The next fronts from the first on are the first ones of all fronts, as many as are asked for, and more says whether any is left.
pub fn next_fronts_are_front_of_list()
    ensures { (lexicon : Lexicon) (line : Line) (choices : List Choice) (depth most : ℕ) (all next : List (List Key)) (more : Bool)
        → AreFronts lexicon line choices depth all → AreNextFronts lexicon line choices depth None most next more
        → (next ≡ take most all) × (IsTrue more ↔ (drop most all ≢ [])) }
{}
