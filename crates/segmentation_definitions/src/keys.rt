ghost use Rattle.std.specs.Prelude.{◌≡◌, ℕ, List, [], ◌++◌};
ghost use Rattle.std.specs.Cmp.{IsTotalOrder};
ghost use Rattle.std.specs.declared.cmp.Ordering.TheVariants.{Equal};
ghost use Rattle.text_definitions.specs.Lines.{Line};
ghost use Rattle.lexicon_definitions.specs.Lexicons.{Lexicon, RuleSet, IsLexicon};
ghost use Rattle.segmentation_definitions.specs.Derivations.{Step, Derives};
ghost use Rattle.segmentation_definitions.specs.Items.{Choice};
ghost use Rattle.segmentation_definitions.specs.Answers.{IsAnswer};
ghost use Rattle.segmentation_definitions.specs.Listings.{Key, keys_of, compare_answers};

/// A list of steps that derives a word is determined by its keys, and its keys are no proper front of another's.
pub fn keys_determine_answers()
    ensures same { (lexicon : Lexicon) (word : List ℕ) (left right : List Step) → Derives lexicon left word → Derives lexicon right word
        → keys_of lexicon.rules left ≡ keys_of lexicon.rules right → left ≡ right }
    ensures no_front { (lexicon : Lexicon) (word : List ℕ) (left right : List Step) (more : List Key) → IsLexicon lexicon
        → Derives lexicon left word → Derives lexicon right word
        → keys_of lexicon.rules right ≡ keys_of lexicon.rules left ++ more → more ≡ [] }
{}

/// The order of answers is total, and strict on the answers of a line.
pub fn answers_are_ordered()
    ensures total { (rules : RuleSet) → IsTotalOrder (compare_answers rules) }
    ensures strict { (lexicon : Lexicon) (line : Line) (choices : List Choice) (left right : List Step)
        → IsAnswer lexicon line choices left → IsAnswer lexicon line choices right
        → compare_answers lexicon.rules left right ≡ Equal → left ≡ right }
{}
