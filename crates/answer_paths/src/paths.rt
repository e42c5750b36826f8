ghost use Rattle.std.specs.Prelude.{◌≡◌, ◌↔◌, ℕ, List, []};
ghost use Rattle.text_definitions.specs.Lines.{Line};
ghost use Rattle.lexicon_definitions.specs.Lexicons.{Lexicon, IsLexicon};
ghost use Rattle.segmentation_definitions.specs.Derivations.{Step, Covers};
ghost use Rattle.segmentation_definitions.specs.Items.{Choice};
ghost use Rattle.segmentation_definitions.specs.Answers.{IsAnswer};
ghost use Rattle.segmentation_definitions.specs.Listings.{Key, keys_of};
ghost use Rattle.listing_laws.specs.Ways.{IsPath};
ghost use Rattle.answer_paths.specs.Fronts.{ways_of};

/// The keys of an answer are a path from the empty front, and every such path is the keys of one answer. Of steps that
/// cover the line's word, they are an answer exactly where their keys are a path.
pub fn answers_are_paths()
    ensures path { (lexicon : Lexicon) (line : Line) (choices : List Choice) (steps : List Step) → IsLexicon lexicon
        → IsAnswer lexicon line choices steps → IsPath (ways_of lexicon line choices) [] (keys_of lexicon.rules steps) }
    ensures answer { (lexicon : Lexicon) (line : Line) (choices : List Choice) (path : List Key)
        → IsPath (ways_of lexicon line choices) [] path
        → (steps : List Step) × IsAnswer lexicon line choices steps × (keys_of lexicon.rules steps ≡ path) }
    ensures one { (lexicon : Lexicon) (line : Line) (choices : List Choice) (left right : List Step)
        → IsAnswer lexicon line choices left → IsAnswer lexicon line choices right
        → keys_of lexicon.rules left ≡ keys_of lexicon.rules right → left ≡ right }
    ensures exactly { (lexicon : Lexicon) (line : Line) (choices : List Choice) (steps : List Step) → IsLexicon lexicon
        → Covers lexicon.rules [] steps line.letters []
        → IsAnswer lexicon line choices steps ↔ IsPath (ways_of lexicon line choices) [] (keys_of lexicon.rules steps) }
{}
