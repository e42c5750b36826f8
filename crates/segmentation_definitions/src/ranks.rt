ghost use Rattle.std.specs.Prelude.{ℕ, ◌*◌, ◌<◌, ◌≤◌, List, length, All};
ghost use Rattle.std.specs.List.Sorted.{IsStrictlyIncreasing};
ghost use Rattle.lexicon_definitions.specs.Lexicons.{Lexicon, IsLexicon};
ghost use Rattle.segmentation_definitions.specs.Derivations.{Step, Derives};
ghost use Rattle.segmentation_definitions.specs.Items.{ranks_of};
ghost use Rattle.segmentation_definitions.specs.Listings.{keys_of};

/// Ranks rise strictly along every list of steps that derives a word, and lie from 1 to twice the number of its letters.
/// So there are at most as many steps. Each key has a phase and a rule of the lexicon, and takes no more than all letters.
pub fn ranks_rise()
    ensures rising { (lexicon : Lexicon) (word : List ℕ) (steps : List Step) → IsLexicon lexicon → Derives lexicon steps word
        → IsStrictlyIncreasing (ranks_of lexicon.rules steps) }
    ensures within { (lexicon : Lexicon) (word : List ℕ) (steps : List Step) → IsLexicon lexicon → Derives lexicon steps word
        → All (λ rank. (1 ≤ rank) × (rank ≤ 2 * length word)) (ranks_of lexicon.rules steps) }
    ensures steps { (lexicon : Lexicon) (word : List ℕ) (steps : List Step) → IsLexicon lexicon → Derives lexicon steps word
        → length steps ≤ 2 * length word }
    ensures keys { (lexicon : Lexicon) (word : List ℕ) (steps : List Step) → IsLexicon lexicon → Derives lexicon steps word
        → All (λ key. (key.phase < length lexicon.phases) × (key.taken ≤ length word) × (key.rule ≤ length lexicon.rules.rules))
        (keys_of lexicon.rules steps) }
{}
