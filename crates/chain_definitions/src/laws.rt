ghost use Rattle.std.specs.Prelude.{◌≡◌, ◌⊎◌, ℕ, true, List, [], Result, Ok};
ghost use Rattle.text_definitions.specs.Lines.{Line, IsLine};
ghost use Rattle.lexicon_definitions.specs.Lexicons.{Lexicon, IsLexicon};
ghost use Rattle.segmentation_definitions.specs.Derivations.{Step, Derives};
ghost use Rattle.segmentation_definitions.specs.Items.{Choice};
ghost use Rattle.segmentation_definitions.specs.Answers.{IsAnswer};
ghost use Rattle.segmentation_definitions.specs.PrintedAnswers.{printed_steps};
ghost use Rattle.chain_definitions.specs.Chains.{IsChain};
ghost use Rattle.chain_definitions.specs.ChainFaults.{Fault};
ghost use Rattle.chain_definitions.specs.ChainReadings.{IsChainRead};
ghost use Rattle.chain_definitions.specs.JoinedChains.{Joined, Text, IsFirstOverlap, IsJoinedTo};

/// A text is read in one way: as one chain, or with one first fault.
pub fn a_text_is_read_in_one_way()
    ensures { (lexicon : Lexicon) (text : List ℕ) (left right : Result (List Step) Fault)
        → IsChainRead lexicon text left → IsChainRead lexicon text right → left ≡ right }
{}

/// What is read in a text is a chain, and the text is that of its printed steps, which is a printed answer without its number.
pub fn what_is_read_is_a_chain()
    ensures chain { (lexicon : Lexicon) (text : List ℕ) (steps : List Step) → IsChainRead lexicon text (Ok steps) → IsChain lexicon steps }
    ensures text { (lexicon : Lexicon) (text : List ℕ) (steps : List Step) → IsChainRead lexicon text (Ok steps)
        → text ≡ printed_steps lexicon.rules steps }
{}

/// A chain is read back from its printed steps.
pub fn a_chain_is_read_back()
    ensures { (lexicon : Lexicon) (steps : List Step) → IsLexicon lexicon → IsChain lexicon steps
        → IsChainRead lexicon (printed_steps lexicon.rules steps) (Ok steps) }
{}

/// A chain has a first overlap, or it derives a word. It is joined to one thing at most: to one word, or to its first overlap.
pub fn a_chain_overlaps_or_derives_one_word()
    ensures some { (lexicon : Lexicon) (steps : List Step) → IsChain lexicon steps
        → ((joined : Joined) × IsFirstOverlap lexicon 0 steps joined) ⊎ ((word : List ℕ) × Derives lexicon steps word) }
    ensures one { (lexicon : Lexicon) (steps : List Step) (left right : Joined)
        → IsJoinedTo lexicon steps left → IsJoinedTo lexicon steps right → left ≡ right }
{}

/// Each answer of a line, whatever the choices, is a chain that is joined to the line's letters, as an answer.
pub fn answers_are_joined_again()
    ensures chain { (lexicon : Lexicon) (line : Line) (choices : List Choice) (steps : List Step)
        → IsAnswer lexicon line choices steps → IsChain lexicon steps }
    ensures joined { (lexicon : Lexicon) (line : Line) (choices : List Choice) (steps : List Step) → IsLine line
        → IsAnswer lexicon line choices steps → IsJoinedTo lexicon steps (Text line.letters true) }
{}

/// A chain that is joined to a word as an answer is an answer of the line of this word, without blanks and choices.
pub fn what_is_joined_is_an_answer()
    ensures line { (lexicon : Lexicon) (steps : List Step) (word : List ℕ) → IsLexicon lexicon
        → IsJoinedTo lexicon steps (Text word true) → IsLine (record { letters = word; blanks = [] }) }
    ensures answer { (lexicon : Lexicon) (steps : List Step) (word : List ℕ)
        → IsJoinedTo lexicon steps (Text word true) → IsAnswer lexicon (record { letters = word; blanks = [] }) [] steps }
{}
