ghost use Rattle.std.specs.Prelude.{ℕ, List, Result};
ghost use Rattle.lexicon_definitions.specs.Lexicons.{Lexicon};
ghost use Rattle.segmentation_definitions.specs.Derivations.{Step};
ghost use Rattle.chain_definitions.specs.Chains.{IsChain};
ghost use Rattle.chain_definitions.specs.ChainFaults.{Fault};
ghost use Rattle.chain_definitions.specs.ChainReadings.{IsChainRead};
ghost use Rattle.chain_definitions.specs.JoinedChains.{Joined, IsJoinedTo};

/// Any text is read over a lexicon as a chain, or has a first fault as one.
pub fn a_text_is_read_as_a_chain()
    ensures { (lexicon : Lexicon) (text : List ℕ) → (result : Result (List Step) Fault) × IsChainRead lexicon text result }
{}

/// A chain is joined to a word or to its first overlap.
pub fn a_chain_is_joined()
    ensures { (lexicon : Lexicon) (steps : List Step) → IsChain lexicon steps → (joined : Joined) × IsJoinedTo lexicon steps joined }
{}
