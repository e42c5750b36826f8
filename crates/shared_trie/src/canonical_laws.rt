ghost use Rattle.std.specs.Prelude.{ℕ, List};
ghost use Rattle.lexicon_definitions.specs.Lexicons.{Form};
ghost use Rattle.lexicon_definitions.specs.Tries.{Trie, IsTrieOf};
ghost use Rattle.trie_text_definitions.specs.VersionTexts.{IsOrderedTrieOf};
ghost use Rattle.shared_trie.specs.CanonicalNodes.{IsCanonical, trie_of_nodes};

/// The nodes in their order make the ordered trie of the phases that the trie has.
pub fn nodes_in_their_order_make_an_ordered_trie()
    ensures { (trie : Trie) (nodes : List ℕ) (phases : List (List Form)) → IsTrieOf trie phases → IsCanonical trie nodes → IsOrderedTrieOf (trie_of_nodes trie nodes) phases }
{}
