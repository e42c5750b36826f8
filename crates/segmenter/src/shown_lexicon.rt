ghost use Rattle.annotated_trie.specs.Searched.{IsSearchedLexicon};

use annotated_trie::Lexicon;

/// Shows the proof what every lexicon is, since it knows this only of one that is asked: its automaton and its tries are those of its
/// rules and forms. It does nothing.
pub(crate) fn show_lexicon(lexicon: &Lexicon)
    ensures { IsSearchedLexicon lexicon.now }
{
    let _rules = lexicon.rules();
}
