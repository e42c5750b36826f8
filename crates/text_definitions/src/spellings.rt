ghost use Rattle.std.specs.Prelude.{◌≡◌, List, ℕ, Ok};
ghost use Rattle.text_definitions.specs.Words.{IsWord};
ghost use Rattle.text_definitions.specs.Slp1.{word_of_slp1, slp1_of_word};
ghost use Rattle.text_definitions.specs.Wx.{word_of_wx, wx_of_word};
ghost use Rattle.text_definitions.specs.Velthuis.{word_of_velthuis, velthuis_of_word};
ghost use Rattle.text_definitions.specs.Devanagari.{word_of_devanagari, devanagari_of_word};

/// What a scheme prints of a word spells this word again.
pub fn printed_words_are_read_back()
    ensures slp1 { (word : List ℕ) → IsWord word → word_of_slp1 (slp1_of_word word) ≡ Ok word }
    ensures wx { (word : List ℕ) → IsWord word → word_of_wx (wx_of_word word) ≡ Ok word }
    ensures velthuis { (word : List ℕ) → IsWord word → word_of_velthuis (velthuis_of_word word) ≡ Ok word }
    ensures devanagari { (word : List ℕ) → IsWord word → word_of_devanagari (devanagari_of_word word) ≡ Ok word }
{}

/// What a scheme reads is a word.
pub fn texts_spell_words()
    ensures slp1 { (text word : List ℕ) → word_of_slp1 text ≡ Ok word → IsWord word }
    ensures wx { (text word : List ℕ) → word_of_wx text ≡ Ok word → IsWord word }
    ensures velthuis { (text word : List ℕ) → word_of_velthuis text ≡ Ok word → IsWord word }
    ensures devanagari { (text word : List ℕ) → word_of_devanagari text ≡ Ok word → IsWord word }
{}

/// What SLP1 and WX read is printed as the same text.
pub fn read_bytes_are_printed_back()
    ensures slp1 { (text word : List ℕ) → word_of_slp1 text ≡ Ok word → slp1_of_word word ≡ text }
    ensures wx { (text word : List ℕ) → word_of_wx text ≡ Ok word → wx_of_word word ≡ text }
{}
