ghost use Rattle.std.specs.Prelude.{◌≡◌, List, ℕ, Ok, IsUtf8};
ghost use Rattle.std.specs.Str.{chars};
ghost use Rattle.unicode_normalization.specs.Forms.{nfd};
ghost use Rattle.text_definitions.specs.Words.{IsWord};
ghost use Rattle.more_scheme_definitions.specs.HarvardKyoto.{word_of_harvard_kyoto, harvard_kyoto_of_word};
ghost use Rattle.more_scheme_definitions.specs.Iast.{composed, word_of_iast, iast_of_word};

/// What a scheme prints of a word spells this word again.
pub fn printed_words_are_read_back()
    ensures harvard_kyoto { (word : List ℕ) → IsWord word → word_of_harvard_kyoto (harvard_kyoto_of_word word) ≡ Ok word }
    ensures iast { (word : List ℕ) → IsWord word → word_of_iast (iast_of_word word) ≡ Ok word }
{}

/// What a scheme reads is a word.
pub fn texts_spell_words()
    ensures harvard_kyoto { (text word : List ℕ) → word_of_harvard_kyoto text ≡ Ok word → IsWord word }
    ensures iast { (text word : List ℕ) → word_of_iast text ≡ Ok word → IsWord word }
{}

/// What IAST prints of a word is UTF-8, and composition leaves it as it is.
pub fn printed_iast_is_composed()
    ensures utf8 { (word : List ℕ) → IsWord word → IsUtf8 (iast_of_word word) }
    ensures same { (word : List ℕ) → IsWord word → composed (iast_of_word word) ≡ iast_of_word word }
{}

/// Texts that Unicode calls canonically equivalent spell the same word in IAST, or have the same first fault.
pub fn composition_keeps_the_word()
    ensures { (left right : List ℕ) → IsUtf8 left → IsUtf8 right → nfd (chars left) ≡ nfd (chars right) → word_of_iast left ≡ word_of_iast right }
{}
