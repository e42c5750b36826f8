ghost use Rattle.std.specs.Prelude.{◌≡◌, ◌^◌, ◌<◌, Ok, length, IfOk, IfErr, IfSome, IfNone};
ghost use Rattle.std.specs.Option.{option_map};
ghost use Rattle.text_definitions.specs.Schemes.{Scheme as DefinedScheme, word_of_text, name_of_scheme, scheme_named};
ghost use Rattle.latin_schemes.specs.Faults.{IsFaultOf};
ghost use Rattle.text_line.specs.Values.{scheme_of};

use devanagari::read_devanagari;
use latin_schemes::{SpellError, read_slp1, read_velthuis, read_wx};
use phoneme::Word;
use std::alloc::Global;

/// The spelling schemes in which a line may be written.
#[derive(Clone, Copy)]
pub enum Scheme {
    /// One ASCII byte for each letter (Scharf and Hyman).
    Slp1,
    /// One ASCII byte for each letter, by another table.
    Wx,
    /// One to three ASCII bytes for each letter (Velthuis).
    Velthuis,
    /// The script, as UTF-8 (the Unicode block Devanagari).
    Devanagari,
}

impl Scheme {
    /// The scheme of this name, as a line of a session and the words of a run give it.
    pub fn named(name: &[u8]) -> Option<Scheme>
        ensures named { option_map scheme_of result ≡ scheme_named name.now }
        ensures some { IfSome result (λ scheme. name.now ≡ name_of_scheme (scheme_of scheme)) }
        ensures none { IfNone result ((scheme : DefinedScheme) → name.now ≡ name_of_scheme scheme → ⊥) }
    {
        if name == b"slp1".as_slice() {
            Some(Scheme::Slp1)
        } else if name == b"wx".as_slice() {
            Some(Scheme::Wx)
        } else if name == b"velthuis".as_slice() {
            Some(Scheme::Velthuis)
        } else if name == b"devanagari".as_slice() {
            Some(Scheme::Devanagari)
        } else {
            None
        }
    }

    /// The word that the text spells in the scheme, without blanks.
    pub fn read_word(self, alloc: Global, text: &[u8]) -> Result<Word, SpellError>
        requires { length text.now < 2 ^ 32 }
        ensures ok { IfOk result (λ word. word_of_text (scheme_of self) text.now ≡ Ok word) }
        ensures fault { IfErr result (λ error. IsFaultOf error (word_of_text (scheme_of self) text.now)) }
    {
        match self {
            Scheme::Slp1 => read_slp1(alloc, text),
            Scheme::Wx => read_wx(alloc, text),
            Scheme::Velthuis => read_velthuis(alloc, text),
            Scheme::Devanagari => read_devanagari(alloc, text),
        }
    }
}
