ghost use Rattle.std.specs.Prelude.{◌≡◌, ◌^◌, ◌<◌, length, Ok, IfOk, IfErr, IfSome, IfNone, option_map, string_bytes};
ghost use Rattle.latin_schemes.specs.Faults.{IsFaultOf};
ghost use Rattle.conversion_definitions.specs.AnySchemes as defined;
ghost use Rattle.conversion_definitions.specs.AnySchemes.{name_of_any_scheme, any_scheme_named, word_of_run, spelling_in};
ghost use Rattle.conversion_definitions.specs.Marks as marks;
ghost use Rattle.more_schemes.specs.Values.{any_scheme_of};

use super::print::{print_hk, print_iast};
use super::read::read_spellings;
use super::scheme::Scheme;
use devanagari::{print_devanagari, read_devanagari};
use latin_schemes::{
    SpellError, print_slp1, print_velthuis, print_wx, read_slp1, read_velthuis, read_wx,
};
use phoneme::{Memory, Word};
use std::alloc::Global;

/// The spelling schemes between which a text may be converted.
#[derive(Clone, Copy)]
pub enum AnyScheme {
    /// One ASCII byte for each letter (Scharf and Hyman).
    Slp1,
    /// One ASCII byte for each letter, by another table.
    Wx,
    /// One to three ASCII bytes for each letter (Velthuis).
    Velthuis,
    /// The script, as UTF-8 (the Unicode block Devanagari).
    Devanagari,
    /// Latin letters with marks, as UTF-8.
    Iast,
    /// Harvard-Kyoto: one or two ASCII bytes for each letter.
    Hk,
}

impl AnyScheme {
    /// The scheme of this name, as the words of a run give it.
    pub fn named(name: &[u8]) -> Option<AnyScheme>
        ensures named { option_map any_scheme_of result ≡ any_scheme_named name.now }
        ensures some { IfSome result (λ scheme. name.now ≡ name_of_any_scheme (any_scheme_of scheme)) }
        ensures none { IfNone result ((scheme : defined.AnyScheme) → name.now ≡ name_of_any_scheme scheme → ⊥) }
    {
        if name == b"slp1".as_slice() {
            Some(AnyScheme::Slp1)
        } else if name == b"wx".as_slice() {
            Some(AnyScheme::Wx)
        } else if name == b"velthuis".as_slice() {
            Some(AnyScheme::Velthuis)
        } else if name == b"devanagari".as_slice() {
            Some(AnyScheme::Devanagari)
        } else if name == b"iast".as_slice() {
            Some(AnyScheme::Iast)
        } else if name == b"hk".as_slice() {
            Some(AnyScheme::Hk)
        } else {
            None
        }
    }

    /// Whether the scheme is written in Devanagari.
    pub(crate) fn is_devanagari(self) -> bool
        ensures value { result ≡ marks.is_devanagari (any_scheme_of self) }
    {
        match self {
            AnyScheme::Devanagari => true,
            AnyScheme::Slp1
            | AnyScheme::Wx
            | AnyScheme::Velthuis
            | AnyScheme::Iast
            | AnyScheme::Hk => false,
        }
    }

    /// The word that a run of letters spells; in IAST the run is composed already.
    #[tactic(auto, unfolding(more_scheme_definitions::specs::Iast::word_of_composed, more_scheme_definitions::specs::HarvardKyoto::word_of_harvard_kyoto))]
    pub(crate) fn read_run(self, alloc: Global, run: &[u8]) -> Result<Word, SpellError>
        requires { length run.now < 2 ^ 32 }
        ensures ok { IfOk result (λ word. word_of_run (any_scheme_of self) run.now ≡ Ok word) }
        ensures fault { IfErr result (λ error. IsFaultOf error (word_of_run (any_scheme_of self) run.now)) }
    {
        match self {
            AnyScheme::Slp1 => read_slp1(alloc, run),
            AnyScheme::Wx => read_wx(alloc, run),
            AnyScheme::Velthuis => read_velthuis(alloc, run),
            AnyScheme::Devanagari => read_devanagari(alloc, run),
            AnyScheme::Iast => read_spellings(alloc, Scheme::Iast, run),
            AnyScheme::Hk => read_spellings(alloc, Scheme::HarvardKyoto, run),
        }
    }

    /// The spelling of the word.
    pub(crate) fn print(self, alloc: Global, word: &Word) -> Result<String, Memory>
        ensures ok { IfOk result (λ text. string_bytes text ≡ spelling_in (any_scheme_of self) word.now) }
    {
        match self {
            AnyScheme::Slp1 => print_slp1(alloc, word),
            AnyScheme::Wx => print_wx(alloc, word),
            AnyScheme::Velthuis => print_velthuis(alloc, word),
            AnyScheme::Devanagari => print_devanagari(alloc, word),
            AnyScheme::Iast => print_iast(alloc, word),
            AnyScheme::Hk => print_hk(alloc, word),
        }
    }
}
