ghost use Rattle.std.specs.Prelude.{◌≡◌, ◌+◌, ◌^◌, ◌<◌, ◌&&◌, ◌==◌, nat_lt, if◌then◌else◌, slice_index, Ok, false, length, IfOk, IfErr};
ghost use Rattle.latin_schemes.specs.Faults.{IsFaultOf};
ghost use Rattle.text_definitions.specs.Longest.{word_of_spellings};
ghost use Rattle.more_scheme_definitions.specs.HarvardKyoto.{word_of_harvard_kyoto};
ghost use Rattle.more_scheme_definitions.specs.Iast.{composed, word_of_composed, word_of_iast};
ghost use Rattle.more_schemes.specs.Schemes.{front_in};

use super::scheme::{Scheme, front};
use latin_schemes::{SpellError, SpellFault};
use phoneme::Word;
use std::alloc::Global;
use unicode_normalization::to_nfc;

/// The word that a text in Harvard-Kyoto spells: at each place the longest spelling is one letter, and a `_` between
/// two spellings is passed over. `NotLetter` at the first byte where there is neither, counted from 0. The spelling `~`
/// of code 15 is this project's own choice.
#[tactic(auto, unfolding(more_scheme_definitions::specs::HarvardKyoto::word_of_harvard_kyoto))]
pub fn read_hk(alloc: Global, text: &[u8]) -> Result<Word, SpellError>
    requires { length text.now < 2 ^ 28 }
    ensures ok { IfOk result (λ word. word_of_harvard_kyoto text.now ≡ Ok word) }
    ensures fault { IfErr result (λ error. IsFaultOf error (word_of_harvard_kyoto text.now)) }
{
    read_spellings(alloc, Scheme::HarvardKyoto, text)
}

/// The word that a text in IAST spells. The text is composed first, to Unicode's form NFC, and then read as
/// Harvard-Kyoto is. `NotUtf8` where the text is not UTF-8, and else `NotLetter` at the first byte of the composed text
/// that is at fault. A capital letter is at fault.
pub fn read_iast(alloc: Global, text: &[u8]) -> Result<Word, SpellError>
    requires { length text.now < 2 ^ 28 }
    ensures ok { IfOk result (λ word. word_of_iast text.now ≡ Ok word) }
    ensures fault { IfErr result (λ error. IsFaultOf error (word_of_iast text.now)) }
{
    match std::str::from_utf8(text) {
        Ok(text) => read_text(alloc, text),
        Err(error) => Err(SpellFault::NotUtf8 {
            at: error.valid_up_to() as u32,
        }
        .into()),
    }
}

/// The same of a text that is UTF-8.
#[tactic(auto, unfolding(more_scheme_definitions::specs::Iast::composed, more_scheme_definitions::specs::Iast::word_of_composed), using(crate::proofs::SchemeSteps::composed_fits))]
fn read_text(alloc: Global, text: &str) -> Result<Word, SpellError>
    requires { length text.now < 2 ^ 28 }
    ensures ok { IfOk result (λ word. word_of_composed (composed text.now) ≡ Ok word) }
    ensures fault { IfErr result (λ error. IsFaultOf error (word_of_composed (composed text.now))) }
{
    let composed = match to_nfc(alloc, text) {
        Ok(composed) => composed,
        Err(_) => return Err(SpellError::Memory),
    };
    read_spellings(alloc, Scheme::Iast, composed.as_bytes())
}

/// The place where the next spelling is to begin: after a separator `_` that stands at the place, unless the text
/// begins there, or else the place itself.
fn next_spelling(text: &[u8], at: usize) -> usize
    requires { at < length text.now }
    ensures value { result ≡ (if nat_lt 0 at && (slice_index text.now at == 95) then at + 1 else at) }
{
    if at > 0 && text[at] == b'_' {
        at + 1
    } else {
        at
    }
}

/// The word that the text spells in the scheme.
pub(crate) fn read_spellings(alloc: Global, scheme: Scheme, text: &[u8]) -> Result<Word, SpellError>
    requires { length text.now < 2 ^ 32 }
    ensures ok { IfOk result (λ word. word_of_spellings (front_in scheme) 0 0 false text.now ≡ Ok word) }
    ensures fault { IfErr result (λ error. IsFaultOf error (word_of_spellings (front_in scheme) 0 0 false text.now)) }
{
    let mut word = Word::new(alloc);
    let mut at = 0;
    while at < text.len() {
        let begin = next_spelling(text, at);
        let Some((letter, length)) = front(scheme, &text[begin..]) else {
            return Err(SpellFault::NotLetter { at: at as u32 }.into());
        };
        word.push(letter)?;
        at = begin + length;
    }
    Ok(word)
}
