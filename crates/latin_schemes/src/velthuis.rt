ghost use Rattle.std.specs.Prelude.{◌≡◌, ◌+◌, ◌^◌, ◌<◌, ◌&&◌, ◌==◌, nat_lt, if◌then◌else◌, slice_index, Ok, length, IfOk, IfErr};
ghost use Rattle.text_definitions.specs.Velthuis.{word_of_velthuis};
ghost use Rattle.latin_schemes.specs.Faults.{IsFaultOf};

use super::velthuis_front::front;
use super::{SpellError, SpellFault};
use phoneme::Word;
use std::alloc::Global;

/// The place where the next spelling is to begin: after a separator `_` that stands at the place, unless the text
/// begins there, or else the place itself.
fn next_spelling(text: &[u8], at: usize) -> usize
    requires { at < length text.now }
    ensures value { result ≡ (if nat_lt 0 at && (slice_index text.now at == 95) then at + 1 else at) }
{
    if at > 0 && text[at] == b'_' {
        at + 1
    } else {
        at
    }
}

/// The word that a Velthuis text spells: at each place the longest spelling of the table is one letter, and a `_`
/// between two spellings is passed over. `NotLetter` at the first byte where there is neither, counted from 0. The
/// spelling `~m` of code 15 is this project's own choice.
pub fn read_velthuis(alloc: Global, text: &[u8]) -> Result<Word, SpellError>
    requires { length text.now < 2 ^ 32 }
    ensures ok { IfOk result (λ word. word_of_velthuis text.now ≡ Ok word) }
    ensures fault { IfErr result (λ error. IsFaultOf error (word_of_velthuis text.now)) }
{
    let mut word = Word::new(alloc);
    let mut at = 0;
    while at < text.len() {
        let begin = next_spelling(text, at);
        let Some((letter, length)) = front(&text[begin..]) else {
            return Err(SpellFault::NotLetter { at: at as u32 }.into());
        };
        word.push(letter)?;
        at = begin + length;
    }
    Ok(word)
}
