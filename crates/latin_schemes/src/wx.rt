ghost use Rattle.std.specs.Prelude.{◌≡◌, ◌^◌, ◌<◌, Ok, length, IfOk, IfErr, string_bytes};
ghost use Rattle.text_definitions.specs.Wx.{word_of_wx, wx_of_word};
ghost use Rattle.latin_schemes.specs.Faults.{IsFaultOf};

use super::SpellError;
use super::byte_scheme::{print_bytes, read_bytes};
use phoneme::{Memory, Word};
use std::alloc::Global;

/// The byte of each letter, by code from 1.
static BYTES: [u8; 50] = *b"aAiIuUqQLeEoOMzHkKgGfcCjJFtTdDNwWxXnpPbBmyrlvSRshZ";

/// The code of the letter that each byte spells, or 0 where it spells no letter.
static CODES: [u8; 256] = [
    0, 0, 0, 0, 0, 0, 0, 0, 0, 0, 0, 0, 0, 0, 0, 0, 0, 0, 0, 0, 0, 0, 0, 0, 0, 0, 0, 0, 0, 0, 0, 0,
    0, 0, 0, 0, 0, 0, 0, 0, 0, 0, 0, 0, 0, 0, 0, 0, 0, 0, 0, 0, 0, 0, 0, 0, 0, 0, 0, 0, 0, 0, 0, 0,
    0, 2, 40, 23, 30, 11, 26, 20, 16, 4, 25, 18, 9, 14, 31, 13, 38, 8, 47, 46, 28, 6, 0, 33, 35, 0,
    50, 0, 0, 0, 0, 0, 0, 1, 39, 22, 29, 10, 21, 19, 49, 3, 24, 17, 44, 41, 36, 12, 37, 7, 43, 48,
    27, 5, 45, 32, 34, 42, 15, 0, 0, 0, 0, 0, 0, 0, 0, 0, 0, 0, 0, 0, 0, 0, 0, 0, 0, 0, 0, 0, 0, 0,
    0, 0, 0, 0, 0, 0, 0, 0, 0, 0, 0, 0, 0, 0, 0, 0, 0, 0, 0, 0, 0, 0, 0, 0, 0, 0, 0, 0, 0, 0, 0, 0,
    0, 0, 0, 0, 0, 0, 0, 0, 0, 0, 0, 0, 0, 0, 0, 0, 0, 0, 0, 0, 0, 0, 0, 0, 0, 0, 0, 0, 0, 0, 0, 0,
    0, 0, 0, 0, 0, 0, 0, 0, 0, 0, 0, 0, 0, 0, 0, 0, 0, 0, 0, 0, 0, 0, 0, 0, 0, 0, 0, 0, 0, 0, 0, 0,
    0, 0, 0, 0, 0, 0, 0, 0, 0, 0, 0, 0, 0, 0,
];

/// The word that a WX text spells, one byte a letter. `NotLetter` at the first byte that spells no letter, places counted
/// in bytes from 0. The table is that of WX, where the bytes `Q`, `L`, `z` and `Z` of the codes 8, 9, 15 and 50 are this
/// project's own choice.
pub fn read_wx(alloc: Global, text: &[u8]) -> Result<Word, SpellError>
    requires { length text.now < 2 ^ 32 }
    ensures ok { IfOk result (λ word. word_of_wx text.now ≡ Ok word) }
    ensures fault { IfErr result (λ error. IsFaultOf error (word_of_wx text.now)) }
{
    read_bytes(alloc, &CODES, text)
}

/// The WX spelling of a word, one byte a letter.
#[tactic(auto, unfolding(text_definitions::specs::Wx::wx_of_word, text_definitions::specs::Wx::wx_table))]
pub fn print_wx(alloc: Global, word: &Word) -> Result<String, Memory>
    ensures ok { IfOk result (λ text. string_bytes text ≡ wx_of_word word.now) }
{
    print_bytes(alloc, &BYTES, word)
}
