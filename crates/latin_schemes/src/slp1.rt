ghost use Rattle.std.specs.Prelude.{◌≡◌, ◌^◌, ◌<◌, ◌≤◌, ◌++◌, Ok, None, length, take, slice_index, IfOk, IfErr, OnOk, string_bytes};
ghost use Rattle.text_definitions.specs.Spellings.{letter_of_byte};
ghost use Rattle.text_definitions.specs.Slp1.{word_of_slp1, slp1_of_word, slp1_table};
ghost use Rattle.latin_schemes.specs.Faults.{IsFaultOf};

use super::SpellError;
use super::byte_scheme::{print_bytes, push_bytes, read_bytes, read_bytes_over, read_front_over};
use phoneme::{Memory, Word};
use std::alloc::Global;

/// The byte of each letter, by code from 1.
static BYTES: [u8; 50] = *b"aAiIuUfFxeEoOM~HkKgGNcCjJYwWqQRtTdDnpPbBmyrlvSzsh'";

/// The code of the letter that each byte spells, or 0 where it spells no letter.
static CODES: [u8; 256] = [
    0, 0, 0, 0, 0, 0, 0, 0, 0, 0, 0, 0, 0, 0, 0, 0, 0, 0, 0, 0, 0, 0, 0, 0, 0, 0, 0, 0, 0, 0, 0, 0,
    0, 0, 0, 0, 0, 0, 0, 50, 0, 0, 0, 0, 0, 0, 0, 0, 0, 0, 0, 0, 0, 0, 0, 0, 0, 0, 0, 0, 0, 0, 0,
    0, 0, 2, 40, 23, 35, 11, 8, 20, 16, 4, 25, 18, 0, 14, 21, 13, 38, 30, 31, 46, 33, 6, 0, 28, 0,
    26, 0, 0, 0, 0, 0, 0, 0, 1, 39, 22, 34, 10, 7, 19, 49, 3, 24, 17, 44, 41, 36, 12, 37, 29, 43,
    48, 32, 5, 45, 27, 9, 42, 47, 0, 0, 0, 15, 0, 0, 0, 0, 0, 0, 0, 0, 0, 0, 0, 0, 0, 0, 0, 0, 0,
    0, 0, 0, 0, 0, 0, 0, 0, 0, 0, 0, 0, 0, 0, 0, 0, 0, 0, 0, 0, 0, 0, 0, 0, 0, 0, 0, 0, 0, 0, 0, 0,
    0, 0, 0, 0, 0, 0, 0, 0, 0, 0, 0, 0, 0, 0, 0, 0, 0, 0, 0, 0, 0, 0, 0, 0, 0, 0, 0, 0, 0, 0, 0, 0,
    0, 0, 0, 0, 0, 0, 0, 0, 0, 0, 0, 0, 0, 0, 0, 0, 0, 0, 0, 0, 0, 0, 0, 0, 0, 0, 0, 0, 0, 0, 0, 0,
    0, 0, 0, 0, 0, 0, 0, 0, 0, 0, 0, 0, 0, 0, 0, 0,
];

/// The word that an SLP1 text spells, one byte a letter. `NotLetter` at the first byte that spells no letter, places
/// counted in bytes from 0. The table is that of SLP1 (Scharf and Hyman).
pub fn read_slp1(alloc: Global, text: &[u8]) -> Result<Word, SpellError>
    requires { length text.now < 2 ^ 32 }
    ensures ok { IfOk result (λ word. word_of_slp1 text.now ≡ Ok word) }
    ensures fault { IfErr result (λ error. IsFaultOf error (word_of_slp1 text.now)) }
{
    read_bytes(alloc, &CODES, text)
}

/// The word that an SLP1 text spells, as `read_slp1` reads it, in the memory of another word.
pub fn read_slp1_over(word: Word, text: &[u8]) -> Result<Word, SpellError>
    requires { length text.now < 2 ^ 32 }
    ensures ok { IfOk result (λ word. word_of_slp1 text.now ≡ Ok word) }
    ensures fault { IfErr result (λ error. IsFaultOf error (word_of_slp1 text.now)) }
{
    read_bytes_over(word, &CODES, text)
}

/// The word that the first bytes of a text spell in SLP1, in the memory of another word, up to the first byte that spells no letter;
/// and how many these bytes are. Refused only for want of memory.
pub fn read_slp1_front_over(word: Word, text: &[u8]) -> Result<(Word, usize), Memory>
    ensures within { IfOk result (λ front. front.1 ≤ length text.now) }
    ensures spelled { IfOk result (λ front. word_of_slp1 (take front.1 text.now) ≡ Ok front.0) }
    ensures longest { IfOk result (λ front. front.1 < length text.now → letter_of_byte slp1_table (slice_index text.now front.1) ≡ None) }
{
    read_front_over(word, &CODES, text)
}

/// The SLP1 spelling of a word, one byte a letter.
#[tactic(auto, unfolding(text_definitions::specs::Slp1::slp1_of_word, text_definitions::specs::Slp1::slp1_table))]
pub fn print_slp1(alloc: Global, word: &Word) -> Result<String, Memory>
    ensures ok { IfOk result (λ text. string_bytes text ≡ slp1_of_word word.now) }
{
    print_bytes(alloc, &BYTES, word)
}

/// Appends the SLP1 spelling of a word, one byte a letter. Refused only for want of memory.
#[tactic(auto, unfolding(text_definitions::specs::Slp1::slp1_of_word, text_definitions::specs::Slp1::slp1_table))]
pub fn push_slp1(output: &mut Vec<u8>, word: &Word) -> Result<(), Memory>
    ensures ok { OnOk result (output.new.items ≡ output.old.items ++ slp1_of_word word.now) }
{
    push_bytes(output, &BYTES, word)
}
