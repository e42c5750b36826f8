ghost use Rattle.std.specs.Prelude.{◌≡◌, ◌^◌, ◌<◌, ◌≤◌, ◌++◌, ℕ, Ok, Some, None, length, map, take, slice_index, nat_lt, IsTrue, IfOk, IfErr, OnOk, string_bytes};
ghost use Rattle.std.specs.List.{list_all};
ghost use Rattle.text_definitions.specs.Spellings.{word_of_bytes, byte_of_letter};
ghost use Rattle.latin_schemes.specs.Faults.{IsFaultOf};
ghost use Rattle.latin_schemes.specs.Codes.{letter_by_code};

use super::{SpellError, SpellFault};
use phoneme::{Letter, Memory, Word};
use std::alloc::Global;

/// The word that the bytes spell, in the memory of another one, each byte being the letter with the code that `codes` has for it.
pub fn read_bytes_over(word: Word, codes: &[u8; 256], text: &[u8]) -> Result<Word, SpellError>
    requires { length text.now < 2 ^ 32 }
    ensures ok { IfOk result (λ word. word_of_bytes (letter_by_code codes.now) 0 text.now ≡ Ok word) }
    ensures fault { IfErr result (λ error. IsFaultOf error (word_of_bytes (letter_by_code codes.now) 0 text.now)) }
{
    let (word, count) = read_front_over(word, codes, text)?;
    if count < text.len() {
        return Err(SpellFault::NotLetter { at: count as u32 }.into());
    }
    Ok(word)
}

/// The word that the first bytes spell, in the memory of another one, up to the first byte for which `codes` has no letter, and how
/// many these bytes are.
pub fn read_front_over(word: Word, codes: &[u8; 256], text: &[u8]) -> Result<(Word, usize), Memory>
    ensures within { IfOk result (λ front. front.1 ≤ length text.now) }
    ensures spelled { IfOk result (λ front. map (letter_by_code codes.now) (take front.1 text.now) ≡ map (λ (letter : ℕ). Some letter) front.0) }
    ensures longest { IfOk result (λ front. front.1 < length text.now → letter_by_code codes.now (slice_index text.now front.1) ≡ None) }
{
    let mut word = word;
    word.clear();
    for (at, byte) in text.iter().enumerate() {
        match Letter::new(codes[*byte as usize]) {
            Some(letter) => word.push(letter)?,
            None => return Ok((word, at)),
        }
    }
    Ok((word, text.len()))
}

/// The word that the bytes spell, each being the letter with the code that `codes` has for it.
pub fn read_bytes(alloc: Global, codes: &[u8; 256], text: &[u8]) -> Result<Word, SpellError>
    requires { length text.now < 2 ^ 32 }
    ensures ok { IfOk result (λ word. word_of_bytes (letter_by_code codes.now) 0 text.now ≡ Ok word) }
    ensures fault { IfErr result (λ error. IsFaultOf error (word_of_bytes (letter_by_code codes.now) 0 text.now)) }
{
    let word = Word::with_capacity(alloc, text.len())?;
    read_bytes_over(word, codes, text)
}

/// Appends the byte that the table has for each letter of the word. Refused only for want of memory.
pub fn push_bytes(output: &mut Vec<u8>, bytes: &[u8; 50], word: &Word) -> Result<(), Memory>
    ensures ok { OnOk result (output.new.items ≡ output.old.items ++ map (byte_of_letter bytes.now) word.now) }
{
    output.reserve(word.len())?;
    for letter in word.as_slice() {
        output.push(bytes[letter.code() as usize - 1])?;
    }
    Ok(())
}

/// The byte that the table has for each letter of the word.
pub fn print_bytes(alloc: Global, bytes: &[u8; 50], word: &Word) -> Result<String, Memory>
    requires { IsTrue (list_all (λ byte. nat_lt byte 128) bytes.now) }
    ensures ok { IfOk result (λ text. string_bytes text ≡ map (byte_of_letter bytes.now) word.now) }
{
    let mut text = String::with_capacity(alloc, word.len())?;
    for letter in word.as_slice() {
        text.push(char::from(bytes[letter.code() as usize - 1]))?;
    }
    Ok(text)
}
