ghost use Rattle.std.specs.Prelude.{◌≡◌, ◌<◌, [], length, slice_index_or, IfOk, OnOk};
ghost use Rattle.demo_definitions.specs.declared.limits.TheConstants.{TEXT_WORDS as TEXT_WORDS_NUMBER};
ghost use Rattle.demo_definitions.specs.Draws.{seed_after};
ghost use Rattle.demo_definitions.specs.DrawnTexts.{begins_voiced as begins_voiced_of, endings, word_drawn, with_word, text_drawn};

use crate::draws::Draws;
use crate::stems::StemText;
use demo_definitions::TEXT_WORDS;
use phoneme::Memory;
use std::alloc::Global;

/// The endings of the first four rows of the table.
const ENDINGS: [&[u8]; 4] = [b"aH", b"ena", b"Aya", b"e"];

/// One of the endings, by its number from 0.
fn ending_at(number: usize) -> &'static [u8]
    requires { number < 4 }
    ensures { result.now ≡ slice_index_or endings number [] }
{
    ENDINGS[number]
}

/// A word: one of the stems without its last letter, and one of the endings.
fn draw_word(alloc: Global, draws: &mut Draws, stems: &[StemText]) -> Result<Vec<u8>, Memory>
    requires { 0 < length stems.now }
    ensures word { IfOk result (λ word. word.items ≡ word_drawn stems.now draws.old) }
    ensures seed { OnOk result (draws.new ≡ seed_after draws.old 2) }
{
    let stem = stems[draws.draw(stems.len())];
    let mut word = Vec::from_slice(alloc, &stem[..5])?;
    word.extend_from_slice(ending_at(draws.draw(ENDINGS.len())))?;
    Ok(word)
}

/// Whether the word begins with a letter before which `aH` becomes `o`.
fn begins_voiced(word: &[u8]) -> bool
    ensures { result ≡ begins_voiced_of word.now }
{
    match word.first() {
        None => false,
        Some(letter) => b"gjdbmy".contains(letter),
    }
}

/// Appends a word. `aH` at the end of the text becomes `o` before a voiced consonant.
fn push_word(text: &mut Vec<u8>, word: &[u8]) -> Result<(), Memory>
    ensures ok { OnOk result (text.new.items ≡ with_word text.old.items word.now) }
{
    if text.as_slice().ends_with(b"aH") && begins_voiced(word) {
        text.truncate(text.len() - 2);
        text.push(b'o')?;
    }
    text.extend_from_slice(word)?;
    Ok(())
}

/// The text of `TEXT_WORDS` words that are drawn.
pub(crate) fn draw_text(
    alloc: Global,
    draws: &mut Draws,
    stems: &[StemText],
) -> Result<Vec<u8>, Memory>
    requires { 0 < length stems.now }
    ensures ok { IfOk result (λ text. text.items ≡ text_drawn stems.now draws.old TEXT_WORDS_NUMBER) }
{
    let mut text = Vec::new(alloc);
    for _ in 0..TEXT_WORDS {
        let word = draw_word(alloc, draws, stems)?;
        push_word(&mut text, word.as_slice())?;
    }
    Ok(text)
}
