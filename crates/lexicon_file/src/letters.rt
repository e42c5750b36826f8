ghost use Rattle.std.specs.Prelude.{◌≡◌};
ghost use Rattle.text_definitions.specs.Spellings.{letter_of_byte};
ghost use Rattle.text_definitions.specs.Slp1.{slp1_table, word_of_slp1};
ghost use Rattle.lexicon_text_definitions.specs.FileSteps.{one_letter};

use phoneme::Letter;

/// The bytes of the fifty letters in SLP1, by code from 1 (Scharf and Hyman).
static SLP1: [u8; 50] = *b"aAiIuUfFxeEoOM~HkKgGNcCjJYwWqQRtTdDnpPbBmyrlvSzsh'";

/// The letter that the byte spells in SLP1.
fn letter_of(byte: u8) -> Option<Letter>
    ensures { result ≡ letter_of_byte slp1_table byte }
{
    let Some(place) = SLP1.iter().position(|letter| *letter == byte) else {
        return None;
    };
    Letter::new(place as u8 + 1)
}

/// The one letter that the text spells in SLP1. Takes no memory.
pub(crate) fn read_letter(text: &[u8]) -> Option<Letter>
    ensures { result ≡ one_letter (word_of_slp1 text.now) }
{
    if text.len() != 1 {
        return None;
    }
    letter_of(text[0])
}
