ghost use Rattle.std.specs.Prelude.{◌≡◌, ◌++◌, OnOk};
ghost use Rattle.text_definitions.specs.Words.{IsWord};
ghost use Rattle.text_definitions.specs.Slp1.{slp1_of_word};

use phoneme::{Letter, Memory};

/// The byte of each letter in SLP1, by code from 1.
static BYTES: [u8; 50] = *b"aAiIuUfFxeEoOM~HkKgGNcCjJYwWqQRtTdDnpPbBmyrlvSzsh'";

/// Appends the letters in SLP1, one byte each.
#[tactic(auto, unfolding(text_definitions::specs::Slp1::slp1_of_word, text_definitions::specs::Slp1::slp1_table))]
pub fn push_letters(out: &mut Vec<u8>, letters: &[Letter]) -> Result<(), Memory>
    ensures ok { OnOk result (out.new.items ≡ out.old.items ++ slp1_of_word letters.now) }
{
    for letter in letters {
        out.push(BYTES[letter.code() as usize - 1])?;
    }
    Ok(())
}
