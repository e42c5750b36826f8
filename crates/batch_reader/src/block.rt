ghost use Rattle.std.specs.Prelude.{◌+◌, ◌^◌, ◌<◌, length, IfOk};
ghost use Rattle.text_line.specs.Values.{scheme_of};
ghost use Rattle.batch_reader.specs.Blocks.{AskForReplies, HasCutBlock};

use super::asked::{Asked, Portion, TextLine};
use form_file::first_line;
use phoneme::Memory;
use std::alloc::Global;
use text_line::Scheme;

/// A block has at least this many lines of the text, where the text has so many left.
const FEWEST_LINES: usize = 64;

/// The lines of a block that has more have at most this many letters together, as many as their bytes can spell. A line without bytes
/// counts as one letter.
const MOST_LETTERS: usize = 65_536;

/// A block is cut into at most so many portions, each of which one worker answers. Where it has fewer lines, each is a portion.
const MOST_PORTIONS: usize = 256;

/// The most letters that so many bytes spell: one for each byte, or in Devanagari two for the three bytes of a consonant.
fn most_letters(scheme: Scheme, bytes: usize) -> usize {
    match scheme {
        Scheme::Slp1 | Scheme::Wx | Scheme::Velthuis => bytes,
        Scheme::Devanagari => bytes - bytes / 3,
    }
}

/// Cuts off the first lines of the bytes, as many as a block may have, and gives the bytes after them.
pub(crate) fn cut_block(
    alloc: Global,
    scheme: Scheme,
    bytes: &[u8],
) -> Result<(Vec<TextLine<'_>>, &[u8]), Memory>
    requires { length bytes.now < 2 ^ 32 }
    ensures { IfOk result (λ cut. HasCutBlock (scheme_of scheme) bytes.now cut.0.items cut.1.now) }
{
    let mut block = Vec::new(alloc);
    let mut room = MOST_LETTERS;
    let mut rest = bytes;
    while let Some((line, _ended, following)) = first_line(rest) {
        let letters = most_letters(scheme, line.len()).max(1);
        if block.len() >= FEWEST_LINES && letters > room {
            return Ok((block, rest));
        }
        block.push(TextLine {
            scheme,
            bytes: line,
        })?;
        room = room.saturating_sub(letters);
        rest = following;
    }
    Ok((block, rest))
}

/// The lines of a block, in portions that are as long as each other but for the last. The first line has this number.
pub(crate) fn cut_portions<'a>(
    alloc: Global,
    number: u64,
    lines: &'a [TextLine<'a>],
) -> Result<Vec<Asked<'a>>, Memory>
    requires { number + length lines.now < 2 ^ 64 }
    ensures { IfOk result (λ asked. AskForReplies number lines.now asked.items) }
{
    let most = lines.len() / MOST_PORTIONS + 1;
    let mut asked = Vec::new(alloc);
    let mut next = number;
    let mut left = lines;
    while !left.is_empty() {
        let count = most.min(left.len());
        let portion = Portion {
            number: next,
            lines: &left[..count],
        };
        asked.push(Asked::Portion(portion))?;
        next += count as u64;
        left = &left[count..];
    }
    Ok(asked)
}
