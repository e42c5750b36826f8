ghost use Rattle.std.specs.Prelude.{◌≡◌, ◌^◌, ◌<◌, Ok, length, IfOk, IfErr};
ghost use Rattle.text_definitions.specs.LineTexts.{line_of_text, parts_from};
ghost use Rattle.text_line.specs.Values.{scheme_of, IsLineFaultOf};
ghost use Rattle.text_line.specs.Pieces.{line_after, empty_line};

use super::front::{Front, front_of, piece_length};
use super::later_letter::has_letter;
use super::spelled::Spelled;
use super::{LineError, Scheme};
use latin_schemes::SpellFault;
use phoneme::Line;
use std::alloc::Global;

/// The line that a text spells in the scheme (own). Tabs, line ends, blanks, `|` and in Devanagari the dandas are gap
/// marks: a run of them between letters is one blank. Digits may stand after the last letter alone. Refused at the
/// first fault of spelling, whose place is counted in bytes from 0, else where there is no letter, or more than
/// `MOST_LINE_LETTERS`.
pub fn read_line(alloc: Global, scheme: Scheme, text: &[u8]) -> Result<Line, LineError>
    requires { length text.now < 2 ^ 32 }
    ensures ok { IfOk result (λ line. line_of_text (scheme_of scheme) text.now ≡ Ok line) }
    ensures fault { IfErr result (λ error. IsLineFaultOf error (line_of_text (scheme_of scheme) text.now)) }
{
    match scheme {
        Scheme::Slp1 | Scheme::Wx | Scheme::Velthuis => read_parts(alloc, scheme, text),
        Scheme::Devanagari => match std::str::from_utf8(text) {
            Ok(_) => read_parts(alloc, scheme, text),
            Err(error) => {
                let at = error.valid_up_to() as u32;
                Err(LineError::Spell(SpellFault::NotUtf8 { at }))
            }
        },
    }
}

/// The same of a text that is UTF-8 where it has to be.
fn read_parts(alloc: Global, scheme: Scheme, text: &[u8]) -> Result<Line, LineError>
    requires { length text.now < 2 ^ 32 }
    ensures ok { IfOk result (λ line.
        line_after (scheme_of scheme) empty_line (parts_from (scheme_of scheme) 0 0 text.now) ≡ Ok line) }
    ensures fault { IfErr result (λ error. IsLineFaultOf error
        (line_after (scheme_of scheme) empty_line (parts_from (scheme_of scheme) 0 0 text.now))) }
{
    let mut spelled = Spelled::new(alloc, text.len())?;
    let mut after_letters = false;
    let mut at = 0;
    while at < text.len() {
        match front_of(scheme, &text[at..]) {
            Front::Gap { length } => at += length,
            Front::Digit { length } => {
                if !after_letters && has_letter(alloc, scheme, &text[at + length..])? {
                    return Err(LineError::Spell(SpellFault::NotLetter { at: at as u32 }));
                }
                after_letters = true;
                at += length;
            }
            Front::Other => {
                let length = piece_length(scheme, &text[at..]);
                spelled.read_piece(alloc, scheme, at, &text[at..at + length])?;
                at += length;
            }
        }
    }
    spelled.into_line()
}
