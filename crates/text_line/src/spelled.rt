ghost use Rattle.std.specs.Prelude.{◌≡◌, ◌+◌, ◌^◌, ◌<◌, ◌≤◌, List, ◌∷◌, length, Ok, OnOk, IfOk, IfErr};
ghost use Rattle.text_definitions.specs.Schemes as schemes;
ghost use Rattle.text_definitions.specs.LineTexts.{Part, Piece, line_within_limits, with_word, fault_from};
ghost use Rattle.latin_schemes.specs.Faults.{fault_of};
ghost use Rattle.text_line.specs.Values.{scheme_of, IsLineFaultOf, FitsFrom};
ghost use Rattle.text_line.specs.Pieces.{line_after, empty_line};

use super::{LineError, Scheme};
use latin_schemes::{SpellError, SpellFault};
use phoneme::{Line, Memory, Word};
use std::alloc::Global;
use std::marker::Model;
use text_definitions::MOST_LINE_LETTERS;

/// The letters and blanks that were read so far. Once there are too many letters for a line, no more are kept.
#[derive(Drop)]
pub struct Spelled {
    letters: Word,
    blanks: Vec<u32>,
}

impl Model for Spelled {
    ghost use Rattle.text_definitions.specs.Lines.{Line as LineValue};
    ghost use Rattle.text_definitions.specs.LineTexts.{IsBegun};

    ghost Value = { LineValue };

    ghost view = { λ s. record { letters = s.letters; blanks = s.blanks.items } };

    ghost invariant = { λ s. IsBegun s.letters s.blanks.items };
}

impl Spelled {
    /// Nothing read yet, with room for as many letters as a text of so many bytes can have in a line. Refused only for want of memory.
    pub fn new(alloc: Global, bytes: usize) -> Result<Spelled, Memory>
        ensures { IfOk result (λ spelled. spelled ≡ empty_line) }
    {
        Ok(Spelled {
            letters: Word::with_capacity(alloc, bytes.min(MOST_LINE_LETTERS))?,
            blanks: Vec::new(alloc),
        })
    }

    /// Reads a piece that begins at the byte `at`.
    pub fn read_piece(
        &mut self,
        alloc: Global,
        scheme: Scheme,
        at: usize,
        piece: &[u8],
    ) -> Result<(), LineError>
        requires { at + length piece.now < 2 ^ 32 }
        ensures ok { OnOk result ((parts : List Part) →
            line_after (scheme_of scheme) self.new parts
            ≡ line_after (scheme_of scheme) self.old (Piece at piece.now ∷ parts)) }
        ensures fault { IfErr result (λ error. (parts : List Part) → IsLineFaultOf error
            (line_after (scheme_of scheme) self.old (Piece at piece.now ∷ parts))) }
    {
        match scheme.read_word(alloc, piece) {
            Ok(word) => Ok(self.add_word(&word)?),
            Err(SpellError::Fault(fault)) => Err(LineError::Spell(moved(fault, at))),
            Err(SpellError::Memory) => Err(LineError::Memory),
        }
    }

    /// Adds a word to what was read.
    fn add_word(&mut self, word: &Word) -> Result<(), Memory>
        ensures ok { OnOk result ((scheme : schemes.Scheme) → (parts : List Part) →
            line_after scheme self.new parts ≡ line_after scheme (with_word self.old word.now) parts) }
    {
        if self.letters.as_slice().len() > MOST_LINE_LETTERS {
            return Ok(());
        }
        self.push_word(word)
    }

    /// Appends the letters of a word, with a blank between letters and letters.
    fn push_word(&mut self, word: &Word) -> Result<(), Memory>
        requires { length self.old.letters ≤ MOST_LINE_LETTERS }
        ensures ok { OnOk result (self.new ≡ with_word self.old word.now) }
    {
        let before = self.letters.as_slice().len();
        self.letters.extend_from_slice(word.as_slice())?;
        if before > 0 && !word.as_slice().is_empty() {
            self.blanks.push(before as u32)?;
        }
        Ok(())
    }

    /// The line, where the text ends here.
    pub fn into_line(self) -> Result<Line, LineError>
        ensures ok { IfOk result (λ line. line_within_limits (Ok self) ≡ Ok line) }
        ensures fault { IfErr result (λ error.
            IsLineFaultOf error (line_within_limits (Ok self))) }
    {
        let length = self.letters.as_slice().len();
        if length == 0 {
            Err(LineError::NoLetters)
        } else if length > MOST_LINE_LETTERS {
            Err(LineError::TooLong)
        } else {
            Ok(Line {
                letters: self.letters,
                blanks: self.blanks,
            })
        }
    }
}

/// The fault of a piece that begins at the byte `at`, with its place in the whole text.
fn moved(fault: SpellFault, at: usize) -> SpellFault
    requires { FitsFrom at fault }
    ensures value { fault_of result ≡ fault_from at (fault_of fault) }
{
    let from = at as u32;
    match fault {
        SpellFault::NotLetter { at } => SpellFault::NotLetter { at: from + at },
        SpellFault::LoneSign { at } => SpellFault::LoneSign { at: from + at },
        SpellFault::NotUtf8 { at } => SpellFault::NotUtf8 { at: from + at },
    }
}
