ghost use Rattle.std.specs.Prelude.{◌≡◌, ◌↔◌, ◌<◌, All, IsTrue, IsSome, IfSome};
ghost use Rattle.std.specs.List.Sorted.{IsStrictlyIncreasing};
ghost use Rattle.text_definitions.specs.Lines.{IsLine};

use super::Word;
use std::marker::Model;
use text_definitions::MOST_LINE_LETTERS;

/// A line of text: 1 to `MOST_LINE_LETTERS` letters, and the places of its blanks. A blank at place `b` stands between
/// the letters `b - 1` and `b`, counted from 0; the places rise and lie strictly inside the word (own).
#[derive(Drop)]
pub struct Line {
    pub letters: Word,
    pub blanks: Vec<u32>,
}

impl Model for Line {
    ghost use Rattle.text_definitions.specs.Lines.{Line as LineValue, IsLine};

    ghost Value = { LineValue };

    ghost view = { λ l. record { letters = l.letters; blanks = l.blanks.items } };

    ghost invariant = { λ l. IsLine (record { letters = l.letters; blanks = l.blanks.items }) };
}

impl Line {
    /// The line with these letters and these places of blanks. `None` where they make no line.
    pub fn new(letters: Word, blanks: Vec<u32>) -> Option<Line>
        ensures some { IsSome result ↔ IsLine (record { letters = letters; blanks = blanks.items }) }
        ensures value { IfSome result (λ line. line ≡ record { letters = letters; blanks = blanks.items }) }
    {
        let len = letters.len();
        if len == 0 || len > MOST_LINE_LETTERS || !rise_inside(blanks.as_slice(), len) {
            return None;
        }
        Some(Line { letters, blanks })
    }
}

/// Whether the places rise and lie strictly inside a word of `len` letters.
fn rise_inside(places: &[u32], len: usize) -> bool
    ensures { IsTrue result ↔ IsStrictlyIncreasing places.now × All (λ place. (0 < place) × (place < len)) places.now }
{
    let mut last = 0;
    for place in places {
        if *place <= last || *place as usize >= len {
            return false;
        }
        last = *place;
    }
    true
}
