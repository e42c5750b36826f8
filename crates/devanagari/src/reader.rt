ghost use Rattle.std.specs.Prelude.{◌≡◌, ◌+◌, if◌then◌else◌, ℕ, List, [], ◌∷◌, ◌++◌, Ok, length, false, encode_utf8, OnOk, IfOk, IfErr};
ghost use Rattle.text_definitions.specs.Spellings.{with_front};
ghost use Rattle.text_definitions.specs.Devanagari.{is_consonant, close_with_a, word_of_points};
ghost use Rattle.latin_schemes.specs.Faults.{IsFaultOf};

use super::point::{Point, point_of};
use latin_schemes::{SpellError, SpellFault};
use phoneme::{Group, Letter, Memory, Word};
use std::alloc::Global;

/// The code of the letter a.
const A: u8 = 1;

/// A word that is being read: the letters so far, and whether the last one is a consonant that has no vowel yet.
#[derive(Drop)]
pub struct Reader {
    pub word: Word,
    pub bare: bool,
}

impl Reader {
    /// Nothing read yet. Takes no memory.
    pub fn new(alloc: Global) -> Reader
        ensures word { result.word ≡ [] }
        ensures bare { result.bare ≡ false }
    {
        Reader {
            word: Word::new(alloc),
            bare: false,
        }
    }

    /// Reads the code point that begins at the byte `at`. What it and the rest of a text spell is what was read, and
    /// then what the rest spells.
    pub fn take(&mut self, at: u32, point: char) -> Result<(), SpellError>
        ensures ok { let next = at + length (encode_utf8 point) in
            OnOk result ((rest : List ℕ) → with_front self.new.word (word_of_points next self.new.bare rest)
            ≡ with_front self.old.word (word_of_points at self.old.bare (point ∷ rest))) }
        ensures fault { IfErr result (λ error. (rest : List ℕ) →
            IsFaultOf error (with_front self.old.word (word_of_points at self.old.bare (point ∷ rest)))) }
    {
        match point_of(point) {
            Point::Joiner => Ok(()),
            Point::Letter(letter) => {
                self.push_a_if_bare()?;
                self.word.push(letter)?;
                self.bare = is_consonant(letter);
                Ok(())
            }
            Point::Sign(vowel) if self.bare => {
                self.word.push(vowel)?;
                self.bare = false;
                Ok(())
            }
            Point::Virama if self.bare => {
                self.bare = false;
                Ok(())
            }
            Point::Sign(_) | Point::Virama => Err(SpellFault::LoneSign { at }.into()),
            Point::Foreign => Err(SpellFault::NotLetter { at }.into()),
        }
    }

    /// The word, where the text ends here.
    pub fn finish(mut self) -> Result<Word, Memory>
        ensures ok { IfOk result (λ word. with_front self.word (close_with_a self.bare (Ok [])) ≡ Ok word) }
    {
        self.push_a_if_bare()?;
        Ok(self.word)
    }

    /// Gives the last consonant its vowel `a`, where it has no vowel yet.
    fn push_a_if_bare(&mut self) -> Result<(), Memory>
        ensures ok { OnOk result (self.new.word ≡ (if self.old.bare then self.old.word ++ 1 ∷ [] else self.old.word)) }
        ensures bare { self.new.bare ≡ self.old.bare }
    {
        if self.bare {
            let a = Letter::new(A).unwrap();
            self.word.push(a)?;
        }
        Ok(())
    }
}

/// Whether the letter is a consonant: any but a vowel, a mark or the avagraha.
pub fn is_consonant(letter: Letter) -> bool
    ensures value { result ≡ is_consonant letter }
{
    !matches!(letter.group(), Group::Vowel | Group::Mark | Group::Avagraha)
}
