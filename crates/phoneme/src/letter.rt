ghost use Rattle.std.specs.Prelude.{◌≡◌, ◌↔◌, IsSome, IfSome, IsTrue};
ghost use Rattle.text_definitions.specs.Letters.{IsLetter, IsVowel};
ghost use Rattle.phoneme.specs.Groups.{IsInGroup};

use super::Group;
use std::marker::Model;

/// One of the fifty letters, by its code from 1 to 50 (SLP1's letters, in the order of the alphabet).
#[derive(Clone, Copy, PartialEq, Eq, PartialOrd, Ord, Hash)]
pub struct Letter {
    code: u8,
}

impl Model for Letter {
    ghost use Rattle.std.specs.Prelude.{ℕ};
    ghost use Rattle.text_definitions.specs.Letters.{IsLetter};

    ghost Value = { ℕ };

    ghost view = { λ l. l.code };

    ghost invariant = { λ l. IsLetter l.code };

    ghost inverse = { λ n. record { code = n } };
}

impl Letter {
    /// The letter with the code `n`. `None` where `n` is not from 1 to 50.
    pub fn new(n: u8) -> Option<Letter>
        ensures some { IsSome result ↔ IsLetter n }
        ensures value { IfSome result (λ letter. letter ≡ n) }
    {
        if (1..=50).contains(&n) {
            Some(Letter { code: n })
        } else {
            None
        }
    }

    /// The letter's code, from 1 to 50.
    pub fn code(self) -> u8
        ensures value { result ≡ self }
        ensures letter { IsLetter self }
    {
        self.code
    }

    /// Whether the letter is a vowel: a code from 1 to 13.
    pub fn is_vowel(self) -> bool
        ensures { IsTrue result ↔ IsVowel self }
    {
        self.code <= 13
    }

    /// The group of the letter, by the ranges of codes that the groups have.
    pub fn group(self) -> Group
        ensures { IsInGroup self result }
    {
        match self.code {
            ..=13 => Group::Vowel,
            14..=16 => Group::Mark,
            17..=21 => Group::Guttural,
            22..=26 => Group::Palatal,
            27..=31 => Group::Lingual,
            32..=36 => Group::Dental,
            37..=41 => Group::Labial,
            42..=45 => Group::Semivowel,
            46..=48 => Group::Sibilant,
            49 => Group::Breath,
            _ => Group::Avagraha,
        }
    }
}
