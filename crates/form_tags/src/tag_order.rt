ghost use Rattle.std.specs.Prelude.{◌≡◌};
ghost use Rattle.std.specs.Ordering.{nat_cmp};
ghost use Rattle.std.specs.Cmp.Lexicographic.{slice_cmp};
ghost use Rattle.form_tags.specs.TagTexts.{tag_text};
ghost use Rattle.form_tags.specs.TagWords.{tag_words};

use super::Tag;
use std::cmp::Ordering;

impl Tag {
    /// The order of tags: that of their texts, byte by byte. Takes no memory.
    pub fn compare(&self, other: &Tag) -> Ordering
        ensures { result ≡ slice_cmp nat_cmp (tag_text self.now) (tag_text other.now) }
    {
        // A dot is below every byte of a word, so texts are ordered as their words are, and these as their ranks.
        match (self, other) {
            (
                Tag::Nominal {
                    gender,
                    number,
                    gcase,
                },
                Tag::Nominal {
                    gender: other_gender,
                    number: other_number,
                    gcase: other_gcase,
                },
            ) => (gender.rank(), number.rank(), gcase.rank()).cmp(&(
                other_gender.rank(),
                other_number.rank(),
                other_gcase.rank(),
            )),
            (
                Tag::Verbal {
                    tense,
                    voice,
                    person,
                    number,
                },
                Tag::Verbal {
                    tense: other_tense,
                    voice: other_voice,
                    person: other_person,
                    number: other_number,
                },
            ) => (tense.rank(), voice.rank(), person.rank(), number.rank()).cmp(&(
                other_tense.rank(),
                other_voice.rank(),
                other_person.rank(),
                other_number.rank(),
            )),
            _ => self.words().cmp(&other.words()),
        }
    }

    fn words(&self) -> (&'static str, &'static str, &'static str, &'static str)
        ensures { (result.0.now, result.1.now, result.2.now, result.3.now) ≡ tag_words self.now }
    {
        match self {
            Tag::Nominal {
                gender,
                number,
                gcase,
            } => (gender.text(), number.text(), gcase.text(), ""),
            Tag::Verbal {
                tense,
                voice,
                person,
                number,
            } => (tense.text(), voice.text(), person.text(), number.text()),
            Tag::Iic => ("iic", "", "", ""),
            Tag::Pv => ("pv", "", "", ""),
            Tag::Ind => ("ind", "", "", ""),
        }
    }
}
