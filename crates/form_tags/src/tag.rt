ghost use Rattle.std.specs.Prelude.{Some};

use super::{Case, Gender, Number, Person, Tense, Voice};
use std::fmt;

/// What an inflected form is, as Huet's lexicons of forms tell it: of a noun, of a verb, or a form that is not
/// inflected. Which of these there are, and how they are written, is this project's own choice.
#[derive(Clone, Copy, PartialEq, Eq, Hash)]
pub enum Tag {
    Nominal {
        gender: Gender,
        number: Number,
        gcase: Case,
    },
    Verbal {
        tense: Tense,
        voice: Voice,
        person: Person,
        number: Number,
    },
    /// A stem before another in a compound.
    Iic,
    /// A preverb.
    Pv,
    /// A word without endings.
    Ind,
}

impl fmt::Display for Tag {
    ghost use Rattle.form_tags.specs.TagTexts.{tag_text};

    ghost output = { λ tag. Some (tag_text tag) };

    fn fmt<W: fmt::Write>(&self, f: &mut fmt::Formatter<W>) -> fmt::Result {
        match self {
            Tag::Nominal {
                gender,
                number,
                gcase,
            } => write!(f, "{}.{}.{}", gender.text(), number.text(), gcase.text()),
            Tag::Verbal {
                tense,
                voice,
                person,
                number,
            } => write!(
                f,
                "{}.{}.{}.{}",
                tense.text(),
                voice.text(),
                person.text(),
                number.text()
            ),
            Tag::Iic => write!(f, "iic"),
            Tag::Pv => write!(f, "pv"),
            Tag::Ind => write!(f, "ind"),
        }
    }
}
