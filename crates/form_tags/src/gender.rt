ghost use Rattle.std.specs.Prelude.{◌≡◌, ◌↔◌, IsSome, IfSome};
ghost use Rattle.lexicon_definitions.specs.Tags.{IsOneOf, genders};
ghost use Rattle.form_tags.specs.Ranks.{rank_among};
ghost use Rattle.form_tags.specs.TagTexts.{gender_text};

/// Masculine, feminine, neuter.
#[derive(Clone, Copy, PartialEq, Eq, Hash)]
pub enum Gender {
    M,
    F,
    N,
}

impl Gender {
    /// What stands for it in a tag's text.
    pub fn text(self) -> &'static str
        ensures { result.now ≡ gender_text self }
    {
        match self {
            Gender::M => "m",
            Gender::F => "f",
            Gender::N => "n",
        }
    }

    /// The place of its text among the texts of all of these, in the order of their bytes.
    pub(crate) fn rank(self) -> u8
        ensures { result ≡ rank_among genders (gender_text self) }
    {
        match self {
            Gender::M => 1,
            Gender::F => 0,
            Gender::N => 2,
        }
    }

    pub(crate) fn read(text: &[u8]) -> Option<Gender>
        ensures some { IsSome result ↔ IsOneOf genders text.now }
        ensures value { IfSome result (λ gender. gender_text gender ≡ text.now) }
    {
        match text {
            b"m" => Some(Gender::M),
            b"f" => Some(Gender::F),
            b"n" => Some(Gender::N),
            _ => None,
        }
    }
}
