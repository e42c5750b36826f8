ghost use Rattle.std.specs.Prelude.{◌≡◌, ◌↔◌, IsSome, IfSome};
ghost use Rattle.lexicon_definitions.specs.Tags.{IsOneOf, numbers};
ghost use Rattle.form_tags.specs.Ranks.{rank_among};
ghost use Rattle.form_tags.specs.TagTexts.{number_text};

/// Singular, dual, plural.
#[derive(Clone, Copy, PartialEq, Eq, Hash)]
pub enum Number {
    Sg,
    Du,
    Pl,
}

impl Number {
    /// What stands for it in a tag's text.
    pub fn text(self) -> &'static str
        ensures { result.now ≡ number_text self }
    {
        match self {
            Number::Sg => "sg",
            Number::Du => "du",
            Number::Pl => "pl",
        }
    }

    /// The place of its text among the texts of all of these, in the order of their bytes.
    pub(crate) fn rank(self) -> u8
        ensures { result ≡ rank_among numbers (number_text self) }
    {
        match self {
            Number::Sg => 2,
            Number::Du => 0,
            Number::Pl => 1,
        }
    }

    pub(crate) fn read(text: &[u8]) -> Option<Number>
        ensures some { IsSome result ↔ IsOneOf numbers text.now }
        ensures value { IfSome result (λ number. number_text number ≡ text.now) }
    {
        match text {
            b"sg" => Some(Number::Sg),
            b"du" => Some(Number::Du),
            b"pl" => Some(Number::Pl),
            _ => None,
        }
    }
}
