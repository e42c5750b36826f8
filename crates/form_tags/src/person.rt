ghost use Rattle.std.specs.Prelude.{◌≡◌, ◌↔◌, IsSome, IfSome};
ghost use Rattle.lexicon_definitions.specs.Tags.{IsOneOf, persons};
ghost use Rattle.form_tags.specs.Ranks.{rank_among};
ghost use Rattle.form_tags.specs.TagTexts.{person_text};

/// First, second, third person.
#[derive(Clone, Copy, PartialEq, Eq, Hash)]
pub enum Person {
    First,
    Second,
    Third,
}

impl Person {
    /// What stands for it in a tag's text.
    pub fn text(self) -> &'static str
        ensures { result.now ≡ person_text self }
    {
        match self {
            Person::First => "1",
            Person::Second => "2",
            Person::Third => "3",
        }
    }

    /// The place of its text among the texts of all of these, in the order of their bytes.
    pub(crate) fn rank(self) -> u8
        ensures { result ≡ rank_among persons (person_text self) }
    {
        match self {
            Person::First => 0,
            Person::Second => 1,
            Person::Third => 2,
        }
    }

    pub(crate) fn read(text: &[u8]) -> Option<Person>
        ensures some { IsSome result ↔ IsOneOf persons text.now }
        ensures value { IfSome result (λ person. person_text person ≡ text.now) }
    {
        match text {
            b"1" => Some(Person::First),
            b"2" => Some(Person::Second),
            b"3" => Some(Person::Third),
            _ => None,
        }
    }
}
