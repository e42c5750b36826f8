ghost use Rattle.std.specs.Prelude.{◌≡◌, ◌↔◌, IsSome, IfSome};
ghost use Rattle.lexicon_definitions.specs.Tags.{IsOneOf, tenses};
ghost use Rattle.form_tags.specs.Ranks.{rank_among};
ghost use Rattle.form_tags.specs.TagTexts.{tense_text};

/// Present, imperfect, imperative, optative, future, perfect, aorist.
#[derive(Clone, Copy, PartialEq, Eq, Hash)]
pub enum Tense {
    Pr,
    Impf,
    Imp,
    Opt,
    Fut,
    Perf,
    Aor,
}

impl Tense {
    /// What stands for it in a tag's text.
    pub fn text(self) -> &'static str
        ensures { result.now ≡ tense_text self }
    {
        match self {
            Tense::Pr => "pr",
            Tense::Impf => "impf",
            Tense::Imp => "imp",
            Tense::Opt => "opt",
            Tense::Fut => "fut",
            Tense::Perf => "perf",
            Tense::Aor => "aor",
        }
    }

    /// The place of its text among the texts of all of these, in the order of their bytes.
    pub(crate) fn rank(self) -> u8
        ensures { result ≡ rank_among tenses (tense_text self) }
    {
        match self {
            Tense::Pr => 6,
            Tense::Impf => 3,
            Tense::Imp => 2,
            Tense::Opt => 4,
            Tense::Fut => 1,
            Tense::Perf => 5,
            Tense::Aor => 0,
        }
    }

    pub(crate) fn read(text: &[u8]) -> Option<Tense>
        ensures some { IsSome result ↔ IsOneOf tenses text.now }
        ensures value { IfSome result (λ tense. tense_text tense ≡ text.now) }
    {
        match text {
            b"pr" => Some(Tense::Pr),
            b"impf" => Some(Tense::Impf),
            b"imp" => Some(Tense::Imp),
            b"opt" => Some(Tense::Opt),
            b"fut" => Some(Tense::Fut),
            b"perf" => Some(Tense::Perf),
            b"aor" => Some(Tense::Aor),
            _ => None,
        }
    }
}
