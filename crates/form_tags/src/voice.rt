ghost use Rattle.std.specs.Prelude.{◌≡◌, ◌↔◌, IsSome, IfSome};
ghost use Rattle.lexicon_definitions.specs.Tags.{IsOneOf, voices};
ghost use Rattle.form_tags.specs.Ranks.{rank_among};
ghost use Rattle.form_tags.specs.TagTexts.{voice_text};

/// Active, middle, passive.
#[derive(Clone, Copy, PartialEq, Eq, Hash)]
pub enum Voice {
    Ac,
    Md,
    Ps,
}

impl Voice {
    /// What stands for it in a tag's text.
    pub fn text(self) -> &'static str
        ensures { result.now ≡ voice_text self }
    {
        match self {
            Voice::Ac => "ac",
            Voice::Md => "md",
            Voice::Ps => "ps",
        }
    }

    /// The place of its text among the texts of all of these, in the order of their bytes.
    pub(crate) fn rank(self) -> u8
        ensures { result ≡ rank_among voices (voice_text self) }
    {
        match self {
            Voice::Ac => 0,
            Voice::Md => 1,
            Voice::Ps => 2,
        }
    }

    pub(crate) fn read(text: &[u8]) -> Option<Voice>
        ensures some { IsSome result ↔ IsOneOf voices text.now }
        ensures value { IfSome result (λ voice. voice_text voice ≡ text.now) }
    {
        match text {
            b"ac" => Some(Voice::Ac),
            b"md" => Some(Voice::Md),
            b"ps" => Some(Voice::Ps),
            _ => None,
        }
    }
}
