ghost use Rattle.std.specs.Prelude.{◌≡◌, ◌↔◌, ℕ, List, ◌∷◌, IsSome, IfSome};
ghost use Rattle.lexicon_definitions.specs.Tags.{IsOneOf, cases};
ghost use Rattle.form_tags.specs.Ranks.{rank_among};
ghost use Rattle.form_tags.specs.TagTexts.{case_text};

/// Nominative, accusative, instrumental, dative, ablative, genitive, locative, vocative.
#[derive(Clone, Copy, PartialEq, Eq, Hash)]
pub enum Case {
    Nom,
    Acc,
    Ins,
    Dat,
    Abl,
    Gen,
    Loc,
    Voc,
}

impl Case {
    /// What stands for it in a tag's text.
    pub fn text(self) -> &'static str
        ensures { result.now ≡ case_text self }
    {
        match self {
            Case::Nom => "nom",
            Case::Acc => "acc",
            Case::Ins => "ins",
            Case::Dat => "dat",
            Case::Abl => "abl",
            Case::Gen => "gen",
            Case::Loc => "loc",
            Case::Voc => "voc",
        }
    }

    /// The place of its text among the texts of all of these, in the order of their bytes.
    pub(crate) fn rank(self) -> u8
        ensures { result ≡ rank_among cases (case_text self) }
    {
        match self {
            Case::Nom => 6,
            Case::Acc => 1,
            Case::Ins => 4,
            Case::Dat => 2,
            Case::Abl => 0,
            Case::Gen => 3,
            Case::Loc => 5,
            Case::Voc => 7,
        }
    }

    /// The one case whose text may begin with these two bytes. One number tells it, so that `read` compares with one
    /// text: which of eight texts it will be is what a processor guesses wrongly.
    fn begun_by(first: u8, second: u8) -> Case
        ensures { (gcase : Case) (rest : List ℕ) → case_text gcase ≡ first ∷ second ∷ rest → result ≡ gcase }
    {
        let sum = 5 * u32::from(first) + 4 * u32::from(second);
        match sum / 8 % 8 {
            0 => Case::Ins,
            1 => Case::Voc,
            2 => Case::Gen,
            3 => Case::Loc,
            4 => Case::Nom,
            5 => Case::Abl,
            6 => Case::Acc,
            _ => Case::Dat,
        }
    }

    pub(crate) fn read(text: &[u8]) -> Option<Case>
        ensures some { IsSome result ↔ IsOneOf cases text.now }
        ensures value { IfSome result (λ case. case_text case ≡ text.now) }
    {
        let [first, second, _] = text else {
            return None;
        };
        let gcase = Case::begun_by(*first, *second);
        if gcase.text().as_bytes() == text {
            Some(gcase)
        } else {
            None
        }
    }
}
