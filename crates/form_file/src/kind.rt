ghost use Rattle.std.specs.Prelude.{◌≡◌, MatchOption, None, Some};
ghost use Rattle.lexicon_text_definitions.specs.FileLines.{kind_named, may_follow};
ghost use Rattle.form_file.specs.Kinds.{kind_of};

/// What a line is. `Opening` is what comes before the first line, and `Head` is this line.
#[derive(Clone, Copy, PartialEq, Eq)]
pub(crate) enum Kind {
    Opening,
    Head,
    Phase,
    Grammar,
    Plain,
    Rule,
    Form,
    End,
}

impl Kind {
    /// The kind of a line that comes after the first, by its name.
    pub(crate) fn named(name: &[u8]) -> Option<Kind>
        ensures { MatchOption result (kind_named name.now ≡ None) (λ kind. kind_named name.now ≡ Some (kind_of kind)) }
    {
        if name == b"phase".as_slice() {
            Some(Kind::Phase)
        } else if name == b"grammar".as_slice() {
            Some(Kind::Grammar)
        } else if name == b"plain".as_slice() {
            Some(Kind::Plain)
        } else if name == b"rule".as_slice() {
            Some(Kind::Rule)
        } else if name == b"form".as_slice() {
            Some(Kind::Form)
        } else if name == b"end".as_slice() {
            Some(Kind::End)
        } else {
            None
        }
    }

    /// Whether a line of this kind may come after one of the last kind.
    pub(crate) fn may_come_after(self, last: Kind) -> bool
        ensures { result ≡ may_follow (kind_of last) (kind_of self) }
    {
        match last {
            Kind::Opening | Kind::End => false,
            Kind::Head => self == Kind::Phase,
            Kind::Phase => matches!(self, Kind::Phase | Kind::Grammar),
            Kind::Grammar | Kind::Plain => {
                matches!(self, Kind::Plain | Kind::Rule | Kind::Form | Kind::End)
            }
            Kind::Rule => matches!(self, Kind::Rule | Kind::Form | Kind::End),
            Kind::Form => matches!(self, Kind::Form | Kind::End),
        }
    }
}
