ghost use Rattle.std.specs.Prelude.{◌≡◌, MatchOption, None, Some};
ghost use Rattle.trie_text_definitions.specs.VersionSteps.{kind_named, may_follow};
ghost use Rattle.lexicon_file.specs.Kinds.{kind_of};

/// What a line is. `Head` is the first line.
#[derive(Clone, Copy, PartialEq, Eq)]
pub(crate) enum Kind {
    Head,
    Phase,
    Grammar,
    Plain,
    Rule,
    Node,
    Root,
    End,
}

impl Kind {
    /// The kind of a line that comes after the first, by its name.
    pub(crate) fn named(name: &[u8]) -> Option<Kind>
        ensures { MatchOption result (kind_named name.now ≡ None) (λ kind. kind_named name.now ≡ Some (kind_of kind)) }
    {
        if name == b"phase".as_slice() {
            Some(Kind::Phase)
        } else if name == b"grammar".as_slice() {
            Some(Kind::Grammar)
        } else if name == b"plain".as_slice() {
            Some(Kind::Plain)
        } else if name == b"rule".as_slice() {
            Some(Kind::Rule)
        } else if name == b"node".as_slice() {
            Some(Kind::Node)
        } else if name == b"root".as_slice() {
            Some(Kind::Root)
        } else if name == b"end".as_slice() {
            Some(Kind::End)
        } else {
            None
        }
    }

    /// Whether a line of this kind may come after one of the last kind, where all phases have a root or do not.
    pub(crate) fn may_come_after(self, last: Kind, rooted: bool) -> bool
        ensures { result ≡ may_follow rooted (kind_of last) (kind_of self) }
    {
        match last {
            Kind::Head => self == Kind::Phase,
            Kind::Phase => matches!(self, Kind::Phase | Kind::Grammar),
            Kind::Grammar | Kind::Plain => { matches!(self, Kind::Plain | Kind::Rule | Kind::Node) }
            Kind::Rule => matches!(self, Kind::Rule | Kind::Node),
            Kind::Node => matches!(self, Kind::Node | Kind::Root),
            Kind::Root => {
                if rooted {
                    self == Kind::End
                } else {
                    self == Kind::Root
                }
            }
            Kind::End => false,
        }
    }
}
