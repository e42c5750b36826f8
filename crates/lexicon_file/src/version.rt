ghost use Rattle.std.specs.Prelude.{◌≡◌, MatchOption, None, Some};
ghost use Rattle.trie_text_definitions.specs.Versions.{version_told as version_told_of};
ghost use Rattle.lexicon_file.specs.Kinds.{version_of};

/// A version of lexicon files that tells a trie. `Second` has unlimited rules alone, and `Third` a limited one at least.
#[derive(Clone, Copy, PartialEq, Eq)]
pub(crate) enum Version {
    Second,
    Third,
}

/// The version that a first line tells. `None` for version 1, and for any line that is no first line.
pub(crate) fn version_told(line: &[u8], ended: bool) -> Option<Version>
    ensures { MatchOption result (version_told_of (record { bytes = line.now; ended = ended }) ≡ None)
        (λ version. version_told_of (record { bytes = line.now; ended = ended }) ≡ Some (version_of version)) }
{
    if !ended {
        return None;
    }
    match line {
        b"slx 2" => Some(Version::Second),
        b"slx 3" => Some(Version::Third),
        _ => None,
    }
}
