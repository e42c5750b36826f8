ghost use Rattle.std.specs.Prelude.{◌≡◌};
ghost use Rattle.lexicon_text_definitions.specs.FileLines.{parts_of};
ghost use Rattle.session_definitions.specs.Requests.{after_blank};

use phoneme::cut_at;

/// The first word of a line, which ends before its first blank or at its end, and what comes after this blank, which is
/// nothing where the line has no blank.
pub(crate) fn word_and_rest(line: &[u8]) -> (&[u8], &[u8])
    ensures word { result.0.now ≡ (parts_of line.now).kind }
    ensures rest { result.1.now ≡ after_blank (parts_of line.now).rest }
{
    match cut_at(line, b' ') {
        Some((word, rest)) => (word, rest),
        None => (line, &[]),
    }
}
