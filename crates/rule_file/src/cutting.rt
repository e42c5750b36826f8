ghost use Rattle.std.specs.Prelude.{◌≡◌, MatchOption, None, Some};
ghost use Rattle.list_laws.specs.Cuts.{cut as cut_of};
ghost use Rattle.rule_file_definitions.specs.PlainEntries.{name_between as name_between_of};

use phoneme::cut_at;

/// The parts before and after the first of these bytes.
pub(crate) fn cut(text: &[u8], mark: u8) -> Option<(&[u8], &[u8])>
    ensures { MatchOption result (cut_of mark text.now ≡ None) (λ parts. cut_of mark text.now ≡ Some (parts.0.now, parts.1.now)) }
{
    let Some((front, rest)) = cut_at(text, mark) else {
        return None;
    };
    Some((front, rest))
}

/// The name between `<` and the first `>`, where nothing comes after it.
pub(crate) fn name_between(text: &[u8]) -> Option<&[u8]>
    ensures { MatchOption result (name_between_of text.now ≡ None) (λ name. name_between_of text.now ≡ Some name.now) }
{
    let [b'<', rest @ ..] = text else {
        return None;
    };
    let Some((name, after)) = cut(rest, b'>') else {
        return None;
    };
    if after.is_empty() { Some(name) } else { None }
}
