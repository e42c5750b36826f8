ghost use Rattle.std.specs.Prelude.{◌≡◌, ◌<◌, ◌≤◌, ◌∷◌, [], length, MatchOption, IfSome, None, Some};
ghost use Rattle.trie_text_definitions.specs.NodeFields.{texts_of};
ghost use Rattle.form_file.specs.Fields.{text_of_rest, two_of};
ghost use Rattle.lexicon_file.specs.Parts.{parts_at, parts_after, three_of};

use phoneme::cut_at;

/// The bytes before the first mark, or all bytes; and what comes after this mark.
pub(crate) fn first_part(text: &[u8], mark: u8) -> (&[u8], Option<&[u8]>)
    ensures parts { parts_at mark text.now ≡ result.0.now ∷ parts_after mark (text_of_rest result.1) }
    ensures within { length result.0.now ≤ length text.now }
    ensures shorter { IfSome result.1 (λ rest. length rest.now < length text.now) }
{
    match cut_at(text, mark) {
        Some((part, rest)) => (part, Some(rest)),
        None => (text, None),
    }
}

/// The two parts with the mark between, where there are just two.
pub(crate) fn two_parts(text: &[u8], mark: u8) -> Option<(&[u8], &[u8])>
    ensures { MatchOption result (two_of (parts_at mark text.now) ≡ None)
        (λ parts. parts_at mark text.now ≡ parts.0.now ∷ parts.1.now ∷ []) }
{
    let Some((first, rest)) = cut_at(text, mark) else {
        return None;
    };
    match cut_at(rest, mark) {
        Some(_) => None,
        None => Some((first, rest)),
    }
}

/// The three parts with the mark between each two, where there are just three.
pub(crate) fn three_parts(text: &[u8], mark: u8) -> Option<(&[u8], &[u8], &[u8])>
    ensures { MatchOption result (three_of (parts_at mark text.now) ≡ None)
        (λ parts. parts_at mark text.now ≡ parts.0.now ∷ parts.1.now ∷ parts.2.now ∷ []) }
{
    let Some((first, rest)) = cut_at(text, mark) else {
        return None;
    };
    match two_parts(rest, mark) {
        Some((second, third)) => Some((first, second, third)),
        None => None,
    }
}

/// The texts of a field with `,` between; `None` where there are none, which is written `-`.
pub(crate) fn texts_in(field: &[u8]) -> Option<&[u8]>
    ensures texts { texts_of field.now ≡ parts_after 44 (text_of_rest result) }
    ensures within { IfSome result (λ texts. length texts.now ≤ length field.now) }
{
    if field == b"-".as_slice() {
        None
    } else {
        Some(field)
    }
}
