ghost use Rattle.std.specs.Prelude.{◌≡◌, ◌≢◌, ◌<◌, ◌≤◌, ◌||◌, ◌∷◌, ◌++◌, [], All, length, MatchOption, IfSome, None, Some};
ghost use Rattle.lexicon_text_definitions.specs.FileLines.{parts_of, fields_of, lines_of_bytes, has_mark as has_mark_of, shape_of};
ghost use Rattle.form_file.specs.Fields.{one_of, two_of, four_of, text_of_rest};

use phoneme::cut_at;

/// The first line of the bytes, whether a line end comes after it, and what follows. `None` where there are no bytes.
pub fn first_line(bytes: &[u8]) -> Option<(&[u8], bool, &[u8])>
    ensures line { MatchOption result (bytes.now ≡ [])
        (λ line. lines_of_bytes bytes.now ≡ record { bytes = line.0.now; ended = line.1 } ∷ lines_of_bytes line.2.now) }
    ensures within { IfSome result (λ line. length line.0.now ≤ length bytes.now) }
    ensures shorter { IfSome result (λ line. length line.2.now < length bytes.now) }
{
    if let Some((line, rest)) = cut_at(bytes, b'\n') {
        Some((line, true, rest))
    } else if bytes.is_empty() {
        None
    } else {
        Some((bytes, false, &[]))
    }
}

/// The bytes of a line before its first blank, or all its bytes; and what comes after this blank.
pub fn kind_and_rest(line: &[u8]) -> (&[u8], Option<&[u8]>)
    ensures { parts_of line.now ≡ record { kind = result.0.now; rest = text_of_rest result.1 } }
{
    match cut_at(line, b' ') {
        Some((kind, rest)) => (kind, Some(rest)),
        None => (line, None),
    }
}

/// The only field, where there is one.
pub(crate) fn one_field(text: &[u8]) -> Option<&[u8]>
    ensures { MatchOption result (one_of (fields_of (Some text.now)) ≡ None) (λ field. fields_of (Some text.now) ≡ field.now ∷ []) }
{
    match cut_at(text, b' ') {
        Some(_) => None,
        None => Some(text),
    }
}

/// Two fields with a blank between.
pub fn two_fields(text: &[u8]) -> Option<(&[u8], &[u8])>
    ensures { MatchOption result (two_of (fields_of (Some text.now)) ≡ None)
        (λ fields. fields_of (Some text.now) ≡ fields.0.now ∷ fields.1.now ∷ []) }
{
    let Some((first, rest)) = cut_at(text, b' ') else {
        return None;
    };
    match one_field(rest) {
        Some(second) => Some((first, second)),
        None => None,
    }
}

/// The bytes before the first blank of a text, and those after it. `None` where it has no blank. The bytes of a field are so few that
/// looking at them one by one takes less time than `cut_at` takes to begin.
pub(crate) fn cut_at_blank(text: &[u8]) -> Option<(&[u8], &[u8])>
    ensures { MatchOption result (All (λ byte. byte ≢ 32) text.now)
        (λ parts. (text.now ≡ parts.0.now ++ 32 ∷ parts.1.now) × All (λ byte. byte ≢ 32) parts.0.now) }
{
    let mut blank = 0;
    while blank < text.len() {
        if text[blank] == b' ' {
            return Some((&text[..blank], &text[blank + 1..]));
        }
        blank += 1;
    }
    None
}

/// The first three fields, where a blank comes after each of them, and what comes after the last of these blanks.
pub(crate) fn three_fields_and_rest(text: &[u8]) -> Option<(&[u8], &[u8], &[u8], &[u8])>
    ensures { MatchOption result (four_of (fields_of (Some text.now)) ≡ None)
        (λ parts. fields_of (Some text.now) ≡ parts.0.now ∷ parts.1.now ∷ parts.2.now ∷ fields_of (Some parts.3.now)) }
{
    let Some((first, rest)) = cut_at_blank(text) else {
        return None;
    };
    let Some((second, rest)) = cut_at_blank(rest) else {
        return None;
    };
    match cut_at_blank(rest) {
        Some((third, rest)) => Some((first, second, third, rest)),
        None => None,
    }
}

/// Whether one of the marks `|` and `>` stands in the part of a rule.
fn has_mark(part: &[u8]) -> bool
    ensures { result ≡ has_mark_of part.now }
{
    part.iter().any(|byte| *byte == b'|' || *byte == b'>')
}

/// Whether one of them stands in one of the parts.
fn has_marks(u: &[u8], v: &[u8], w: &[u8]) -> bool
    ensures { result ≡ (has_mark_of u.now || has_mark_of v.now || has_mark_of w.now) }
{
    has_mark(u) || has_mark(v) || has_mark(w)
}

/// The parts of a rule of the shape `u|v>w`, with one `|` and one `>` in all.
pub fn rule_parts(field: &[u8]) -> Option<(&[u8], &[u8], &[u8])>
    ensures { MatchOption result (shape_of field.now ≡ None)
        (λ parts. shape_of field.now ≡ Some (record { u = parts.0.now; v = parts.1.now; w = parts.2.now })) }
{
    let Some((u, rest)) = cut_at(field, b'|') else {
        return None;
    };
    let Some((v, w)) = cut_at(rest, b'>') else {
        return None;
    };
    if has_marks(u, v, w) {
        None
    } else {
        Some((u, v, w))
    }
}
