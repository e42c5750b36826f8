ghost use Rattle.std.specs.Prelude.{◌≡◌, MatchOption, None, Some};
ghost use Rattle.rule_file_definitions.specs.RuleNotations.{bare as bare_of, cut_x as cut_x_of, cut_v as cut_v_of, w_of as w_of_text, is_mark as is_mark_of, has_entry_mark as has_mark_of, is_class_placed as is_class_placed_of, is_well_formed as is_well_formed_of, notation_of as notation_of_entry};
ghost use Rattle.rule_file.specs.Written.{name_of, part_of, written};

use crate::cutting::cut;

/// A part of a notation as it is written: what comes before the class and after it, and the class's name. A part without a
/// class is all before.
#[derive(Clone, Copy)]
pub(crate) struct Part<'a> {
    pub before: &'a [u8],
    pub class: Option<&'a [u8]>,
    pub after: &'a [u8],
}

/// The notation `[x]u|v>w` as it is written.
#[derive(Clone, Copy)]
pub(crate) struct Notation<'a> {
    pub x: &'a [u8],
    pub u: &'a [u8],
    pub v: Part<'a>,
    pub w: Part<'a>,
}

/// The part without a class.
fn bare(text: &[u8]) -> Part<'_>
    ensures { part_of result ≡ bare_of text.now }
{
    Part {
        before: text,
        class: None,
        after: &[],
    }
}

/// x, and what comes after it.
fn cut_x(entry: &[u8]) -> Option<(&[u8], &[u8])>
    ensures { MatchOption result (cut_x_of entry.now ≡ None) (λ parts. cut_x_of entry.now ≡ Some (parts.0.now, parts.1.now)) }
{
    match entry {
        [b'[', text @ ..] => cut(text, b']'),
        _ => Some((&[], entry)),
    }
}

/// v, and what comes after it: v ends at the first `>` that closes no class.
fn cut_v(text: &[u8]) -> Option<(Part<'_>, &[u8])>
    ensures { MatchOption result (cut_v_of text.now ≡ None) (λ parts. cut_v_of text.now ≡ Some (part_of parts.0, parts.1.now)) }
{
    let Some((front, rest)) = cut(text, b'>') else {
        return None;
    };
    let Some((before, name)) = cut(front, b'<') else {
        return Some((bare(front), rest));
    };
    let Some((after, rest)) = cut(rest, b'>') else {
        return None;
    };
    let part = Part {
        before,
        class: Some(name),
        after,
    };
    Some((part, rest))
}

/// w: the name of a class goes from the first `<` to the next `>`.
fn w_of(text: &[u8]) -> Option<Part<'_>>
    ensures { MatchOption result (w_of_text text.now ≡ None) (λ part. w_of_text text.now ≡ Some (part_of part)) }
{
    let Some((before, rest)) = cut(text, b'<') else {
        return Some(bare(text));
    };
    let Some((name, after)) = cut(rest, b'>') else {
        return None;
    };
    Some(Part {
        before,
        class: Some(name),
        after,
    })
}

/// Whether the byte is one of the marks of the notation.
fn is_mark(byte: u8) -> bool
    ensures { result ≡ is_mark_of byte }
{
    byte == b'[' || byte == b']' || byte == b'<' || byte == b'>' || byte == b'|'
}

/// Whether a mark stands in the text.
fn has_entry_mark(text: &[u8]) -> bool
    ensures { result ≡ has_mark_of text.now }
{
    text.iter().any(|byte| is_mark(*byte))
}

/// Whether, where w has a class, v has the same.
fn is_class_placed(v: Option<&[u8]>, w: Option<&[u8]>) -> bool
    ensures { result ≡ is_class_placed_of (name_of v.entry) (name_of w.entry) }
{
    match (v, w) {
        (_, None) => true,
        (None, Some(_)) => false,
        (Some(name), Some(other)) => name == other,
    }
}

/// Whether no mark stands where a letter should, and the class is placed as it may be.
fn is_well_formed(notation: &Notation<'_>) -> bool
    ensures { result ≡ is_well_formed_of (written notation.now) }
{
    let has_marks = has_entry_mark(notation.x)
        || has_entry_mark(notation.u)
        || has_entry_mark(notation.v.before)
        || has_entry_mark(notation.v.after)
        || has_entry_mark(notation.w.before)
        || has_entry_mark(notation.w.after);
    !has_marks && is_class_placed(notation.v.class, notation.w.class)
}

/// The parts of an entry that is written `[x]u|v>w`; `None` where it is written otherwise.
pub(crate) fn notation_of(entry: &[u8]) -> Option<Notation<'_>>
    ensures { MatchOption result (notation_of_entry entry.now ≡ None) (λ notation. notation_of_entry entry.now ≡ Some (written notation)) }
{
    let Some((x, rest)) = cut_x(entry) else {
        return None;
    };
    let Some((u, rest)) = cut(rest, b'|') else {
        return None;
    };
    let Some((v, rest)) = cut_v(rest) else {
        return None;
    };
    let Some(w) = w_of(rest) else {
        return None;
    };
    let notation = Notation { x, u, v, w };
    if is_well_formed(&notation) {
        Some(notation)
    } else {
        None
    }
}
