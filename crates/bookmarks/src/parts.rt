ghost use Rattle.std.specs.Prelude.{◌≡◌, ◌≢◌, ◌∷◌, [], length, MatchOption, OnOk, string_bytes};
ghost use Rattle.bookmarks.specs.Parts.{parts_at, with_part};

use phoneme::{Memory, cut_at};

/// The first part and what comes after its mark, where there is more than one part.
fn cut(text: &[u8], mark: u8) -> Option<(&[u8], &[u8])>
    ensures { MatchOption result (parts_at mark text.now ≡ text.now ∷ [])
        (λ parts. parts_at mark text.now ≡ parts.0.now ∷ parts_at mark parts.1.now) }
{
    let Some((first, rest)) = cut_at(text, mark) else {
        return None;
    };
    Some((first, rest))
}

/// The two parts between the marks, where there are just two.
fn two_parts(text: &[u8], mark: u8) -> Option<(&[u8], &[u8])>
    ensures { MatchOption result (length (parts_at mark text.now) ≢ 2)
        (λ parts. parts_at mark text.now ≡ parts.0.now ∷ parts.1.now ∷ []) }
{
    let Some((first, second)) = cut(text, mark) else {
        return None;
    };
    match cut(second, mark) {
        Some(_) => None,
        None => Some((first, second)),
    }
}

/// The three parts between the marks, where there are just three.
pub(crate) fn three_parts(text: &[u8], mark: u8) -> Option<(&[u8], &[u8], &[u8])>
    ensures { MatchOption result (length (parts_at mark text.now) ≢ 3)
        (λ parts. parts_at mark text.now ≡ parts.0.now ∷ parts.1.now ∷ parts.2.now ∷ []) }
{
    let Some((first, rest)) = cut(text, mark) else {
        return None;
    };
    match two_parts(rest, mark) {
        Some((second, third)) => Some((first, second, third)),
        None => None,
    }
}

/// The four parts between the marks, where there are just four.
pub(crate) fn four_parts(text: &[u8], mark: u8) -> Option<(&[u8], &[u8], &[u8], &[u8])>
    ensures { MatchOption result (length (parts_at mark text.now) ≢ 4)
        (λ parts. parts_at mark text.now ≡ parts.0.now ∷ parts.1.now ∷ parts.2.now ∷ parts.3.now ∷ []) }
{
    let Some((first, rest)) = cut(text, mark) else {
        return None;
    };
    match three_parts(rest, mark) {
        Some((second, third, fourth)) => Some((first, second, third, fourth)),
        None => None,
    }
}

/// The five parts between the marks, where there are just five.
pub(crate) fn five_parts(text: &[u8], mark: u8) -> Option<(&[u8], &[u8], &[u8], &[u8], &[u8])>
    ensures { MatchOption result (length (parts_at mark text.now) ≢ 5)
        (λ parts. parts_at mark text.now
        ≡ parts.0.now ∷ parts.1.now ∷ parts.2.now ∷ parts.3.now ∷ parts.4.now ∷ []) }
{
    let Some((first, rest)) = cut(text, mark) else {
        return None;
    };
    match four_parts(rest, mark) {
        Some((second, third, fourth, fifth)) => Some((first, second, third, fourth, fifth)),
        None => None,
    }
}

/// Appends a part to a list, after a `,` where it is not the first. No part is empty.
pub(crate) fn push_part(list: &mut String, part: &str) -> Result<(), Memory>
    ensures ok { OnOk result (string_bytes list.new ≡ with_part (string_bytes list.old) part.now) }
{
    if !list.is_empty() {
        list.push(',')?;
    }
    list.push_str(part)?;
    Ok(())
}
