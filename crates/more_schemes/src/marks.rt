ghost use Rattle.std.specs.Prelude.{◌≡◌, ◌<◌, ◌≤◌, ℕ, List, ◌∷◌, drop, length, IfSome};
ghost use Rattle.conversion_definitions.specs.Marks.{latin_marks, devanagari_marks, marks_to_latin, marks_to_devanagari, marks_between, first_mark};
ghost use Rattle.more_schemes.specs.Values.{any_scheme_of, marks_of, found_mark};
ghost use Rattle.more_schemes.specs.Runs.{run_length};

use super::AnyScheme;

/// Which gap marks and digits a text has, and what they become.
#[derive(Clone, Copy)]
pub(crate) enum Marks {
    /// Those of a text in Latin letters, which stay.
    Latin,
    /// Those of a text in Devanagari, which stay.
    Devanagari,
    /// Those of a text in Devanagari, which become those of Latin letters.
    ToLatin,
    /// Those of a text in Latin letters, which become those of Devanagari.
    ToDevanagari,
}

/// The marks of a text in the first scheme, with what they become in the second.
pub(crate) fn marks_between(input: AnyScheme, output: AnyScheme) -> Marks
    ensures value { marks_of result ≡ marks_between (any_scheme_of input) (any_scheme_of output) }
{
    match (input.is_devanagari(), output.is_devanagari()) {
        (false, false) => Marks::Latin,
        (false, true) => Marks::ToDevanagari,
        (true, false) => Marks::ToLatin,
        (true, true) => Marks::Devanagari,
    }
}

/// The mark with which the text begins: its length in bytes, and what it becomes.
pub(crate) fn mark_at(marks: Marks, text: &[u8]) -> Option<(usize, &'static str)>
    ensures value { found_mark result ≡ first_mark (marks_of marks) text.now }
    ensures length { IfSome result (λ found. (0 < found.0) × (found.0 ≤ length text.now)) }
{
    match marks {
        Marks::Latin => latin_mark(text),
        Marks::Devanagari => devanagari_mark(text),
        Marks::ToLatin => mark_to_latin(text),
        Marks::ToDevanagari => mark_to_devanagari(text),
    }
}

/// The number of bytes before the first mark of the text.
pub(crate) fn run_length(marks: Marks, text: &[u8]) -> usize
    ensures value { result ≡ run_length (marks_of marks) text.now }
    ensures length { result ≤ length text.now }
{
    let mut length = 0;
    while length < text.len() && mark_at(marks, &text[length..]).is_none() {
        length += 1;
    }
    length
}

/// The mark of Latin letters with which the text begins.
fn latin_mark(text: &[u8]) -> Option<(usize, &'static str)>
    ensures value { found_mark result ≡ first_mark latin_marks text.now }
    ensures length { IfSome result (λ found. (0 < found.0) × (found.0 ≤ length text.now)) }
{
    match text {
        [first, ..] => latin_sign(*first),
        [] => None,
    }
}

/// The mark of Latin letters that the byte is.
#[tactic(auto, unfolding(conversion_definitions::proofs::MarkBytes::mark_bytes))]
fn latin_sign(byte: u8) -> Option<(usize, &'static str)>
    ensures value { (text : List ℕ) → found_mark result ≡ first_mark latin_marks (byte ∷ text) }
    ensures length { IfSome result (λ found. found.0 ≡ 1) }
{
    match byte {
        b'\t' => Some((1, "\t")),
        b'\n' => Some((1, "\n")),
        b'\r' => Some((1, "\r")),
        b' ' => Some((1, " ")),
        b'|' => Some((1, "|")),
        b'0' => Some((1, "0")),
        b'1' => Some((1, "1")),
        b'2' => Some((1, "2")),
        b'3' => Some((1, "3")),
        b'4' => Some((1, "4")),
        b'5' => Some((1, "5")),
        b'6' => Some((1, "6")),
        b'7' => Some((1, "7")),
        b'8' => Some((1, "8")),
        b'9' => Some((1, "9")),
        _ => None,
    }
}

/// The mark with which a text in Devanagari begins. The dandas U+0964 and U+0965 and the digits U+0966 to U+096F are
/// written `E0 A5` and one more byte.
fn devanagari_mark(text: &[u8]) -> Option<(usize, &'static str)>
    ensures value { found_mark result ≡ first_mark devanagari_marks text.now }
    ensures length { IfSome result (λ found. (0 < found.0) × (found.0 ≤ length text.now)) }
{
    match text {
        [0xE0, 0xA5, third, ..] => devanagari_sign(*third),
        _ => latin_mark(text),
    }
}

/// The danda or the digit from U+0940 to U+097F with this third byte.
#[tactic(auto, unfolding(conversion_definitions::proofs::MarkBytes::mark_bytes))]
fn devanagari_sign(third: u8) -> Option<(usize, &'static str)>
    ensures value { (text : List ℕ) → found_mark result ≡ first_mark devanagari_marks (0xE0 ∷ 0xA5 ∷ third ∷ text) }
    ensures length { IfSome result (λ found. found.0 ≡ 3) }
{
    match third {
        0xA4 => Some((3, "।")),
        0xA5 => Some((3, "॥")),
        0xA6 => Some((3, "०")),
        0xA7 => Some((3, "१")),
        0xA8 => Some((3, "२")),
        0xA9 => Some((3, "३")),
        0xAA => Some((3, "४")),
        0xAB => Some((3, "५")),
        0xAC => Some((3, "६")),
        0xAD => Some((3, "७")),
        0xAE => Some((3, "८")),
        0xAF => Some((3, "९")),
        _ => None,
    }
}

/// The mark with which a text in Devanagari begins, with what it becomes in Latin letters.
fn mark_to_latin(text: &[u8]) -> Option<(usize, &'static str)>
    ensures value { found_mark result ≡ first_mark marks_to_latin text.now }
    ensures length { IfSome result (λ found. (0 < found.0) × (found.0 ≤ length text.now)) }
{
    match text {
        [0xE0, 0xA5, third, ..] => sign_to_latin(*third),
        _ => latin_mark(text),
    }
}

/// What the danda or the digit from U+0940 to U+097F with this third byte becomes in Latin letters.
#[tactic(auto, unfolding(conversion_definitions::proofs::MarkBytes::mark_bytes))]
fn sign_to_latin(third: u8) -> Option<(usize, &'static str)>
    ensures value { (text : List ℕ) → found_mark result ≡ first_mark marks_to_latin (0xE0 ∷ 0xA5 ∷ third ∷ text) }
    ensures length { IfSome result (λ found. found.0 ≡ 3) }
{
    match third {
        0xA4 => Some((3, "|")),
        0xA5 => Some((3, "||")),
        0xA6 => Some((3, "0")),
        0xA7 => Some((3, "1")),
        0xA8 => Some((3, "2")),
        0xA9 => Some((3, "3")),
        0xAA => Some((3, "4")),
        0xAB => Some((3, "5")),
        0xAC => Some((3, "6")),
        0xAD => Some((3, "7")),
        0xAE => Some((3, "8")),
        0xAF => Some((3, "9")),
        _ => None,
    }
}

/// The mark with which a text in Latin letters begins, with what it becomes in Devanagari.
fn mark_to_devanagari(text: &[u8]) -> Option<(usize, &'static str)>
    ensures value { found_mark result ≡ first_mark marks_to_devanagari text.now }
    ensures length { IfSome result (λ found. (0 < found.0) × (found.0 ≤ length text.now)) }
{
    match text {
        [b'|', b'|', ..] => Some((2, "॥")),
        [first, ..] => sign_to_devanagari(*first),
        [] => None,
    }
}

/// What the byte becomes in Devanagari, where it is a mark and no bar with another after it.
#[tactic(auto, unfolding(conversion_definitions::proofs::MarkBytes::mark_bytes))]
fn sign_to_devanagari(byte: u8) -> Option<(usize, &'static str)>
    ensures value { (text : List ℕ) → found_mark result ≡ first_mark (drop 1 marks_to_devanagari) (byte ∷ text) }
    ensures length { IfSome result (λ found. found.0 ≡ 1) }
{
    match byte {
        b'|' => Some((1, "।")),
        b'0' => Some((1, "०")),
        b'1' => Some((1, "१")),
        b'2' => Some((1, "२")),
        b'3' => Some((1, "३")),
        b'4' => Some((1, "४")),
        b'5' => Some((1, "५")),
        b'6' => Some((1, "६")),
        b'7' => Some((1, "७")),
        b'8' => Some((1, "८")),
        b'9' => Some((1, "९")),
        b'\t' => Some((1, "\t")),
        b'\n' => Some((1, "\n")),
        b'\r' => Some((1, "\r")),
        b' ' => Some((1, " ")),
        _ => None,
    }
}
