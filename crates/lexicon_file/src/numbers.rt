ghost use Rattle.std.specs.Prelude.{◌≡◌, ◌≤◌, length};
ghost use Rattle.std.specs.Str.{all_ascii_digits};
ghost use Rattle.trie_text_definitions.specs.NodeFields.{number_of, node_number, most_node_digits};
ghost use Rattle.lexicon_file.specs.Numbers.{is_number as is_number_of, cut_of};

use lexicon_definitions::MOST_FORM_LETTERS;

/// The number of a node has at most so many digits.
const MOST_NODE_DIGITS: usize = 9;

/// Whether each byte is a digit.
fn are_digits(text: &[u8]) -> bool
    ensures { result ≡ all_ascii_digits text.now }
{
    text.iter().all(|byte| byte.is_ascii_digit())
}

/// Whether the text is a number in decimal: one digit or more, and no 0 before others.
fn is_number(text: &[u8]) -> bool
    ensures { result ≡ is_number_of text.now }
{
    match text {
        [] => false,
        [b'0', _, ..] => false,
        _ => are_digits(text),
    }
}

/// The number that the text is in decimal digits. It has few bytes.
fn read_number(text: &[u8]) -> Option<u32>
    requires { length text.now ≤ most_node_digits }
    ensures { result ≡ number_of text.now }
{
    if !is_number(text) {
        return None;
    }
    let Ok(digits) = std::str::from_utf8(text) else {
        return None;
    };
    let Ok(number) = digits.parse::<u32>() else {
        return None;
    };
    Some(number)
}

/// The number of a node.
pub(crate) fn read_node_number(text: &[u8]) -> Option<u32>
    ensures { result ≡ node_number text.now }
{
    if text.len() > MOST_NODE_DIGITS {
        return None;
    }
    read_number(text)
}

/// How many letters a delta cuts, which are not too many.
pub(crate) fn read_cut(text: &[u8]) -> Option<u32>
    ensures { result ≡ cut_of text.now }
{
    if text.len() > MOST_NODE_DIGITS {
        return None;
    }
    let cut = read_number(text)?;
    if cut > MOST_FORM_LETTERS as u32 {
        return None;
    }
    Some(cut)
}
