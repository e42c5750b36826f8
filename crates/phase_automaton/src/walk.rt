ghost use Rattle.std.specs.Prelude.{◌≡◌, ◌+◌, ◌^◌, ◌<◌, ◌≤◌, length};
ghost use Rattle.lexicon_definitions.specs.GrammarTexts.{is_name_byte as is_name_byte_of};
ghost use Rattle.lexicon_definitions.specs.GrammarFaults.{may_follow_item as follows_item, may_stand as stands, after_symbol as following_symbol, after_byte as following_byte, syntax_fault as syntax_fault_of};
ghost use Rattle.phase_automaton.specs.Walks.{walk_of};

use lexicon_definitions::{MOST_GRAMMAR_BYTES, MOST_NAME_BYTES};

/// Whether a byte can stand in a name: a small letter, a digit or `_`.
pub(crate) fn is_name_byte(byte: u8) -> bool
    ensures { result ≡ is_name_byte_of byte }
{
    matches!(byte, b'a'..=b'z' | b'0'..=b'9' | b'_')
}

/// What is known in front of a byte of a grammar: the open brackets, whether an item is needed, and how many bytes the
/// name has that ends here.
#[derive(Clone, Copy)]
pub(crate) struct Walk {
    pub(crate) open_brackets: u32,
    pub(crate) needs_item: bool,
    pub(crate) name_length: u32,
}

impl Walk {
    fn may_follow_item(self, byte: u8) -> bool
        ensures { result ≡ follows_item (walk_of self) byte }
    {
        !self.needs_item
            && match byte {
                b'|' | b'*' | b'+' | b'?' => true,
                b')' => self.open_brackets > 0,
                _ => false,
            }
    }

    fn may_stand(self, byte: u8) -> bool
        ensures { result ≡ stands (walk_of self) byte }
    {
        if is_name_byte(byte) && self.name_length > 0 {
            (self.name_length as usize) < MOST_NAME_BYTES
        } else {
            matches!(byte, b'a'..=b'z' | b' ' | b'(') || self.may_follow_item(byte)
        }
    }

    fn after_symbol(self, byte: u8) -> Walk
        requires { self.open_brackets + 1 < 2 ^ 32 }
        ensures { walk_of result ≡ following_symbol (walk_of self) byte }
    {
        Walk {
            open_brackets: match byte {
                b'(' => self.open_brackets + 1,
                b')' => self.open_brackets.saturating_sub(1),
                _ => self.open_brackets,
            },
            needs_item: matches!(byte, b'(' | b'|'),
            name_length: 0,
        }
    }

    fn after(self, byte: u8) -> Walk
        requires brackets { self.open_brackets + 1 < 2 ^ 32 }
        requires name { self.name_length + 1 < 2 ^ 32 }
        ensures { walk_of result ≡ following_byte (walk_of self) byte }
    {
        if is_name_byte(byte) {
            Walk {
                open_brackets: self.open_brackets,
                needs_item: false,
                name_length: self.name_length + 1,
            }
        } else if byte == b' ' {
            Walk {
                open_brackets: self.open_brackets,
                needs_item: self.needs_item,
                name_length: 0,
            }
        } else {
            self.after_symbol(byte)
        }
    }
}

/// The place of the first byte that may not stand, or the text's end where something is missing there. Places are counted
/// in bytes from 0.
pub(crate) fn syntax_fault(text: &[u8]) -> Option<u32>
    requires { length text.now ≤ MOST_GRAMMAR_BYTES }
    ensures { result ≡ syntax_fault_of text.now }
{
    let mut walk = Walk {
        open_brackets: 0,
        needs_item: true,
        name_length: 0,
    };
    for (at, byte) in text.iter().enumerate() {
        if !walk.may_stand(*byte) {
            return Some(at as u32);
        }
        walk = walk.after(*byte);
    }
    if walk.needs_item || walk.open_brackets > 0 {
        Some(text.len() as u32)
    } else {
        None
    }
}
