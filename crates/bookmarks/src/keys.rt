ghost use Rattle.std.specs.Prelude.{◌≡◌, map, IfOk, string_bytes};
ghost use Rattle.std.specs.List.{join_with_byte};
ghost use Rattle.derivation.specs.Steps.{key_meant, keys_meant};
ghost use Rattle.bookmark_definitions.specs.BookmarkReadings.{key_of_text, each_read, parts_of_list};
ghost use Rattle.bookmark_definitions.specs.BookmarkTexts.{text_of_key};
ghost use Rattle.bookmarks.specs.Answers.{IsReadWith};

use crate::BookmarkError;
use crate::numbers::read_small_number;
use crate::parts::{push_part, three_parts};
use derivation::Key;
use lexicon_definitions::{MOST_FORM_LETTERS, MOST_PHASES, MOST_RULES};
use phoneme::Memory;
use std::alloc::Global;

/// The key that a text `PHASE.TAKEN.RULE` writes.
fn read_key(text: &[u8]) -> Result<Key, BookmarkError>
    ensures { IsReadWith result (key_of_text text.now) key_meant }
{
    let Some((phase, taken, rule)) = three_parts(text, b'.') else {
        return Err(BookmarkError::Form);
    };
    let phase = read_small_number(phase, MOST_PHASES as u32 - 1)?;
    let taken = read_small_number(taken, MOST_FORM_LETTERS as u32)?;
    let rule = read_small_number(rule, MOST_RULES as u32)?;
    Ok(Key { phase, taken, rule })
}

/// The keys that a text writes, with `,` between each two.
pub(crate) fn read_keys(alloc: Global, text: &[u8]) -> Result<Vec<Key>, BookmarkError>
    ensures { IsReadWith result (each_read key_of_text (parts_of_list text.now)) (λ keys. keys_meant keys.items) }
{
    let mut keys = Vec::new(alloc);
    if text.is_empty() {
        return Ok(keys);
    }
    for part in text.split(|byte| *byte == b',') {
        keys.push(read_key(part)?)?;
    }
    Ok(keys)
}

/// `PHASE.TAKEN.RULE`.
fn print_key(alloc: Global, key: &Key) -> Result<String, Memory>
    ensures ok { IfOk result (λ text. string_bytes text ≡ text_of_key (key_meant key.now)) }
{
    Ok(format!(in alloc; "{}.{}.{}", key.phase, key.taken, key.rule)?)
}

/// The keys with `,` between each two.
pub(crate) fn print_keys(alloc: Global, keys: &[Key]) -> Result<String, Memory>
    ensures ok { IfOk result (λ text. string_bytes text ≡ join_with_byte 44 (map text_of_key (keys_meant keys.now))) }
{
    let mut text = String::new(alloc);
    for key in keys {
        push_part(&mut text, print_key(alloc, key)?.as_str())?;
    }
    Ok(text)
}
