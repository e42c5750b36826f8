ghost use Rattle.std.specs.Prelude.{◌≡◌, map, IfOk, string_bytes};
ghost use Rattle.std.specs.List.{join_with_byte};
ghost use Rattle.bookmark_definitions.specs.BookmarkReadings.{item_of_fields, choice_with, choice_of, each_read, parts_of_list};
ghost use Rattle.bookmark_definitions.specs.BookmarkTexts.{text_of_choice};
ghost use Rattle.bookmarks.specs.Answers.{IsRead, IsReadWith};
ghost use Rattle.bookmarks.specs.Parts.{parts_at};

use crate::BookmarkError;
use crate::numbers::read_small_number;
use crate::parts::{four_parts, push_part};
use crate::words::read_word;
use derivation::{Choice, Item};
use latin_schemes::print_slp1;
use lexicon_definitions::{MOST_FORM_LETTERS, MOST_PHASES, MOST_RULE_LETTERS};
use phoneme::Memory;
use std::alloc::Global;
use text_definitions::MOST_LINE_LETTERS;

/// The item that a text `AT.LEAD.PHASE.FORM` writes.
fn read_item(alloc: Global, text: &[u8]) -> Result<Item, BookmarkError>
    ensures { IsRead result (item_of_fields (parts_at 46 text.now)) }
{
    let Some((at, lead, phase, form)) = four_parts(text, b'.') else {
        return Err(BookmarkError::Form);
    };
    let at = read_small_number(at, MOST_LINE_LETTERS as u32)?;
    let lead = read_small_number(lead, MOST_RULE_LETTERS as u32)?;
    let phase = read_small_number(phase, MOST_PHASES as u32 - 1)?;
    let form = read_word(alloc, form, MOST_FORM_LETTERS)?;
    Ok(Item {
        at,
        lead,
        phase,
        form,
    })
}

/// The choice whose item a text writes.
fn read_choice_with(alloc: Global, kept: bool, text: &[u8]) -> Result<Choice, BookmarkError>
    ensures { IsRead result (choice_with kept text.now) }
{
    let item = read_item(alloc, text)?;
    Ok(Choice { kept, item })
}

/// The choice that a text `+AT.LEAD.PHASE.FORM` writes, with `-` where its item is rejected (own format). Refused with `Form` where
/// it writes none.
pub fn read_choice(alloc: Global, text: &[u8]) -> Result<Choice, BookmarkError>
    ensures { IsRead result (choice_of text.now) }
{
    match text {
        [b'+', item @ ..] => read_choice_with(alloc, true, item),
        [b'-', item @ ..] => read_choice_with(alloc, false, item),
        _ => Err(BookmarkError::Form),
    }
}

/// The choices that a text writes, with `,` between each two.
pub(crate) fn read_choices(alloc: Global, text: &[u8]) -> Result<Vec<Choice>, BookmarkError>
    ensures { IsReadWith result (each_read choice_of (parts_of_list text.now)) (λ choices. choices.items) }
{
    let mut choices = Vec::new(alloc);
    if text.is_empty() {
        return Ok(choices);
    }
    for part in text.split(|byte| *byte == b',') {
        choices.push(read_choice(alloc, part)?)?;
    }
    Ok(choices)
}

/// The text of a choice, `+AT.LEAD.PHASE.FORM` where its item is kept and `-AT.LEAD.PHASE.FORM` where it is rejected (own format).
/// Refused only for want of memory.
pub fn print_choice(alloc: Global, choice: &Choice) -> Result<String, Memory>
    ensures ok { IfOk result (λ text. string_bytes text ≡ text_of_choice choice.now) }
{
    let sign = if choice.kept { "+" } else { "-" };
    let item = &choice.item;
    let form = print_slp1(alloc, &item.form)?;
    Ok(format!(in alloc; "{sign}{}.{}.{}.{form}", item.at, item.lead, item.phase)?)
}

/// The choices with `,` between each two.
pub(crate) fn print_choices(alloc: Global, choices: &[Choice]) -> Result<String, Memory>
    ensures ok { IfOk result (λ text. string_bytes text ≡ join_with_byte 44 (map text_of_choice choices.now)) }
{
    let mut text = String::new(alloc);
    for choice in choices {
        push_part(&mut text, print_choice(alloc, choice)?.as_str())?;
    }
    Ok(text)
}
