ghost use Rattle.std.specs.Prelude.{◌≡◌, ◌++◌, Some, IfOk, OnOk};
ghost use Rattle.session_definitions.specs.PrintedSummaries.{analyses_of_item, printed_tags};
ghost use Rattle.session_definitions.specs.Requests.{Tags};
ghost use Rattle.session_definitions.specs.Replies.{IsReplyTo};
ghost use Rattle.reader_session.specs.Readings.{IsReadingOver, GoesOn, state_of};

use super::numbered_item::{NoItem, numbered_item};
use super::reading::Reading;
use super::refusing::refuse;
use super::tags_printing::push_tags;
use annotated_trie::Lexicon;
use derivation::Item;
use form_analyses::analyses_of_form;
use phoneme::Memory;
use std::alloc::Global;

/// Appends the analyses of the item's form in its phase.
fn push_tags_of(
    alloc: Global,
    lexicon: &Lexicon,
    item: &Item,
    output: &mut Vec<u8>,
) -> Result<(), Memory>
    ensures ok { OnOk result (output.new.items ≡ output.old.items ++ printed_tags (analyses_of_item lexicon.now.lexicon item.now)) }
{
    let analyses = analyses_of_form(alloc, lexicon, item.phase, &item.form)?;
    push_tags(alloc, output, analyses.as_slice())
}

/// `tags K`: the analyses of the form of the item with this number, counted from 1, in its phase. The number is `None` where it
/// could not be read.
pub(crate) fn reply_with_tags(
    alloc: Global,
    lexicon: &Lexicon,
    old: Option<Box<Reading>>,
    number: Option<u32>,
    output: &mut Vec<u8>,
) -> Result<Option<Box<Reading>>, Memory>
    requires reading { IsReadingOver lexicon.now old }
    requires number { number ≡ Some 0 → ⊥ }
    ensures ok { IfOk result (GoesOn lexicon.now
        (IsReplyTo lexicon.now.lexicon (state_of lexicon.now.lexicon.rules old) (Tags number)) output.old.items output.new.items) }
{
    let Some(number) = number else {
        return refuse(output, "number", old);
    };
    let Some(reading) = old else {
        return refuse(output, "no text", None);
    };
    match numbered_item(alloc, &reading.summary, number) {
        Ok(item) => {
            push_tags_of(alloc, lexicon, &item, output)?;
            Ok(Some(reading))
        }
        Err(NoItem::NoSummary) => refuse(output, "no summary", Some(reading)),
        Err(NoItem::NoNumber) => refuse(output, "number", Some(reading)),
        Err(NoItem::Memory) => Err(Memory),
    }
}
