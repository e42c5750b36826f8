ghost use Rattle.std.specs.Prelude.{◌≡◌, ◌↔◌, ◌++◌, ◌∷◌, [], length, Some, Err, IfOk, OnOk, OnErr};
ghost use Rattle.segmentation_definitions.specs.declared.limits.TheConstants.{MOST_CHOICES};
ghost use Rattle.bookmark_definitions.specs.Bookmarks.{IsItemWithinBounds};
ghost use Rattle.session_definitions.specs.Requests.{Choose, Undo};
ghost use Rattle.session_definitions.specs.Replies.{reply_to_choice, reply_to_undo, IsReplyTo};
ghost use Rattle.annotated_trie.specs.Searched.{IsSearchedLexicon};
ghost use Rattle.reader_session.specs.Readings.{IsReading, IsReadingOver, GoesOn, GoesOnWith, state_with, state_of};

use super::adding::add_choice;
use super::numbered_item::{NoItem, numbered_item};
use super::reading::Reading;
use super::refusing::{push_ok, refuse};
use annotated_trie::Lexicon;
use answer_printing::push_refusal;
use derivation::Item;
use phoneme::Memory;
use reader_choices::ChoiceError;
use std::alloc::Global;

/// One choice more, where there are not too many: nothing is printed under it yet.
fn choose(
    alloc: Global,
    lexicon: &Lexicon,
    reading: &mut Reading,
    kept: bool,
    item: Item,
    output: &mut Vec<u8>,
) -> Result<(), Memory>
    requires reading { IsReading lexicon.now reading.old }
    requires item { IsItemWithinBounds item }
    ensures ok { OnOk result (GoesOnWith lexicon.now
        (λ reply. reply ≡ reply_to_choice (state_with lexicon.now.lexicon.rules reading.old) kept item) output.old.items output.new.items reading.new) }
{
    match add_choice(&mut reading.choices, kept, item) {
        Ok(()) => {
            push_ok(output)?;
            reading.begin(alloc, lexicon)
        }
        Err(ChoiceError::Full) => {
            push_refusal(output, "too many")?;
            Ok(())
        }
        Err(ChoiceError::Memory) => Err(Memory),
    }
}

/// `keep K` and `reject K`: one choice more, of the item with this number, counted from 1. The number is `None` where it could
/// not be read.
pub(crate) fn reply_to_choice(
    alloc: Global,
    lexicon: &Lexicon,
    old: Option<Box<Reading>>,
    kept: bool,
    number: Option<u32>,
    output: &mut Vec<u8>,
) -> Result<Option<Box<Reading>>, Memory>
    requires lexicon { IsSearchedLexicon lexicon.now }
    requires reading { IsReadingOver lexicon.now old }
    requires number { number ≡ Some 0 → ⊥ }
    ensures ok { IfOk result (GoesOn lexicon.now
        (IsReplyTo lexicon.now.lexicon (state_of lexicon.now.lexicon.rules old) (Choose kept number)) output.old.items output.new.items) }
{
    let Some(number) = number else {
        return refuse(output, "number", old);
    };
    let Some(mut reading) = old else {
        return refuse(output, "no text", None);
    };
    match numbered_item(alloc, &reading.summary, number) {
        Ok(item) => {
            choose(alloc, lexicon, &mut reading, kept, item, output)?;
            Ok(Some(reading))
        }
        Err(NoItem::NoSummary) => refuse(output, "no summary", Some(reading)),
        Err(NoItem::NoNumber) => refuse(output, "number", Some(reading)),
        Err(NoItem::Memory) => Err(Memory),
    }
}

/// The newest choice is taken back, where there is one.
fn take_back(
    alloc: Global,
    lexicon: &Lexicon,
    reading: &mut Reading,
    output: &mut Vec<u8>,
) -> Result<(), Memory>
    requires reading { IsReading lexicon.now reading.old }
    ensures ok { OnOk result (GoesOnWith lexicon.now
        (λ reply. reply ≡ reply_to_undo (state_with lexicon.now.lexicon.rules reading.old) reading.old.choices) output.old.items output.new.items reading.new) }
{
    let Some(_) = reading.choices.undo() else {
        push_refusal(output, "nothing to undo")?;
        return Ok(());
    };
    push_ok(output)?;
    reading.begin(alloc, lexicon)
}

/// `undo`: takes the newest choice back.
pub(crate) fn reply_to_undo(
    alloc: Global,
    lexicon: &Lexicon,
    old: Option<Box<Reading>>,
    output: &mut Vec<u8>,
) -> Result<Option<Box<Reading>>, Memory>
    requires reading { IsReadingOver lexicon.now old }
    ensures ok { IfOk result (GoesOn lexicon.now
        (IsReplyTo lexicon.now.lexicon (state_of lexicon.now.lexicon.rules old) Undo) output.old.items output.new.items) }
{
    let Some(mut reading) = old else {
        return refuse(output, "no text", None);
    };
    take_back(alloc, lexicon, &mut reading, output)?;
    Ok(Some(reading))
}
