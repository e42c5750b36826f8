ghost use Rattle.std.specs.Prelude.{◌≡◌, ◌<◌, IfOk, IfErr};
ghost use Rattle.reader_session.specs.NumberedItems.{IsNumberedItem, IsNoItem};

use super::copying::copy_item;
use derivation::Item;
use phoneme::Memory;
use std::alloc::Global;

/// Why there is no item with a number: there is no summary, the summary has no item of this number, or memory is wanting.
#[derive(Clone, Copy)]
pub(crate) enum NoItem {
    NoSummary,
    NoNumber,
    Memory,
}

impl From<Memory> for NoItem {
    ghost use Rattle.reader_session.specs.declared.numbered_item.NoItem.TheVariants as variant;

    ghost from_gives = { λ _ e. e ≡ variant.Memory };

    fn from(_refused: Memory) -> NoItem {
        NoItem::Memory
    }
}

/// A copy of the item with this number in the summary, counted from 1.
pub(crate) fn numbered_item(
    alloc: Global,
    summary: &Option<Vec<Item>>,
    number: u32,
) -> Result<Item, NoItem>
    requires { 0 < number }
    ensures ok { IfOk result (IsNumberedItem summary.now number) }
    ensures refused { IfErr result (IsNoItem summary.now number) }
{
    let Some(items) = summary else {
        return Err(NoItem::NoSummary);
    };
    let Some(item) = items.as_slice().get(number as usize - 1) else {
        return Err(NoItem::NoNumber);
    };
    Ok(copy_item(alloc, item)?)
}
