ghost use Rattle.std.specs.Prelude.{◌≡◌, IfOk};

use derivation::{Choice, Item};
use phoneme::{Line, Memory};
use std::alloc::Global;

/// The item, in memory of its own. Refused only for want of memory.
pub(crate) fn copy_item(alloc: Global, item: &Item) -> Result<Item, Memory>
    ensures { IfOk result (λ copy. copy ≡ item.now) }
{
    Ok(Item {
        at: item.at,
        lead: item.lead,
        phase: item.phase,
        form: item.form.copy(alloc)?,
    })
}

/// The choices, in memory of their own.
pub(crate) fn copy_choices(alloc: Global, choices: &[Choice]) -> Result<Vec<Choice>, Memory>
    ensures { IfOk result (λ copies. copies.items ≡ choices.now) }
{
    let mut copies = Vec::with_capacity(alloc, choices.len())?;
    for choice in choices {
        copies.push(Choice {
            kept: choice.kept,
            item: copy_item(alloc, &choice.item)?,
        })?;
    }
    Ok(copies)
}

/// The line, in memory of its own.
pub(crate) fn copy_line(alloc: Global, line: &Line) -> Result<Line, Memory>
    ensures { IfOk result (λ copy. copy ≡ line.now) }
{
    Ok(Line {
        letters: line.letters.copy(alloc)?,
        blanks: Vec::from_slice(alloc, line.blanks.as_slice())?,
    })
}
