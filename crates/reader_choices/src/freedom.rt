ghost use Rattle.std.specs.Prelude.{◌≡◌, ◌+◌, ◌*◌, ◌<◌, ◌^◌, true, IfSome};
ghost use Rattle.segmentation_definitions.specs.Items.{after_lead};
ghost use Rattle.reader_choices.specs.Freedom.{LeaveFree, LeavesFree};

use super::Choice;
use super::allowing::rank;
use derivation::Item;
use lexicon_definitions::MOST_RULE_LETTERS;

/// Whether a step may be last, where the kept item leaves every step free that stands after so many letters of the line, is entered with
/// a lead of so many and takes so many, whichever its rule; `None` where that can't be told without the rule.
fn kept_leaves_free(at: u32, lead: u32, is_first: bool, taken: u32, item: &Item) -> Option<bool>
    ensures { IfSome result (LeavesFree at lead is_first taken true item.now) }
{
    let here = rank(u64::from(at), lead);
    let there = rank(u64::from(item.at), item.lead);
    if there < here {
        return if is_first { None } else { Some(true) };
    }
    let furthest = u64::from(at) + u64::from(taken) + MOST_RULE_LETTERS as u64;
    if u64::from(item.at) > furthest {
        Some(false)
    } else {
        None
    }
}

/// The same for a choice. A rejected item leaves every step free that does not stand at its rank.
fn leaves_free(at: u32, lead: u32, is_first: bool, taken: u32, choice: &Choice) -> Option<bool>
    ensures { IfSome result (LeavesFree at lead is_first taken choice.now.kept choice.now.item) }
{
    let item = &choice.item;
    if choice.kept {
        return kept_leaves_free(at, lead, is_first, taken, item);
    }
    if rank(u64::from(item.at), item.lead) == rank(u64::from(at), lead) {
        None
    } else {
        Some(true)
    }
}

/// The same for all of the choices.
pub(crate) fn leave_free(
    at: u32,
    lead: u32,
    is_first: bool,
    taken: u32,
    choices: &[Choice],
) -> Option<bool>
    ensures { IfSome result (LeaveFree at lead is_first taken choices.now) }
{
    let mut may_end = true;
    for choice in choices {
        let may_end_by_it = leaves_free(at, lead, is_first, taken, choice)?;
        may_end = may_end && may_end_by_it;
    }
    Some(may_end)
}
