ghost use Rattle.std.specs.Prelude.{◌≡◌, ◌+◌, ◌≤◌, ◌↔◌, length, Contains, IfOk};
ghost use Rattle.std.specs.List.Sorted.{IsStrictlySortedBy};
ghost use Rattle.lexicon_definitions.specs.Leads.{leads_of};
ghost use Rattle.segmentation_definitions.specs.Items.{Item as ItemValue, item_of, after_lead as defined_after_lead};
ghost use Rattle.segmentation_definitions.specs.Listings.{compare_items};
ghost use Rattle.derivation.specs.Guides.{IsEntranceOver, entrance_of};
ghost use Rattle.derivation.specs.Steps.{key_of};
ghost use Rattle.answer_paths.specs.Fronts.{supplied};
ghost use Rattle.answer_paths.specs.Following.{placed_at};

use super::same_u::u_of;
use derivation::{Entrance, Item, Step};
use phoneme::{Line, Memory, Word};
use sandhi_rules::RuleSet;
use search_frames::supplied_letters;
use std::alloc::Global;
use std::cmp::Ordering;

/// 1 for an item without a lead, else 0, so that it comes after one with a lead.
fn after_lead(lead: u32) -> u32
    ensures { result ≡ defined_after_lead lead }
{
    if lead == 0 { 1 } else { 0 }
}

/// The order of items: by the letters before them, then those with a lead before those without, then by phase, form and the
/// length of the lead (own).
fn compare(left: &Item, right: &Item) -> Ordering
    ensures { result ≡ compare_items left.now right.now }
{
    left.at
        .cmp(&right.at)
        .then(after_lead(left.lead).cmp(&after_lead(right.lead)))
        .then(left.phase.cmp(&right.phase))
        .then(left.form.compare(&right.form))
        .then(left.lead.cmp(&right.lead))
}

/// The item of a step that is entered so: its form is what the rule before supplies, the letters that it takes, and the `u` of
/// its rule (Huet 2005). Refused only for want of memory.
pub(crate) fn item_of_step(
    alloc: Global,
    rules: &RuleSet,
    line: &Line,
    entrance: Entrance,
    step: &Step,
) -> Result<Item, Memory>
    requires over { IsEntranceOver (leads_of rules.now.rules) entrance }
    requires lead { step.now.lead ≡ length (supplied (entrance_of (leads_of rules.now.rules) entrance)) }
    requires rule { step.now.rule ≤ length rules.now.rules }
    requires within { step.now.at + step.now.taken ≤ length line.now.letters }
    ensures ok { IfOk result (λ item. item ≡ item_of (placed_at rules.now line.now step.now.at (entrance_of (leads_of rules.now.rules) entrance) (key_of step.now))) }
{
    let at = step.at as usize;
    let taken = step.taken as usize;
    let u = u_of(rules, step.rule);
    let mut form = Word::with_capacity(alloc, step.lead as usize + taken + u.len())?;
    form.extend_from_slice(supplied_letters(rules, entrance))?;
    form.extend_from_slice(&line.letters.as_slice()[at..at + taken])?;
    form.extend_from_slice(u)?;
    Ok(Item {
        at: step.at,
        lead: step.lead,
        phase: step.phase,
        form,
    })
}

/// Puts the items in order, and leaves each of them once.
pub(crate) fn sort_items(items: &mut Vec<Item>)
    ensures rising { IsStrictlySortedBy compare_items items.new.items }
    ensures same { (item : ItemValue) → Contains items.new.items item ↔ Contains items.old.items item }
{
    items.sort_unstable_by(|left, right| compare(left, right));
    items.dedup_by(|left, right| compare(left, right).is_eq());
}
