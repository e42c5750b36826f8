ghost use Rattle.std.specs.Prelude.{◌≡◌, ◌<◌, ◌≤◌, length, map, All, IfOk, IfErr, OnOk};
ghost use Rattle.std.specs.List.Sorted.{IsPermutation};
ghost use Rattle.std.specs.declared.cmp.Ordering.TheVariants.{Greater};
ghost use Rattle.form_tags.specs.Analyses.{text_analysis};
ghost use Rattle.lexicon_definitions.specs.declared.limits.TheConstants.{MOST_FORM_LETTERS, MOST_FORM_LINES, MOST_PHASES};
ghost use Rattle.lexicon_definitions.specs.FormEntries.{IsListedStem};
ghost use Rattle.lexicon_definitions.specs.Limits.{count_lines};
ghost use Rattle.lexicon_text_definitions.specs.FileContents.{compare_entries as compare_entries_of};
ghost use Rattle.run_definitions.specs.SoundSources.{IsSoundEntry};
ghost use Rattle.form_tags.specs.Entries.{text_entry};
ghost use Rattle.lexicon_builder.specs.Sources.{IfLimit};
ghost use Rattle.lexicon_builder.specs.Collected.{AreInOrder, last_before, IsAdded, HasNoRoom, AreCollectedIn, AreTooMany};

use crate::BuildError;
use form_tags::Entry;
use lexicon_definitions::MOST_FORM_LINES;
use phoneme::Memory;
use shared_trie::StoreBuilder;
use std::alloc::Global;
use std::cmp::Ordering;

/// The order of entries: by phase, form, stem and the tag's text, as a lexicon has them.
fn compare_entries(left: &Entry, right: &Entry) -> Ordering
    ensures { result ≡ compare_entries_of (text_entry left.now) (text_entry right.now) }
{
    left.phase
        .cmp(&right.phase)
        .then(left.form.compare(&right.form))
        .then(left.analysis.compare(&right.analysis))
}

/// Brings the entries into order, so that each comes after all others that are below it.
pub(crate) fn sort_entries(entries: &mut Vec<Entry>) -> Result<(), Memory>
    ensures permutation { IsPermutation entries.old.items entries.new.items }
    ensures in_order { OnOk result (AreInOrder (map text_entry entries.new.items)) }
{
    entries.sort_by(compare_entries)?;
    Ok(())
}

/// Adds an entry that is not below the last one, unless it is the last one again. Refused where there are as many as a lexicon may
/// have.
fn add_entry(builder: &mut StoreBuilder, alloc: Global, entry: Entry) -> Result<(), BuildError>
    requires phase { entry.phase < length builder.old }
    requires not_empty { 0 < length entry.form }
    requires short { length entry.form ≤ MOST_FORM_LETTERS }
    requires stem { IsListedStem (text_analysis entry.analysis) }
    requires in_order { last_before builder.old (text_entry entry) ≡ Greater → ⊥ }
    ensures ok { OnOk result (IsAdded builder.old (text_entry entry) builder.new) }
    ensures limit { IfErr result (λ error. IfLimit error (HasNoRoom builder.old (text_entry entry))) }
{
    let Ordering::Less = builder.compare_last(&entry) else {
        return Ok(());
    };
    if builder.lines() as usize >= MOST_FORM_LINES {
        return Err(BuildError::Limit);
    }
    let mut entry = entry;
    builder.push(alloc, &mut entry)?;
    Ok(())
}

/// So many phases that have just these entries, which are in order. Refused where they are more than a lexicon may have.
pub(crate) fn collected(
    alloc: Global,
    phases: u32,
    entries: Vec<Entry>,
) -> Result<StoreBuilder, BuildError>
    requires phases { phases ≤ MOST_PHASES }
    requires each { All (IsSoundEntry phases) (map text_entry entries.items) }
    requires in_order { AreInOrder (map text_entry entries.items) }
    ensures ok { IfOk result (λ builder. AreCollectedIn phases (map text_entry entries.items) builder) }
    ensures lines { IfOk result (λ builder. count_lines builder ≤ MOST_FORM_LINES) }
    ensures limit { IfErr result (λ error. IfLimit error (AreTooMany phases (map text_entry entries.items))) }
{
    let mut builder = StoreBuilder::new(alloc, phases)?;
    for entry in entries {
        add_entry(&mut builder, alloc, entry)?;
    }
    // The call tells how many lines there are at most, and that each phase is listed.
    let _lines = builder.lines();
    Ok(builder)
}
