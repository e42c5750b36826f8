ghost use Rattle.std.specs.Prelude.{◌≡◌, ◌+◌, [], replicate};
ghost use Rattle.lexicon_definitions.specs.FormEntries.{with_entry};
ghost use Rattle.form_tags.specs.Entries.{text_entry};

use form_tags::Entry;
use std::marker::Model;
use std::mem;
use std::snapshot::Snapshot;

/// The forms of phases as they were told entry by entry, and how many entries were told. Only its snapshots are kept, which
/// clauses alone see.
#[derive(Drop)]
pub(crate) struct ToldForms {
    phases: u32,
    /// What was told before the last entry, and this entry.
    last: Option<(Snapshot<ToldForms>, Snapshot<Entry>)>,
}

impl Model for ToldForms {
    ghost use Rattle.std.specs.Prelude.{ℕ, List};
    ghost use Rattle.std.proofs.Common.{arith};
    ghost use Rattle.lexicon_definitions.specs.Lexicons.{Form};

    ghost Value = { List (List Form) × ℕ };

    ghost use Rattle.shared_trie.specs.ToldForms.{told_after};

    ghost view = { λ t. told_after t.phases t.last };

    ghost size = { λ t. t.1 };

    ghost size_decreases = { λ t valid. Prim.grind arith };
}

/// So many phases without forms.
pub(crate) fn nothing_told(phases: u32) -> Snapshot<ToldForms>
    ensures { result.value ≡ (replicate phases [], 0) }
{
    Snapshot::of(&ToldForms { phases, last: None })
}

/// Tells this entry too.
pub(crate) fn tell(told: &mut Snapshot<ToldForms>, entry: &Entry)
    ensures { told.new.value ≡ (with_entry told.old.value.0 (text_entry entry.now), told.old.value.1 + 1) }
{
    let before = mem::replace(told, nothing_told(0));
    *told = Snapshot::of(&ToldForms {
        phases: 0,
        last: Some((before, Snapshot::of(entry))),
    });
}
