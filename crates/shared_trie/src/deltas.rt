ghost use Rattle.std.specs.Prelude.{IsPermutation, IsSortedByKey};
ghost use Rattle.lexicon_definitions.specs.Deltas.{compare_deltas};
ghost use Rattle.form_tags.specs.Analyses.{text_delta};

use form_tags::Delta;

/// Puts the deltas in order.
pub(crate) fn sort_deltas(deltas: &mut [Delta])
    ensures permutation { IsPermutation deltas.old deltas.new }
    ensures sorted { IsSortedByKey text_delta compare_deltas deltas.new }
{
    deltas.sort_unstable_by(|left, right| left.compare(right));
}
