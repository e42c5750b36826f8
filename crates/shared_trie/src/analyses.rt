ghost use Rattle.std.specs.Prelude.{◌≡◌, ◌≤◌, [], length, map, All, IfOk, OnOk};
ghost use Rattle.std.specs.List.Sorted.{IsStrictlySortedBy};
ghost use Rattle.list_laws.specs.RisingSets.{with_element, with_elements};
ghost use Rattle.lexicon_definitions.specs.Analyses.{compare_analyses};
ghost use Rattle.lexicon_definitions.specs.Deltas.{Delta as TextDelta, analysis_by};
ghost use Rattle.form_tags.specs.Analyses.{text_analysis, text_delta};

use form_tags::{Analysis, Delta, from_delta};
use phoneme::{Letter, Memory};
use std::alloc::Global;

/// Inserts the analysis into a rising list where it belongs, unless it is there.
fn put_analysis(analyses: &mut Vec<Analysis>, analysis: Analysis) -> Result<(), Memory>
    requires rising { IsStrictlySortedBy compare_analyses (map text_analysis analyses.old.items) }
    ensures ok { OnOk result (map text_analysis analyses.new.items
        ≡ with_element compare_analyses (map text_analysis analyses.old.items) (text_analysis analysis)) }
{
    if let Err(index) = analyses.binary_search_by(|other| other.compare(&analysis)) {
        analyses.insert(index, analysis)?;
    }
    Ok(())
}

/// The analyses that the deltas give the form, rising. A form has few analyses, so each is inserted where it belongs at once: deltas come
/// by how much they cut, and analyses by their stems.
pub fn analyses_by_deltas(
    alloc: Global,
    form: &[Letter],
    deltas: &[Delta],
) -> Result<Vec<Analysis>, Memory>
    requires within { All (λ (delta : TextDelta). delta.cut ≤ length form.now) (map text_delta deltas.now) }
    ensures ok { IfOk result (λ analyses. map text_analysis analyses.items
        ≡ with_elements compare_analyses [] (map (analysis_by form.now) (map text_delta deltas.now))) }
{
    let mut analyses = Vec::with_capacity(alloc, deltas.len())?;
    for delta in deltas {
        let analysis = from_delta(alloc, form, delta)?;
        put_analysis(&mut analyses, analysis)?;
    }
    Ok(analyses)
}
