ghost use Rattle.std.specs.Prelude.{◌≡◌, ◌++◌, map, IfOk, OnOk, string_bytes};
ghost use Rattle.segmentation_definitions.specs.PrintedAnswers.{output_line};
ghost use Rattle.session_definitions.specs.PrintedSummaries.{printed_analysis, printed_tags};
ghost use Rattle.form_tags.specs.Analyses.{text_analysis};

use form_analyses::print_analysis;
use form_tags::Analysis;
use phoneme::Memory;
use std::alloc::Global;

/// `STEM TAG` and the line's end.
fn line_of_analysis(alloc: Global, analysis: &Analysis) -> Result<String, Memory>
    ensures ok { IfOk result (λ text. string_bytes text ≡ output_line (printed_analysis (text_analysis analysis.now))) }
{
    let text = print_analysis(alloc, analysis)?;
    Ok(format!(in alloc; "{text}\n")?)
}

/// Appends a line for each analysis, and `end`: `STEM TAG`, the stem in SLP1. The layout is our own. Refused only for want of
/// memory.
pub(crate) fn push_tags(
    alloc: Global,
    output: &mut Vec<u8>,
    analyses: &[Analysis],
) -> Result<(), Memory>
    ensures ok { OnOk result (output.new.items ≡ output.old.items ++ printed_tags (map text_analysis analyses.now)) }
{
    for analysis in analyses {
        let line = line_of_analysis(alloc, analysis)?;
        output.extend_from_slice(line.as_bytes())?;
    }
    output.extend_from_slice(b"end\n")?;
    Ok(())
}
