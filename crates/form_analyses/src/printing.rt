ghost use Rattle.std.specs.Prelude.{◌≡◌, IfOk, string_bytes};
ghost use Rattle.session_definitions.specs.PrintedSummaries.{printed_analysis};
ghost use Rattle.form_tags.specs.Analyses.{text_analysis};

use form_tags::Analysis;
use latin_schemes::print_slp1;
use phoneme::Memory;
use std::alloc::Global;

/// `STEM TAG`, the stem in SLP1. The layout is our own. Refused only for want of memory.
pub fn print_analysis(alloc: Global, analysis: &Analysis) -> Result<String, Memory>
    ensures ok { IfOk result (λ text. string_bytes text ≡ printed_analysis (text_analysis analysis.now)) }
{
    let stem = print_slp1(alloc, &analysis.stem)?;
    let tag = analysis.tag;
    Ok(format!(in alloc; "{stem} {tag}")?)
}
