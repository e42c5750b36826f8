ghost use Rattle.std.specs.Prelude.{◌≡◌, ◌++◌, OnOk, codes};
ghost use Rattle.std.specs.Fmt.{decimal};
ghost use Rattle.latin_schemes.specs.Faults.{place_of};
ghost use Rattle.segmentation_definitions.specs.PrintedAnswers.{output_line};
ghost use Rattle.session_definitions.specs.LineWhys.{why_no_line};
ghost use Rattle.text_line.specs.Values.{text_fault};

use latin_schemes::SpellFault;
use phoneme::Memory;
use std::alloc::Global;
use text_line::TextFault;

/// Appends the refusal `? WHY` of a line of text or of a request.
pub fn push_refusal(output: &mut Vec<u8>, why: &str) -> Result<(), Memory>
    ensures { OnOk result (output.new.items ≡ output.old.items ++ output_line (codes "? " ++ why.now)) }
{
    output.extend_from_slice(b"? ")?;
    output.extend_from_slice(why.as_bytes())?;
    output.extend_from_slice(b"\n")?;
    Ok(())
}

/// Appends the refusal of a text with a fault of spelling, `? spelling AT`: its place in bytes, counted from 0.
fn push_misspelling(alloc: Global, output: &mut Vec<u8>, fault: SpellFault) -> Result<(), Memory>
    ensures { OnOk result (output.new.items ≡ output.old.items ++ output_line (codes "? " ++ codes "spelling " ++ decimal (place_of fault))) }
{
    let at = fault.place();
    output.extend_from_slice(format!(in alloc; "? spelling {at}\n")?.as_bytes())?;
    Ok(())
}

/// Appends the refusal of a text that is no line: `? spelling AT` with the place in bytes, counted from 0, `? no letters` or
/// `? too long`.
pub fn push_text_refusal(
    alloc: Global,
    output: &mut Vec<u8>,
    fault: TextFault,
) -> Result<(), Memory>
    ensures { OnOk result (output.new.items ≡ output.old.items ++ output_line (codes "? " ++ why_no_line (text_fault fault))) }
{
    match fault {
        TextFault::Spell(fault) => push_misspelling(alloc, output, fault),
        TextFault::NoLetters => push_refusal(output, "no letters"),
        TextFault::TooLong => push_refusal(output, "too long"),
    }
}
