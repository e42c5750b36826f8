ghost use Rattle.std.specs.Prelude.{◌≡◌, ◌++◌, IfOk, OnOk, codes};
ghost use Rattle.segmentation_definitions.specs.PrintedAnswers.{output_line};

use super::reading::Reading;
use answer_printing::push_refusal;
use phoneme::Memory;

/// Appends the refusal `? WHY`; what is read stays.
pub(crate) fn refuse(
    output: &mut Vec<u8>,
    why: &str,
    reading: Option<Box<Reading>>,
) -> Result<Option<Box<Reading>>, Memory>
    ensures output { OnOk result (output.new.items ≡ output.old.items ++ output_line (codes "? " ++ why.now)) }
    ensures same { IfOk result (λ same. same ≡ reading) }
{
    push_refusal(output, why)?;
    Ok(reading)
}

/// Appends `ok`.
pub(crate) fn push_ok(output: &mut Vec<u8>) -> Result<(), Memory>
    ensures { OnOk result (output.new.items ≡ output.old.items ++ output_line (codes "ok")) }
{
    output.extend_from_slice(b"ok\n")?;
    Ok(())
}
