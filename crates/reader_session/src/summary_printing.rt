ghost use Rattle.std.specs.Prelude.{◌≡◌, ◌++◌, codes, OnOk};
ghost use Rattle.std.specs.Fmt.{decimal};
ghost use Rattle.segmentation_definitions.specs.PrintedAnswers.{name_of, printed_form, output_line};
ghost use Rattle.session_definitions.specs.PrintedSummaries.{printed_item, printed_summary};

use derivation::Item;
use itoa::Buffer;
use latin_schemes::push_slp1;
use phoneme::Memory;
use sandhi_rules::RuleSet;

/// The name of the phase with this number, counted from 0. Empty where there is no such phase.
fn phase_name(rules: &RuleSet, phase: u32) -> &str
    ensures { result.now ≡ name_of rules.now phase }
{
    match rules.phases().get(phase as usize) {
        None => "",
        Some(name) => name.as_str(),
    }
}

/// Appends a number in decimal digits. Refused only for want of memory.
fn push_number(output: &mut Vec<u8>, number: u64) -> Result<(), Memory>
    ensures { OnOk result (output.new.items ≡ output.old.items ++ decimal number) }
{
    let mut digits = Buffer::new();
    output.extend_from_slice(digits.format(number).as_bytes())?;
    Ok(())
}

/// Appends `FORM[PHASE]` and the line's end. Refused only for want of memory.
fn push_form(output: &mut Vec<u8>, rules: &RuleSet, item: &Item) -> Result<(), Memory>
    ensures ok { OnOk result (output.new.items ≡ output.old.items
        ++ output_line (printed_form rules.now (record { phase = item.now.phase; form = item.now.form; rule = 0 }))) }
{
    push_slp1(output, &item.form)?;
    output.push(b'[')?;
    output.extend_from_slice(phase_name(rules, item.phase).as_bytes())?;
    output.extend_from_slice(b"]\n")?;
    Ok(())
}

/// Appends `K: AT LEAD FORM[PHASE]` and the line's end. Refused only for want of memory.
fn push_item(
    output: &mut Vec<u8>,
    rules: &RuleSet,
    number: usize,
    item: &Item,
) -> Result<(), Memory>
    ensures ok { OnOk result (output.new.items ≡ output.old.items ++ output_line (decimal number ++ codes ": " ++ printed_item rules.now item.now)) }
{
    push_number(output, number as u64)?;
    output.extend_from_slice(b": ")?;
    push_number(output, u64::from(item.at))?;
    output.push(b' ')?;
    push_number(output, u64::from(item.lead))?;
    output.push(b' ')?;
    push_form(output, rules, item)?;
    Ok(())
}

/// Appends a line for each item, numbered from 1, and `end`: `K: AT LEAD FORM[PHASE]`, the letters before the item, those of its
/// form that the rule before it supplies, its form in SLP1 and its phase. The layout is our own. Refused only for want of memory.
pub(crate) fn push_summary(
    output: &mut Vec<u8>,
    rules: &RuleSet,
    items: &[Item],
) -> Result<(), Memory>
    ensures ok { OnOk result (output.new.items ≡ output.old.items ++ printed_summary rules.now items.now) }
{
    let mut number = 1;
    for item in items {
        push_item(output, rules, number, item)?;
        number += 1;
    }
    output.extend_from_slice(b"end\n")?;
    Ok(())
}
