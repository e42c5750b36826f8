ghost use Rattle.std.specs.Prelude.{◌≡◌, ◌+◌, ◌^◌, ◌<◌, ◌++◌, ◌⊎◌, List, ◌∷◌, length, Ok, Err, OnOk, IfOk, IfErr};
ghost use Rattle.text_definitions.specs.Spellings.{SpellingFault, Reading, with_front};
ghost use Rattle.text_definitions.specs.LineTexts.{fault_from};
ghost use Rattle.latin_schemes.specs.Faults.{fault_of, IsFaultOf};
ghost use Rattle.more_scheme_definitions.specs.Iast.{composed};
ghost use Rattle.conversion_definitions.specs.AnySchemes.{Devanagari, Iast};
ghost use Rattle.conversion_definitions.specs.Conversions.{Part, Run, Converted, parts_from, converted_parts, converted_line, converted_text};
ghost use Rattle.conversion_definitions.specs.Marks.{marks_between as marks_meant};
ghost use Rattle.more_schemes.specs.Values.{any_scheme_of, FitsFrom, IsConvertFaultOf};

use super::AnyScheme;
use super::convert_error::{ConvertError, ConvertFault};
use super::marks::{mark_at, marks_between, run_length};
use latin_schemes::{SpellError, SpellFault};
use phoneme::{Memory, cut_at};
use std::alloc::Global;
use unicode_normalization::to_nfc;

/// Appends the bytes.
fn push_bytes(converted: &mut Vec<u8>, bytes: &[u8]) -> Result<(), Memory>
    ensures ok { OnOk result (converted.new.items ≡ converted.old.items ++ bytes.now) }
{
    Ok(converted.extend_from_slice(bytes)?)
}

/// The fault of a run that begins at the byte `at`, with its place in the whole line.
fn moved(fault: SpellFault, at: usize) -> SpellFault
    requires { FitsFrom at fault }
    ensures value { fault_of result ≡ fault_from at (fault_of fault) }
{
    let from = at as u32;
    match fault {
        SpellFault::NotLetter { at } => SpellFault::NotLetter { at: from + at },
        SpellFault::LoneSign { at } => SpellFault::LoneSign { at: from + at },
        SpellFault::NotUtf8 { at } => SpellFault::NotUtf8 { at: from + at },
    }
}

/// Appends the run of letters that begins at the byte `at` of a line, in the other scheme.
fn convert_run(
    alloc: Global,
    input: AnyScheme,
    output: AnyScheme,
    at: usize,
    run: &[u8],
    converted: &mut Vec<u8>,
) -> Result<(), SpellError>
    requires { at + length run.now < 2 ^ 32 }
    ensures ok { OnOk result ((parts : List Part) →
        with_front converted.new.items (converted_parts (any_scheme_of input) (any_scheme_of output) parts)
        ≡ with_front converted.old.items (converted_parts (any_scheme_of input) (any_scheme_of output) (Run at run.now ∷ parts))) }
    ensures fault { IfErr result (λ error. (parts : List Part) → IsFaultOf error
        (converted_parts (any_scheme_of input) (any_scheme_of output) (Run at run.now ∷ parts))) }
{
    let word = match input.read_run(alloc, run) {
        Ok(word) => word,
        Err(SpellError::Fault(fault)) => return Err(moved(fault, at).into()),
        Err(SpellError::Memory) => return Err(SpellError::Memory),
    };
    let spelling = output.print(alloc, &word)?;
    Ok(push_bytes(converted, spelling.as_bytes())?)
}

/// Appends the bytes that are read of a line, in the other scheme.
fn convert_parts(
    alloc: Global,
    input: AnyScheme,
    output: AnyScheme,
    text: &[u8],
    converted: &mut Vec<u8>,
) -> Result<(), SpellError>
    requires { length text.now < 2 ^ 32 }
    ensures ok { OnOk result (with_front converted.old.items
        (converted_parts (any_scheme_of input) (any_scheme_of output) (parts_from (marks_meant (any_scheme_of input) (any_scheme_of output)) 0 0 text.now))
        ≡ Ok converted.new.items) }
    ensures fault { IfErr result (λ error. IsFaultOf error
        (converted_parts (any_scheme_of input) (any_scheme_of output) (parts_from (marks_meant (any_scheme_of input) (any_scheme_of output)) 0 0 text.now))) }
{
    let marks = marks_between(input, output);
    let mut at = 0;
    while at < text.len() {
        match mark_at(marks, &text[at..]) {
            Some((length, becomes)) => {
                push_bytes(converted, becomes.as_bytes())?;
                at += length;
            }
            None => {
                let length = run_length(marks, &text[at..]);
                convert_run(alloc, input, output, at, &text[at..at + length], converted)?;
                at += length;
            }
        }
    }
    Ok(())
}

/// Appends a line in IAST, which is composed first, in the other scheme.
#[tactic(auto, unfolding(more_scheme_definitions::specs::Iast::composed), using(crate::proofs::SchemeSteps::composed_fits))]
fn convert_composed(
    alloc: Global,
    output: AnyScheme,
    text: &str,
    converted: &mut Vec<u8>,
) -> Result<(), SpellError>
    requires { length text.now < 2 ^ 28 }
    ensures ok { OnOk result (with_front converted.old.items
        (converted_parts Iast (any_scheme_of output) (parts_from (marks_meant Iast (any_scheme_of output)) 0 0 (composed text.now)))
        ≡ Ok converted.new.items) }
    ensures fault { IfErr result (λ error. IsFaultOf error
        (converted_parts Iast (any_scheme_of output) (parts_from (marks_meant Iast (any_scheme_of output)) 0 0 (composed text.now)))) }
{
    let composed = match to_nfc(alloc, text) {
        Ok(composed) => composed,
        Err(_) => return Err(SpellError::Memory),
    };
    convert_parts(
        alloc,
        AnyScheme::Iast,
        output,
        composed.as_bytes(),
        converted,
    )
}

/// Appends a line that has to be UTF-8, in the other scheme.
fn convert_utf8(
    alloc: Global,
    input: AnyScheme,
    output: AnyScheme,
    line: &[u8],
    converted: &mut Vec<u8>,
) -> Result<(), SpellError>
    requires scheme { (any_scheme_of input ≡ Devanagari) ⊎ (any_scheme_of input ≡ Iast) }
    requires short { length line.now < 2 ^ 28 }
    ensures ok { OnOk result (with_front converted.old.items (converted_line (any_scheme_of input) (any_scheme_of output) line.now)
        ≡ Ok converted.new.items) }
    ensures fault { IfErr result (λ error. IsFaultOf error (converted_line (any_scheme_of input) (any_scheme_of output) line.now)) }
{
    match std::str::from_utf8(line) {
        Ok(text) => match input {
            AnyScheme::Iast => convert_composed(alloc, output, text, converted),
            _ => convert_parts(alloc, input, output, line, converted),
        },
        Err(error) => Err(SpellFault::NotUtf8 {
            at: error.valid_up_to() as u32,
        }
        .into()),
    }
}

/// Appends a line in the other scheme.
fn convert_line(
    alloc: Global,
    input: AnyScheme,
    output: AnyScheme,
    line: &[u8],
    converted: &mut Vec<u8>,
) -> Result<(), SpellError>
    requires { length line.now < 2 ^ 28 }
    ensures ok { OnOk result (with_front converted.old.items (converted_line (any_scheme_of input) (any_scheme_of output) line.now)
        ≡ Ok converted.new.items) }
    ensures fault { IfErr result (λ error. IsFaultOf error (converted_line (any_scheme_of input) (any_scheme_of output) line.now)) }
{
    match input {
        AnyScheme::Devanagari | AnyScheme::Iast => {
            convert_utf8(alloc, input, output, line, converted)
        }
        AnyScheme::Slp1 | AnyScheme::Wx | AnyScheme::Velthuis | AnyScheme::Hk => {
            convert_parts(alloc, input, output, line, converted)
        }
    }
}

/// The error of the line with this number.
fn error_at(line: u32, error: SpellError) -> ConvertError
    ensures { (converted : Converted) (reading : Reading) → IsFaultOf error reading
        → ((fault : SpellingFault) → reading ≡ Err fault → converted ≡ Err (record { line = line; fault = fault }))
        → IsConvertFaultOf result converted }
{
    match error {
        SpellError::Fault(fault) => ConvertError::Fault(ConvertFault { line, fault }),
        SpellError::Memory => ConvertError::Memory,
    }
}

/// The text in another spelling scheme, line by line (own). Each run of letters is read and printed; gap marks and digits stay. But from
/// Devanagari to another scheme its dandas and digits become `|`, `||` and 0 to 9, and to Devanagari from another scheme it is the
/// other way round, where two bars are a double danda. Lines are ended where they were. Refused with the least line that has a fault of
/// spelling, counted from 1.
pub fn convert(
    alloc: Global,
    input: AnyScheme,
    output: AnyScheme,
    text: &[u8],
) -> Result<Vec<u8>, ConvertError>
    requires { length text.now < 2 ^ 28 }
    ensures ok { IfOk result (λ converted. converted_text (any_scheme_of input) (any_scheme_of output) text.now ≡ Ok converted.items) }
    ensures fault { IfErr result (λ error. IsConvertFaultOf error (converted_text (any_scheme_of input) (any_scheme_of output) text.now)) }
{
    let mut converted = Vec::new(alloc);
    let mut rest = text;
    let mut number = 1;
    while let Some((line, following)) = cut_at(rest, b'\n') {
        if let Err(error) = convert_line(alloc, input, output, line, &mut converted) {
            return Err(error_at(number, error));
        }
        push_bytes(&mut converted, b"\n")?;
        rest = following;
        number += 1;
    }
    if rest.is_empty() {
        return Ok(converted);
    }
    match convert_line(alloc, input, output, rest, &mut converted) {
        Ok(()) => Ok(converted),
        Err(error) => Err(error_at(number, error)),
    }
}
