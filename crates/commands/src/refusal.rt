ghost use Rattle.std.specs.Prelude.{◌≡◌, IfOk, string_bytes};
ghost use Rattle.lexicon_file.specs.Contents as files;
ghost use Rattle.lexicon_file.specs.Faults.{why_of};
ghost use Rattle.more_schemes.specs.Values.{conversion_fault};
ghost use Rattle.joiner.specs.Faults as chains;
ghost use Rattle.annotation.specs.Readings as notes;
ghost use Rattle.run_definitions.specs.Ends as ends;
ghost use Rattle.run_definitions.specs.Refusals.{name_of_why, file_refusal, text_refusal, name_of_chain_why, chain_refusal, name_of_note_why};
ghost use Rattle.text_line.specs.Values.{text_fault};
ghost use Rattle.commands.specs.Faults.{file_fault};
ghost use Rattle.commands.specs.FaultRefusals.{fault_refusal};

use super::source_refusal::{name_of_stem_why, name_of_table_why, record_refusal, rules_refusal};
use super::status::AnyFault;
use annotation::NoteWhy;
use joiner::{ChainFault, ChainWhy};
use lexicon_file::{FileFault, FileWhy};
use more_schemes::ConvertFault;
use phoneme::Memory;
use std::alloc::Global;
use text_line::TextFault;

/// The name of a reason, without what it carries.
fn name_of(why: FileWhy) -> &'static str
    ensures { result.now ≡ name_of_why (why_of why) }
{
    match why {
        FileWhy::Trailing => "Trailing",
        FileWhy::NoEnd => "NoEnd",
        FileWhy::NotUtf8 => "NotUtf8",
        FileWhy::Head => "Head",
        FileWhy::Order => "Order",
        FileWhy::Field => "Field",
        FileWhy::Spelling => "Spelling",
        FileWhy::Strict => "Strict",
        FileWhy::Grammar(_) => "Grammar",
        FileWhy::Child => "Child",
        FileWhy::Limit => "Limit",
        FileWhy::Twice => "Twice",
        FileWhy::Falling => "Falling",
        FileWhy::Unused => "Unused",
        FileWhy::Delta => "Delta",
        FileWhy::Unlimited => "Unlimited",
    }
}

/// The name of a reason of a note.
fn name_of_note_why(why: NoteWhy) -> &'static str
    ensures { result.now ≡ name_of_note_why (notes.why_of why) }
{
    match why {
        NoteWhy::Json => "Json",
        NoteWhy::Shape => "Shape",
        NoteWhy::Text => "Text",
        NoteWhy::Choice => "Choice",
        NoteWhy::NotOnly => "NotOnly",
        NoteWhy::Segments => "Segments",
    }
}

/// ` line N: WHY`, what is said of a lexicon file.
fn lexicon_refusal(alloc: Global, fault: FileFault) -> Result<String, Memory>
    ensures ok { IfOk result (λ text. string_bytes text ≡ fault_refusal (ends.Lexicon (files.fault_of fault))) }
{
    let line = fault.line;
    let why = name_of(fault.why);
    Ok(format!(in alloc; " line {line}: {why}")?)
}

/// ` line N: spelling AT`, what is said of a text.
fn spelling_refusal(alloc: Global, fault: ConvertFault) -> Result<String, Memory>
    ensures ok { IfOk result (λ text. string_bytes text ≡ fault_refusal (ends.Spelling (conversion_fault fault))) }
{
    let line = fault.line;
    let at = fault.fault.place();
    Ok(format!(in alloc; " line {line}: spelling {at}")?)
}

/// `: WHY`, what is said of a note.
fn note_refusal(alloc: Global, why: NoteWhy) -> Result<String, Memory>
    ensures ok { IfOk result (λ text. string_bytes text ≡ fault_refusal (ends.Note (notes.why_of why))) }
{
    let why = name_of_note_why(why);
    Ok(format!(in alloc; ": {why}")?)
}

/// What a refusal says after the name of a file.
fn fault_refusal(alloc: Global, fault: AnyFault) -> Result<String, Memory>
    ensures ok { IfOk result (λ text. string_bytes text ≡ fault_refusal (file_fault fault)) }
{
    match fault {
        AnyFault::Large => Ok(String::from_str(alloc, ": Large")?),
        AnyFault::Lexicon(fault) => lexicon_refusal(alloc, fault),
        AnyFault::Rules(fault) => rules_refusal(alloc, fault),
        AnyFault::Tables(fault) => {
            record_refusal(alloc, fault.number, name_of_table_why(fault.why))
        }
        AnyFault::Stems(fault) => record_refusal(alloc, fault.number, name_of_stem_why(fault.why)),
        AnyFault::Spelling(fault) => spelling_refusal(alloc, fault),
        AnyFault::Note(why) => note_refusal(alloc, why),
    }
}

/// `bad file NAME`, and what is said of its fault.
pub(crate) fn print_file_refusal(
    alloc: Global,
    name: &str,
    fault: AnyFault,
) -> Result<String, Memory>
    ensures ok { IfOk result (λ text. string_bytes text ≡ file_refusal name.now (file_fault fault)) }
{
    let rest = fault_refusal(alloc, fault)?;
    Ok(format!(in alloc; "bad file {name}{rest}\n")?)
}

/// `bad text spelling AT`, `bad text no letters` or `bad text too long`.
pub(crate) fn print_text_refusal(alloc: Global, fault: TextFault) -> Result<String, Memory>
    ensures ok { IfOk result (λ text. string_bytes text ≡ text_refusal (text_fault fault)) }
{
    match fault {
        TextFault::Spell(fault) => {
            let at = fault.place();
            Ok(format!(in alloc; "bad text spelling {at}\n")?)
        }
        TextFault::NoLetters => Ok(String::from_str(alloc, "bad text no letters\n")?),
        TextFault::TooLong => Ok(String::from_str(alloc, "bad text too long\n")?),
    }
}

/// The name of a reason of a chain.
fn name_of_chain_why(why: ChainWhy) -> &'static str
    ensures { result.now ≡ name_of_chain_why (chains.why_of why) }
{
    match why {
        ChainWhy::Shape => "Shape",
        ChainWhy::Phase => "Phase",
        ChainWhy::Form => "Form",
        ChainWhy::Rule => "Rule",
        ChainWhy::Barred => "Barred",
        ChainWhy::Meet => "Meet",
    }
}

/// `bad chain step N: WHY`.
pub(crate) fn print_chain_refusal(alloc: Global, fault: ChainFault) -> Result<String, Memory>
    ensures ok { IfOk result (λ text. string_bytes text ≡ chain_refusal (chains.fault_of fault)) }
{
    let step = fault.step;
    let why = name_of_chain_why(fault.why);
    Ok(format!(in alloc; "bad chain step {step}: {why}\n")?)
}
