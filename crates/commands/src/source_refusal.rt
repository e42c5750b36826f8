ghost use Rattle.std.specs.Prelude.{◌≡◌, ◌++◌, codes, IfOk, string_bytes};
ghost use Rattle.std.specs.Fmt.{decimal};
ghost use Rattle.rule_file_definitions.specs.RuleFileFaults as rule_files;
ghost use Rattle.rule_file.specs.Faults as rules;
ghost use Rattle.paradigms.specs.Answers.{table_why, stem_why};
ghost use Rattle.run_definitions.specs.Refusals as defined;

use paradigms::{StemWhy, TableWhy};
use phoneme::Memory;
use rule_file::{RuleFault, RuleWhy};
use std::alloc::Global;

/// The name of a reason of an entry of the rules.
fn name_of_entry_why(why: RuleWhy) -> &'static str
    ensures { result.now ≡ defined.name_of_entry_why (rules.why_of why) }
{
    match why {
        RuleWhy::Shape => "Shape",
        RuleWhy::Spelling => "Spelling",
        RuleWhy::Class => "Class",
        RuleWhy::Phase => "Phase",
        RuleWhy::Strict => "Strict",
        RuleWhy::Long => "Long",
        RuleWhy::Twice => "Twice",
        RuleWhy::Limit => "Limit",
    }
}

/// The name of a reason of a table's record.
pub(crate) fn name_of_table_why(why: TableWhy) -> &'static str
    ensures { result.now ≡ defined.name_of_table_why (table_why why) }
{
    match why {
        TableWhy::Fields => "Fields",
        TableWhy::Tag => "Tag",
        TableWhy::Phase => "Phase",
        TableWhy::Spelling => "Spelling",
        TableWhy::Limit => "Limit",
        TableWhy::Twice => "Twice",
    }
}

/// The name of a reason of a stem's record.
pub(crate) fn name_of_stem_why(why: StemWhy) -> &'static str
    ensures { result.now ≡ defined.name_of_stem_why (stem_why why) }
{
    match why {
        StemWhy::Fields => "Fields",
        StemWhy::Spelling => "Spelling",
        StemWhy::UnknownClass => "UnknownClass",
        StemWhy::Short => "Short",
        StemWhy::Limit => "Limit",
        StemWhy::Twice => "Twice",
    }
}

/// ` rule N: WHY`.
fn rule_refusal(alloc: Global, number: u32, why: RuleWhy) -> Result<String, Memory>
    ensures ok { IfOk result (λ text. string_bytes text ≡ defined.rules_refusal (rule_files.Rule number (rules.why_of why))) }
{
    let why = name_of_entry_why(why);
    Ok(format!(in alloc; " rule {number}: {why}")?)
}

/// ` KIND N`, where only the number of an entry is said.
fn entry_refusal(alloc: Global, kind: &str, number: u32) -> Result<String, Memory>
    ensures ok { IfOk result (λ text. string_bytes text ≡ codes " " ++ kind.now ++ codes " " ++ decimal number) }
{
    Ok(format!(in alloc; " {kind} {number}")?)
}

/// What a refusal says after the name of a rule file.
pub(crate) fn rules_refusal(alloc: Global, fault: RuleFault) -> Result<String, Memory>
    ensures ok { IfOk result (λ text. string_bytes text ≡ defined.rules_refusal (rules.fault_of fault)) }
{
    match fault {
        RuleFault::Toml => Ok(String::from_str(alloc, ": Toml")?),
        RuleFault::Shape => Ok(String::from_str(alloc, ": Shape")?),
        RuleFault::Phase(number) => entry_refusal(alloc, "phase", number),
        RuleFault::Class(number) => entry_refusal(alloc, "class", number),
        RuleFault::Plain(number) => entry_refusal(alloc, "plain", number),
        RuleFault::Rule(number, why) => rule_refusal(alloc, number, why),
        RuleFault::Grammar(_) => Ok(String::from_str(alloc, ": Grammar")?),
    }
}

/// What a refusal says after the name of a file of records.
pub(crate) fn record_refusal(alloc: Global, number: u32, why: &str) -> Result<String, Memory>
    ensures ok { IfOk result (λ text. string_bytes text ≡ defined.record_refusal number why.now) }
{
    Ok(format!(in alloc; " record {number}: {why}")?)
}
