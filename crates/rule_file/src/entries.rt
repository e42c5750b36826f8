ghost use Rattle.std.specs.Prelude.{◌≡◌, ◌≤◌, ◌+◌, Some, Ok, Err, IfOk, OnOk, IfErr, length, map, option_map, string_bytes};
ghost use Rattle.std.specs.List.{list_any};
ghost use Rattle.toml.specs.View.{table_view};
ghost use Rattle.rule_file_definitions.specs.RuleEntries.{is_not_strict as is_not_strict_of, is_long as is_long_of, strict_and_short, rule_with, fillings_of as fillings_of_class, rules_of_pattern as rules_of_pattern_of, rules_of_notation as rules_of_notation_of, rules_of_entry as rules_of_entry_of, add_entry as add_entry_of, read_entries as read_entries_of};
ghost use Rattle.rule_file.specs.Faults.{IfFault, IfWhy, IsFaultOf, why_of};
ghost use Rattle.rule_file.specs.Triples.{IsKept};
ghost use Rattle.rule_file.specs.Written.{name_of, limits_of, written};

use crate::classes::letters_named;
use crate::entry_error::EntryError;
use crate::error::number_of;
use crate::fields::fields_of;
use crate::limits::{Phases, phases_of};
use crate::notation::{Notation, notation_of};
use crate::pattern::{Pattern, pattern_of};
use crate::rules_so_far::RulesSoFar;
use crate::{RuleError, RuleFault, RuleWhy};
use lexicon_definitions::{MOST_PHASES, MOST_RULE_LETTERS};
use phoneme::{Letter, Memory};
use sandhi_rules::Rule;
use std::alloc::Global;
use toml::Table;

/// Whether u or w of the rule is empty.
fn is_not_strict(rule: &Rule) -> bool
    ensures { result ≡ is_not_strict_of rule.now }
{
    rule.u.is_empty() || rule.w.is_empty()
}

/// Whether a part of the rule is too long.
fn is_long(rule: &Rule) -> bool
    ensures { result ≡ is_long_of rule.now }
{
    rule.u.len() > MOST_RULE_LETTERS
        || rule.v.len() > MOST_RULE_LETTERS
        || rule.w.len() > MOST_RULE_LETTERS
}

/// Whether one of the rules is not strict.
fn has_not_strict(rules: &[Rule]) -> bool
    ensures { result ≡ list_any is_not_strict_of rules.now }
{
    rules.iter().any(|rule| is_not_strict(rule))
}

/// Whether a part of one of the rules is too long.
fn has_long(rules: &[Rule]) -> bool
    ensures { result ≡ list_any is_long_of rules.now }
{
    rules.iter().any(|rule| is_long(rule))
}

/// Tests that each rule is strict, and no part of any is too long.
fn check_rules(rules: &[Rule]) -> Result<(), RuleWhy>
    ensures ok { OnOk result (strict_and_short rules.now ≡ Ok rules.now) }
    ensures why { IfErr result (λ why. strict_and_short rules.now ≡ Err (why_of why)) }
{
    if has_not_strict(rules) {
        return Err(RuleWhy::Strict);
    }
    if has_long(rules) {
        return Err(RuleWhy::Long);
    }
    Ok(())
}

/// Each of the letters, as what may be put in place of a class.
fn each_letter(alloc: Global, letters: &[Letter]) -> Result<Vec<Option<Letter>>, Memory>
    ensures { IfOk result (λ fillings. fillings.items ≡ map Some letters.now) }
{
    let mut fillings = Vec::with_capacity(alloc, letters.len())?;
    for letter in letters {
        fillings.push(Some(*letter))?;
    }
    Ok(fillings)
}

/// What may be put in place of the class with this name: each of its letters, or nothing, where there is no class.
/// `None` where no class has the name.
fn fillings_of(
    alloc: Global,
    classes: &Table,
    class: Option<&[u8]>,
) -> Result<Option<Vec<Option<Letter>>>, Memory>
    ensures { IfOk result (λ fillings. option_map (λ list. list.items) fillings ≡ fillings_of_class (table_view classes.now) (name_of class.entry)) }
{
    let Some(name) = class else {
        let mut fillings = Vec::new(alloc);
        fillings.push(None)?;
        return Ok(Some(fillings));
    };
    match letters_named(alloc, classes, name)? {
        Some(letters) => Ok(Some(each_letter(alloc, letters.as_slice())?)),
        None => Ok(None),
    }
}

/// The rules of the pattern between these phases, one for each filling.
fn rules_with(
    alloc: Global,
    phases: Phases,
    pattern: &Pattern,
    fillings: &[Option<Letter>],
) -> Result<Vec<Rule>, Memory>
    ensures { IfOk result (λ rules. rules.items ≡ map (rule_with phases pattern.now) fillings.now) }
{
    let mut rules = Vec::with_capacity(alloc, fillings.len())?;
    for filling in fillings {
        rules.push(pattern.rule_with(alloc, phases, filling)?)?;
    }
    Ok(rules)
}

/// The rules of the pattern, with each letter of the class with this name in its place, or without a class.
fn rules_of_pattern(
    alloc: Global,
    names: &[String],
    classes: &Table,
    limits: Option<(&[u8], &[u8])>,
    class: Option<&[u8]>,
    pattern: &Pattern,
) -> Result<Vec<Rule>, EntryError>
    requires { length names.now ≤ MOST_PHASES }
    ensures ok { IfOk result (λ rules. rules_of_pattern_of (map string_bytes names.now) (table_view classes.now) (limits_of limits.entry) (name_of class.entry) (Some pattern.now) ≡ Ok rules.items) }
    ensures why { IfErr result (λ error. IfWhy error (λ why. rules_of_pattern_of (map string_bytes names.now) (table_view classes.now) (limits_of limits.entry) (name_of class.entry) (Some pattern.now) ≡ Err why)) }
{
    let Some(fillings) = fillings_of(alloc, classes, class)? else {
        return Err(RuleWhy::Class.into());
    };
    let Some(phases) = phases_of(names, pattern.is_final(), limits) else {
        return Err(RuleWhy::Phase.into());
    };
    let rules = rules_with(alloc, phases, pattern, fillings.as_slice())?;
    check_rules(rules.as_slice())?;
    Ok(rules)
}

/// The rules of an entry with this notation, of which these fields tell the phases before and after them.
fn rules_of_notation(
    alloc: Global,
    names: &[String],
    classes: &Table,
    limits: Option<(&[u8], &[u8])>,
    notation: &Notation<'_>,
) -> Result<Vec<Rule>, EntryError>
    requires { length names.now ≤ MOST_PHASES }
    ensures ok { IfOk result (λ rules. rules_of_notation_of (map string_bytes names.now) (table_view classes.now) (limits_of limits.entry) (Some (written notation.now)) ≡ Ok rules.items) }
    ensures why { IfErr result (λ error. IfWhy error (λ why. rules_of_notation_of (map string_bytes names.now) (table_view classes.now) (limits_of limits.entry) (Some (written notation.now)) ≡ Err why)) }
{
    let pattern = pattern_of(alloc, notation)?;
    rules_of_pattern(alloc, names, classes, limits, notation.v.class, &pattern)
}

/// The rules that an entry stands for, over the phases with these names.
fn rules_of_entry(
    alloc: Global,
    names: &[String],
    classes: &Table,
    entry: &[u8],
) -> Result<Vec<Rule>, EntryError>
    requires { length names.now ≤ MOST_PHASES }
    ensures ok { IfOk result (λ rules. rules_of_entry_of (map string_bytes names.now) (table_view classes.now) entry.now ≡ Ok rules.items) }
    ensures why { IfErr result (λ error. IfWhy error (λ why. rules_of_entry_of (map string_bytes names.now) (table_view classes.now) entry.now ≡ Err why)) }
{
    let Some(fields) = fields_of(entry) else {
        return Err(RuleWhy::Shape.into());
    };
    let Some(notation) = notation_of(fields.notation) else {
        return Err(RuleWhy::Shape.into());
    };
    rules_of_notation(alloc, names, classes, fields.limits, &notation)
}

/// Adds the rules of the entry.
fn add_entry(
    alloc: Global,
    names: &[String],
    classes: &Table,
    rules: &mut RulesSoFar,
    entry: &[u8],
) -> Result<(), EntryError>
    requires few { length names.now ≤ MOST_PHASES }
    requires kept { IsKept rules.old }
    ensures kept { OnOk result (IsKept rules.new) }
    ensures ok { OnOk result (add_entry_of (map string_bytes names.now) (table_view classes.now) rules.old.rules.items entry.now ≡ Ok rules.new.rules.items) }
    ensures why { IfErr result (λ error. IfWhy error (λ why. add_entry_of (map string_bytes names.now) (table_view classes.now) rules.old.rules.items entry.now ≡ Err why)) }
{
    let new = rules_of_entry(alloc, names, classes, entry)?;
    rules.add_rules(alloc, new)
}

/// The error of the entry at this place, counted from 0.
fn error_at(place: usize, error: EntryError) -> RuleError
    ensures { IfFault result (λ fault. IsFaultOf fault (place + 1) error) }
{
    let EntryError::Why(why) = error else {
        return RuleError::Memory;
    };
    match number_of(place) {
        Ok(number) => RuleFault::Rule(number, why).into(),
        Err(_) => RuleError::Memory,
    }
}

/// The rules of all entries, over the phases with these names.
pub(crate) fn read_entries(
    alloc: Global,
    names: &[String],
    classes: &Table,
    entries: &[String],
) -> Result<Vec<Rule>, RuleError>
    requires { length names.now ≤ MOST_PHASES }
    ensures ok { IfOk result (λ rules. read_entries_of (map string_bytes names.now) (table_view classes.now) (map string_bytes entries.now) ≡ Ok rules.items) }
    ensures fault { IfErr result (λ error. IfFault error (λ fault. read_entries_of (map string_bytes names.now) (table_view classes.now) (map string_bytes entries.now) ≡ Err fault)) }
{
    let mut rules = RulesSoFar::new(alloc);
    for (place, entry) in entries.iter().enumerate() {
        if let Err(error) = add_entry(alloc, names, classes, &mut rules, entry.as_bytes()) {
            return Err(error_at(place, error));
        }
    }
    Ok(rules.into_rules())
}
