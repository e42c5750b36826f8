ghost use Rattle.std.specs.Prelude.{◌≡◌, Ok, Err, OnOk, IfOk, IfErr, map, option_and_then, string_bytes};
ghost use Rattle.std.specs.List.Sorted.{IsStrictlySortedBy};
ghost use Rattle.toml.specs.View.{table_view};
ghost use Rattle.list_laws.specs.RisingSets.{with_element, with_elements};
ghost use Rattle.lexicon_definitions.specs.Lexicons.{compare_pairs};
ghost use Rattle.rule_file_definitions.specs.SoundClasses.{letters_named as letters_named_of};
ghost use Rattle.rule_file_definitions.specs.PlainEntries.{name_between as name_between_of, side_letters as side_letters_of, pairs_between, pairs_of, read_plain as read_plain_of};
ghost use Rattle.rule_file.specs.Faults.{IfFault};
ghost use Rattle.rule_file.specs.Held.{AreAdded};

use crate::classes::{letters_named, spelled};
use crate::cutting::{cut, name_between};
use crate::error::number_of;
use crate::{RuleError, RuleFault};
use phoneme::{Letter, Memory, Word};
use std::alloc::Global;
use toml::Table;

/// The letters of the class that the side names.
fn class_letters(alloc: Global, classes: &Table, side: &[u8]) -> Result<Option<Word>, Memory>
    ensures { IfOk result (λ letters. letters ≡ option_and_then (letters_named_of (table_view classes.now)) (name_between_of side.now)) }
{
    match name_between(side) {
        Some(name) => letters_named(alloc, classes, name),
        None => Ok(None),
    }
}

/// The one letter that the side spells, or the letters of the class that it names.
fn side_letters(alloc: Global, classes: &Table, side: &[u8]) -> Result<Option<Word>, Memory>
    ensures { IfOk result (λ letters. letters ≡ side_letters_of (table_view classes.now) side.now) }
{
    let Some(word) = spelled(alloc, side)? else {
        return class_letters(alloc, classes, side);
    };
    if word.len() != 1 {
        return class_letters(alloc, classes, side);
    }
    Ok(Some(word))
}

/// Puts the pair in its place among the rising pairs, unless it is there.
fn add_pair(pairs: &mut Vec<(Letter, Letter)>, pair: &(Letter, Letter)) -> Result<(), Memory>
    requires { IsStrictlySortedBy compare_pairs pairs.old.items }
    ensures { OnOk result (pairs.new.items ≡ with_element compare_pairs pairs.old.items pair.now) }
{
    if let Err(at) = pairs.binary_search(pair) {
        pairs.insert(at, *pair)?;
    }
    Ok(())
}

/// Puts the pairs of the letter with each of these among the pairs.
fn add_pairs_of(
    pairs: &mut Vec<(Letter, Letter)>,
    left: Letter,
    right: &[Letter],
) -> Result<(), Memory>
    requires { IsStrictlySortedBy compare_pairs pairs.old.items }
    ensures { OnOk result (pairs.new.items ≡ with_elements compare_pairs pairs.old.items (map (λ y. (left, y)) right.now)) }
{
    for letter in right {
        add_pair(pairs, &(left, *letter))?;
    }
    Ok(())
}

/// Puts the pairs of each of the letters on the left with each on the right among the pairs.
fn add_pairs(
    pairs: &mut Vec<(Letter, Letter)>,
    left: &[Letter],
    right: &[Letter],
) -> Result<(), Memory>
    requires { IsStrictlySortedBy compare_pairs pairs.old.items }
    ensures { OnOk result (pairs.new.items ≡ with_elements compare_pairs pairs.old.items (pairs_between left.now right.now)) }
{
    for letter in left {
        add_pairs_of(pairs, *letter, right)?;
    }
    Ok(())
}

/// Puts the pairs that the entry stands for among the pairs. False where it stands for no pairs.
fn add_entry(
    alloc: Global,
    classes: &Table,
    pairs: &mut Vec<(Letter, Letter)>,
    entry: &[u8],
) -> Result<bool, Memory>
    requires { IsStrictlySortedBy compare_pairs pairs.old.items }
    ensures { IfOk result (λ is_entry. AreAdded (pairs_of (table_view classes.now) entry.now) pairs.old.items is_entry pairs.new.items) }
{
    let Some((left, right)) = cut(entry, b' ') else {
        return Ok(false);
    };
    let Some(left) = side_letters(alloc, classes, left)? else {
        return Ok(false);
    };
    let Some(right) = side_letters(alloc, classes, right)? else {
        return Ok(false);
    };
    add_pairs(pairs, left.as_slice(), right.as_slice())?;
    Ok(true)
}

/// The pairs of all entries, rising.
pub(crate) fn read_plain(
    alloc: Global,
    classes: &Table,
    entries: &[String],
) -> Result<Vec<(Letter, Letter)>, RuleError>
    ensures ok { IfOk result (λ pairs. read_plain_of (table_view classes.now) (map string_bytes entries.now) ≡ Ok pairs.items) }
    ensures fault { IfErr result (λ error. IfFault error (λ fault. read_plain_of (table_view classes.now) (map string_bytes entries.now) ≡ Err fault)) }
{
    let mut pairs = Vec::new(alloc);
    for (place, entry) in entries.iter().enumerate() {
        if !add_entry(alloc, classes, &mut pairs, entry.as_bytes())? {
            return Err(RuleFault::Plain(number_of(place)?).into());
        }
    }
    Ok(pairs)
}
