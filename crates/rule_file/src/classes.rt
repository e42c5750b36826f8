ghost use Rattle.std.specs.Prelude.{◌≡◌, ◌<◌, ◌^◌, ◌==◌, [], Ok, Err, is_some, length, OnOk, IfOk, IfErr};
ghost use Rattle.std.specs.List.{list_any, list_all};
ghost use Rattle.toml.specs.View.{view, table_view};
ghost use Rattle.text_definitions.specs.Slp1.{word_of_slp1};
ghost use Rattle.lexicon_definitions.specs.GrammarFaults.{is_small_letter as is_small_letter_of};
ghost use Rattle.rule_file_definitions.specs.SoundClasses.{is_sound_class_name as is_class_name_of, are_new, class_letters as class_letters_of, is_class as is_class_of, read_classes, letters_named as letters_named_of};
ghost use Rattle.rule_file.specs.Faults.{IfFault};
ghost use Rattle.rule_file.specs.Held.{word_of};

use crate::document::string_at;
use crate::error::number_of;
use crate::{RuleError, RuleFault};
use latin_schemes::{SpellError, read_slp1};
use lexicon_text_definitions::MOST_FILE_BYTES;
use phoneme::{Letter, Memory, Word};
use rule_file_definitions::MOST_CLASS_NAME_LETTERS;
use sandhi_rules::is_small_letter;
use std::alloc::Global;
use toml::{Table, Value};

/// The word that the bytes spell in SLP1, where they spell one. Want of memory stands for a text that is longer than any
/// file may be.
pub(crate) fn spelled(alloc: Global, text: &[u8]) -> Result<Option<Word>, Memory>
    ensures { IfOk result (λ word. word ≡ word_of (word_of_slp1 text.now)) }
{
    if text.len() > MOST_FILE_BYTES {
        return Err(Memory);
    }
    match read_slp1(alloc, text) {
        Ok(word) => Ok(Some(word)),
        Err(SpellError::Fault(_)) => Ok(None),
        Err(SpellError::Memory) => Err(Memory),
    }
}

/// Whether each of the bytes is a small letter.
fn are_small_letters(bytes: &[u8]) -> bool
    ensures { result ≡ list_all is_small_letter_of bytes.now }
{
    bytes.iter().all(|byte| is_small_letter(*byte))
}

/// Whether a class may have this name.
fn is_sound_class_name(name: &[u8]) -> bool
    ensures { result ≡ is_class_name_of name.now }
{
    let [_, ..] = name else {
        return false;
    };
    if name.len() > MOST_CLASS_NAME_LETTERS {
        return false;
    }
    are_small_letters(name)
}

/// Whether one of the letters is this one.
fn has_letter(letters: &[Letter], letter: Letter) -> bool
    ensures { result ≡ list_any (λ other. other == letter) letters.now }
{
    letters.iter().any(|other| *other == letter)
}

/// Whether no letter comes twice.
fn are_different(letters: &[Letter]) -> bool
    ensures { result ≡ are_new [] letters.now }
{
    for (place, letter) in letters.iter().enumerate() {
        if has_letter(&letters[..place], *letter) {
            return false;
        }
    }
    true
}

/// The letters of a class with this text, where it spells one or more different ones.
fn class_letters(alloc: Global, text: &[u8]) -> Result<Option<Word>, Memory>
    ensures { IfOk result (λ word. word ≡ class_letters_of text.now) }
{
    let Some(word) = spelled(alloc, text)? else {
        return Ok(None);
    };
    if word.is_empty() {
        return Ok(None);
    }
    if !are_different(word.as_slice()) {
        return Ok(None);
    }
    Ok(Some(word))
}

/// Whether the member of the table is a class.
fn is_class(alloc: Global, name: &[u8], member: &Value) -> Result<bool, Memory>
    ensures { IfOk result (λ is_class. is_class ≡ is_class_of name.now (view member.now)) }
{
    let Value::String(text) = member else {
        return Ok(false);
    };
    Ok(is_sound_class_name(name) && class_letters(alloc, text.as_bytes())?.is_some())
}

/// Tests the classes, by rising name.
pub(crate) fn check_classes(alloc: Global, classes: &Table) -> Result<(), RuleError>
    ensures ok { OnOk result (read_classes (table_view classes.now) ≡ Ok (table_view classes.now)) }
    ensures fault { IfErr result (λ error. IfFault error (λ fault. read_classes (table_view classes.now) ≡ Err fault)) }
{
    let mut place: u32 = 0;
    for (name, member) in classes.iter() {
        let number = number_of(place as usize)?;
        if !is_class(alloc, name.as_bytes(), member)? {
            return Err(RuleFault::Class(number).into());
        }
        place = number;
    }
    Ok(())
}

/// The letters of the class with this name.
pub(crate) fn letters_named(
    alloc: Global,
    classes: &Table,
    name: &[u8],
) -> Result<Option<Word>, Memory>
    ensures { IfOk result (λ word. word ≡ letters_named_of (table_view classes.now) name.now) }
{
    if !is_sound_class_name(name) {
        return Ok(None);
    }
    let Ok(name) = std::str::from_utf8(name) else {
        return Ok(None);
    };
    match string_at(classes, name) {
        Some(text) => class_letters(alloc, text.as_bytes()),
        None => Ok(None),
    }
}
