ghost use Rattle.std.specs.Prelude.{◌≡◌, false, Some, None, IfOk, IfErr, is_some, map, option_map, option_and_then, string_bytes, codes};
ghost use Rattle.toml.specs.Data.{Members, no_members, get_member, as_str, as_array, as_table};
ghost use Rattle.toml.specs.View.{array_view, table_view};
ghost use Rattle.rule_file_definitions.specs.RuleFileFaults.{Toml as TomlFault, Shape as ShapeFault};
ghost use Rattle.rule_file_definitions.specs.RuleTexts.{document_of, texts_of as texts_of_items, as_texts, as_text, as_classes, are_texts as are_texts_of, has_known_keys as has_known_keys_of, known_keys, texts_of_document};
ghost use Rattle.std.specs.List.{list_any};
ghost use Rattle.std.specs.Str.{bytes_eq};
ghost use Rattle.rule_file.specs.Faults.{fault_of, IfFault};
ghost use Rattle.rule_file.specs.Held.{texts_with_classes};

use crate::{RuleError, RuleFault};
use std::alloc::Global;
use toml::value::Array;
use toml::{Table, Value};

/// The texts of a rule file but for its classes, copied out of its document.
#[derive(Drop)]
pub(crate) struct Texts {
    pub phases: Vec<String>,
    pub grammar: String,
    pub plain: Vec<String>,
    pub rules: Vec<String>,
}

/// The error of a document that was refused.
fn document_error(is_memory: bool) -> RuleError
    ensures { IfFault result (λ fault. (is_memory ≡ false) × (fault ≡ TomlFault)) }
{
    if is_memory {
        RuleError::Memory
    } else {
        RuleFault::Toml.into()
    }
}

/// The document of the bytes.
pub(crate) fn read_document(alloc: Global, bytes: &[u8]) -> Result<Table, RuleError>
    ensures ok { IfOk result (λ root. document_of bytes.now ≡ Some (table_view root)) }
    ensures fault { IfErr result (λ error. IfFault error (λ fault. (fault ≡ TomlFault) × (document_of bytes.now ≡ None))) }
{
    match toml::table_from_slice(alloc, bytes) {
        Ok(table) => Ok(table),
        Err(error) => Err(document_error(error.is_memory())),
    }
}

/// Whether the key is one of those of a rule file.
fn is_known_key(key: &str) -> bool
    ensures { result ≡ list_any (bytes_eq key.now) known_keys }
{
    key == "phases" || key == "grammar" || key == "plain" || key == "rules" || key == "classes"
}

/// Whether each key of the table is one of a rule file.
fn has_known_keys(root: &Table) -> bool
    ensures { result ≡ has_known_keys_of (table_view root.now) }
{
    for (key, _) in root.iter() {
        if !is_known_key(key.as_str()) {
            return false;
        }
    }
    true
}

/// The texts of an array of strings.
fn texts_of(alloc: Global, items: &Array) -> Result<Vec<String>, RuleError>
    ensures ok { IfOk result (λ texts. texts_of_items (array_view items.now) ≡ Some (map string_bytes texts.items)) }
    ensures fault { IfErr result (λ error. IfFault error (λ fault. (fault ≡ ShapeFault) × (texts_of_items (array_view items.now) ≡ None))) }
{
    let mut texts = Vec::with_capacity(alloc, items.len())?;
    for item in items {
        let Value::String(text) = item else {
            return Err(RuleFault::Shape.into());
        };
        texts.push(text.clone()?)?;
    }
    Ok(texts)
}

/// The string at the key.
pub(crate) fn string_at<'a>(root: &'a Table, key: &str) -> Option<&'a str>
    ensures { option_map (λ text. text.now) result ≡ option_and_then as_str (get_member key.now (table_view root.now)) }
{
    match root.get(key) {
        Some(value) => value.as_str(),
        None => None,
    }
}

/// The array at the key.
fn array_at<'a>(root: &'a Table, key: &str) -> Option<&'a Array>
    ensures { option_map (λ items. array_view items.now) result ≡ option_and_then as_array (get_member key.now (table_view root.now)) }
{
    match root.get(key) {
        Some(value) => value.as_array(),
        None => None,
    }
}

/// The table at the key.
fn table_at<'a>(root: &'a Table, key: &str) -> Option<&'a Table>
    ensures { option_map (λ members. table_view members.now) result ≡ option_and_then as_table (get_member key.now (table_view root.now)) }
{
    match root.get(key) {
        Some(value) => value.as_table(),
        None => None,
    }
}

/// Whether the table has the key.
fn has_key(root: &Table, key: &str) -> bool
    ensures { result ≡ is_some (get_member key.now (table_view root.now)) }
{
    root.get(key).is_some()
}

/// The texts of the array of strings at the key.
fn texts_at(alloc: Global, root: &Table, key: &str) -> Result<Vec<String>, RuleError>
    ensures ok { IfOk result (λ texts. as_texts (get_member key.now (table_view root.now)) ≡ Some (map string_bytes texts.items)) }
    ensures fault { IfErr result (λ error. IfFault error (λ fault. (fault ≡ ShapeFault) × (as_texts (get_member key.now (table_view root.now)) ≡ None))) }
{
    let Some(items) = array_at(root, key) else {
        return Err(RuleFault::Shape.into());
    };
    texts_of(alloc, items)
}

/// The text of the string at the key.
fn text_at(alloc: Global, root: &Table, key: &str) -> Result<String, RuleError>
    ensures ok { IfOk result (λ text. as_text (get_member key.now (table_view root.now)) ≡ Some (string_bytes text)) }
    ensures fault { IfErr result (λ error. IfFault error (λ fault. (fault ≡ ShapeFault) × (as_text (get_member key.now (table_view root.now)) ≡ None))) }
{
    let Some(text) = string_at(root, key) else {
        return Err(RuleFault::Shape.into());
    };
    Ok(String::from_str(alloc, text)?)
}

/// Whether each member of the table is a string.
fn are_texts(members: &Table) -> bool
    ensures { result ≡ are_texts_of (table_view members.now) }
{
    for (_, member) in members.iter() {
        let Value::String(_) = member else {
            return false;
        };
    }
    true
}

/// The table of the classes, or `none`, which is empty, where the file has no classes.
pub(crate) fn classes_in<'a>(root: &'a Table, none: &'a Table) -> Result<&'a Table, RuleFault>
    requires { table_view none.now ≡ no_members }
    ensures ok { IfOk result (λ classes. as_classes (get_member (codes "classes") (table_view root.now)) ≡ Some (table_view classes.now)) }
    ensures fault { IfErr result (λ fault. (fault_of fault ≡ ShapeFault) × (as_classes (get_member (codes "classes") (table_view root.now)) ≡ None)) }
{
    if !has_key(root, "classes") {
        return Ok(none);
    }
    let Some(members) = table_at(root, "classes") else {
        return Err(RuleFault::Shape);
    };
    if are_texts(members) {
        Ok(members)
    } else {
        Err(RuleFault::Shape)
    }
}

/// The other texts.
pub(crate) fn texts_in(alloc: Global, root: &Table) -> Result<Texts, RuleError>
    ensures ok { IfOk result (λ texts. (classes : Members) → as_classes (get_member (codes "classes") (table_view root.now)) ≡ Some classes
        → texts_of_document (table_view root.now) ≡ Some (texts_with_classes texts classes)) }
    ensures fault { IfErr result (λ error. IfFault error (λ fault. (fault ≡ ShapeFault) × (texts_of_document (table_view root.now) ≡ None))) }
{
    if !has_known_keys(root) {
        return Err(RuleFault::Shape.into());
    }
    let phases = texts_at(alloc, root, "phases")?;
    let grammar = text_at(alloc, root, "grammar")?;
    let plain = texts_at(alloc, root, "plain")?;
    let rules = texts_at(alloc, root, "rules")?;
    Ok(Texts {
        phases,
        grammar,
        plain,
        rules,
    })
}
