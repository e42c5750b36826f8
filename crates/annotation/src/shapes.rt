ghost use Rattle.std.specs.Prelude.{◌≡◌, ◌&&◌, Some, None, codes, option_map, option_and_then, MatchOption};
ghost use Rattle.std.specs.List.{list_any};
ghost use Rattle.std.specs.Str.{bytes_eq};
ghost use Rattle.serde_json.specs.Find.{get, as_str, as_array};
ghost use Rattle.serde_json.specs.View.{view, items_view, members_view};
ghost use Rattle.note_definitions.specs.NoteShapes.{has_only, is_number, is_one, is_text, is_some_texts, as_texts, texts_of, segment_names, is_segment as is_segment_value, are_segments as are_segment_values, is_segments, note_names, parts_of_value};
ghost use Rattle.annotation.specs.Objects.{texts_in};

use note_definitions::MOST_NOTE_NUMBER;
use serde_json::{Map, Value};

/// What a note says of its line and its choices: a text, and a list of values, each of which is a text.
#[derive(Drop)]
pub(crate) struct NoteParts<'a> {
    pub(crate) text: &'a str,
    pub(crate) choices: &'a [Value],
}

/// Whether a member of a note has this name.
fn is_note_name(name: &str) -> bool
    ensures { result ≡ list_any (bytes_eq name.now) note_names }
{
    name == "choices" || name == "segments" || name == "text" || name == "version"
}

/// Whether a member of a segment has this name.
fn is_segment_name(name: &str) -> bool
    ensures { result ≡ list_any (bytes_eq name.now) segment_names }
{
    name == "at"
        || name == "form"
        || name == "lead"
        || name == "phase"
        || name == "rule"
        || name == "tags"
        || name == "taken"
}

/// Whether each member has a name of a note's members.
fn has_note_names(members: &Map<String, Value>) -> bool
    ensures { result ≡ has_only note_names (members_view members.now.entries) }
{
    members.keys().all(|name| is_note_name(name.as_str()))
}

/// Whether each member has a name of a segment's members.
fn has_segment_names(members: &Map<String, Value>) -> bool
    ensures { result ≡ has_only segment_names (members_view members.now.entries) }
{
    members.keys().all(|name| is_segment_name(name.as_str()))
}

/// Whether the object has a number under this name, which is written in digits alone and is not too great.
fn has_number(object: &Value, name: &str) -> bool
    ensures { result ≡ is_number (get name.now (view object.now)) }
{
    match object.get(name).and_then(Value::as_u64) {
        Some(number) => number <= MOST_NOTE_NUMBER,
        None => false,
    }
}

/// The text that the object has under this name.
fn text_under<'a>(object: &'a Value, name: &str) -> Option<&'a str>
    ensures { option_map (λ text. text.now) result ≡ option_and_then as_str (get name.now (view object.now)) }
{
    object.get(name).and_then(Value::as_str)
}

/// The list that the object has under this name.
fn list_under<'a>(object: &'a Value, name: &str) -> Option<&'a [Value]>
    ensures { option_map (λ values. items_view values.now) result ≡ option_and_then as_array (get name.now (view object.now)) }
{
    match object.get(name).and_then(Value::as_array) {
        Some(values) => Some(values.as_slice()),
        None => None,
    }
}

/// Whether the object has a text under this name.
fn has_text(object: &Value, name: &str) -> bool
    ensures { result ≡ is_text (get name.now (view object.now)) }
{
    text_under(object, name).is_some()
}

/// Whether each of the values is a text.
fn are_texts(values: &[Value]) -> bool
    ensures { result ≡ is_some_texts (texts_of (items_view values.now)) }
{
    values.iter().all(|value| value.is_string())
}

/// Whether the object has a list of texts under this name.
fn has_texts(object: &Value, name: &str) -> bool
    ensures { result ≡ is_some_texts (as_texts (get name.now (view object.now))) }
{
    match list_under(object, name) {
        Some(values) => are_texts(values),
        None => false,
    }
}

/// Whether the object has the first members of a segment, by name, each of its kind.
fn has_first_members(object: &Value) -> bool
    ensures { result ≡ (is_number (get (codes "at") (view object.now)) && is_text (get (codes "form") (view object.now))
        && is_number (get (codes "lead") (view object.now))) }
{
    has_number(object, "at") && has_text(object, "form") && has_number(object, "lead")
}

/// Whether the object has the other members of a segment, each of its kind.
fn has_other_members(object: &Value) -> bool
    ensures { result ≡ (is_text (get (codes "phase") (view object.now)) && is_number (get (codes "rule") (view object.now))
        && is_some_texts (as_texts (get (codes "tags") (view object.now))) && is_number (get (codes "taken") (view object.now))) }
{
    has_text(object, "phase")
        && has_number(object, "rule")
        && has_texts(object, "tags")
        && has_number(object, "taken")
}

/// Whether the value is an object with exactly the members of a segment, each of its kind.
fn is_segment(value: &Value) -> bool
    ensures { result ≡ is_segment_value (view value.now) }
{
    let Some(members) = value.as_object() else {
        return false;
    };
    has_segment_names(members) && has_first_members(value) && has_other_members(value)
}

/// Whether each of the values is a segment.
fn are_segments(values: &[Value]) -> bool
    ensures { result ≡ are_segment_values (items_view values.now) }
{
    values.iter().all(|value| is_segment(value))
}

/// Whether the note has a list of segments.
fn has_segments(note: &Value) -> bool
    ensures { result ≡ is_segments (get (codes "segments") (view note.now)) }
{
    match list_under(note, "segments") {
        Some(values) => are_segments(values),
        None => false,
    }
}

/// Whether the note has the version 1.
fn has_version(note: &Value) -> bool
    ensures { result ≡ is_one (get (codes "version") (view note.now)) }
{
    note.get("version").and_then(Value::as_u64) == Some(1)
}

/// Whether the object has just the members of a note, a list of segments, and the version 1.
fn is_shaped(object: &Value, members: &Map<String, Value>) -> bool
    ensures { result ≡ (has_only note_names (members_view members.now.entries)
        && is_segments (get (codes "segments") (view object.now)) && is_one (get (codes "version") (view object.now))) }
{
    has_note_names(members) && has_segments(object) && has_version(object)
}

/// The texts of the line and of the choices, where the value is an object with exactly the members of a note, each of its kind, and of
/// version 1.
pub(crate) fn note_parts(note: &Value) -> Option<NoteParts<'_>>
    ensures { MatchOption result (parts_of_value (view note.now) ≡ None)
        (λ parts. parts_of_value (view note.now) ≡ Some (record { text = parts.text.now; choices = texts_in parts.choices.now })) }
{
    let Some(members) = note.as_object() else {
        return None;
    };
    if !is_shaped(note, members) {
        return None;
    }
    let Some(text) = text_under(note, "text") else {
        return None;
    };
    let Some(choices) = list_under(note, "choices") else {
        return None;
    };
    if !are_texts(choices) {
        return None;
    }
    Some(NoteParts { text, choices })
}
