ghost use Rattle.std.specs.Prelude.{◌≡◌, ◌≢◌, ◌∷◌, ◌<◌, ◌&&◌, ◌||◌, ◌==◌, [], length, MatchOption, Some, IsTrue};
ghost use Rattle.csv.specs.Records.{fields_of, field_at};
ghost use Rattle.paradigm_file_definitions.specs.TableFiles.{cut_of, if_cut as if_cut_of, is_class_byte as is_class_byte_of, is_class_name as is_class_name_of};
ghost use Rattle.std.specs.List.{list_all};

use csv::ByteRecord;
use lexicon_definitions::MOST_FORM_LETTERS;
use paradigm_file_definitions::MOST_CLASS_NAME_BYTES;

/// The fields of a table's record.
#[derive(Clone, Copy)]
pub(crate) struct TableFields<'a> {
    pub class: &'a [u8],
    pub tag: &'a [u8],
    pub phase: &'a [u8],
    pub prefix: &'a [u8],
    pub cut: &'a [u8],
    pub ending: &'a [u8],
}

/// The field at a place, counted from 0.
fn field(csv_record: &ByteRecord, place: usize) -> &[u8]
    requires { place < length (fields_of csv_record.now) }
    ensures { field_at (fields_of csv_record.now) place ≡ Some result.now }
{
    csv_record.get(place).unwrap()
}

/// The fields of a table's record, where it has as many as such a record has.
pub(crate) fn table_fields(csv_record: &ByteRecord) -> Option<TableFields<'_>>
    ensures { MatchOption result (length (fields_of csv_record.now) ≢ 6)
        (λ fields. fields_of csv_record.now ≡ fields.class.now ∷ fields.tag.now ∷ fields.phase.now ∷ fields.prefix.now ∷ fields.cut.now ∷ fields.ending.now ∷ []) }
{
    if csv_record.len() != 6 {
        return None;
    }
    Some(TableFields {
        class: field(csv_record, 0),
        tag: field(csv_record, 1),
        phase: field(csv_record, 2),
        prefix: field(csv_record, 3),
        cut: field(csv_record, 4),
        ending: field(csv_record, 5),
    })
}

/// The fields of a stem's record, the stem and the class, where it has two.
pub(crate) fn stem_fields(csv_record: &ByteRecord) -> Option<(&[u8], &[u8])>
    ensures { MatchOption result (length (fields_of csv_record.now) ≢ 2)
        (λ fields. fields_of csv_record.now ≡ fields.0.now ∷ fields.1.now ∷ []) }
{
    if csv_record.len() != 2 {
        return None;
    }
    Some((field(csv_record, 0), field(csv_record, 1)))
}

/// Whether the byte may stand in the name of a class.
fn is_class_byte(byte: u8) -> bool
    ensures { result ≡ is_class_byte_of byte }
{
    byte.is_ascii_alphanumeric() || byte == b'.' || byte == b'_'
}

/// Whether each of the bytes may stand in the name of a class.
fn are_class_bytes(bytes: &[u8]) -> bool
    ensures { result ≡ list_all is_class_byte_of bytes.now }
{
    bytes.iter().all(|byte| is_class_byte(*byte))
}

/// Whether the bytes are the name of a class: 1 to 16 letters, digits, `.` and `_`.
pub(crate) fn is_class_name(name: &[u8]) -> bool
    ensures { result ≡ is_class_name_of name.now }
{
    match name {
        [] => false,
        [_, ..] => name.len() <= MOST_CLASS_NAME_BYTES && are_class_bytes(name),
    }
}

/// The number of letters that a row cuts, in one or two digits.
pub(crate) fn read_cut(text: &[u8]) -> Option<u32>
    ensures { result ≡ cut_of text.now }
{
    match text {
        [digit] if digit.is_ascii_digit() => if_cut(u32::from(*digit - b'0')),
        [tens, ones] if tens.is_ascii_digit() && ones.is_ascii_digit() => {
            if_cut(10 * u32::from(*tens - b'0') + u32::from(*ones - b'0'))
        }
        _ => None,
    }
}

/// The number, where a stem may have as many letters.
fn if_cut(number: u32) -> Option<u32>
    ensures { result ≡ if_cut_of number }
{
    if number as usize <= MOST_FORM_LETTERS {
        Some(number)
    } else {
        None
    }
}
