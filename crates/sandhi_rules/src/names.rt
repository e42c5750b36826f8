ghost use Rattle.std.specs.Prelude.{◌≡◌, ◌<◌, length, map, IfSome};
ghost use Rattle.std.specs.List.{list_all, position};
ghost use Rattle.std.specs.Str.{bytes_eq};
ghost use Rattle.std.specs.String.{string_bytes};
ghost use Rattle.lexicon_definitions.specs.GrammarTexts.{is_name_byte as is_name_byte_of};
ghost use Rattle.lexicon_definitions.specs.GrammarFaults.{is_small_letter as is_small_letter_of};
ghost use Rattle.lexicon_definitions.specs.PhaseNames.{is_phase_name as is_phase_name_of};

use lexicon_definitions::MOST_NAME_BYTES;

/// Whether the byte is a small letter, a digit or `_`.
fn is_name_byte(byte: u8) -> bool
    ensures { result ≡ is_name_byte_of byte }
{
    matches!(byte, b'a'..=b'z' | b'0'..=b'9' | b'_')
}

/// Whether each of the bytes may stand in a phase's name.
fn are_name_bytes(bytes: &[u8]) -> bool
    ensures { result ≡ list_all is_name_byte_of bytes.now }
{
    bytes.iter().all(|byte| is_name_byte(*byte))
}

/// Whether the byte is a small letter, with which the name of a phase begins.
pub fn is_small_letter(byte: u8) -> bool
    ensures { result ≡ is_small_letter_of byte }
{
    matches!(byte, b'a'..=b'z')
}

/// Whether a phase's name has 1 to 16 bytes, the first a small letter, the others small letters, digits or `_`.
pub fn is_phase_name(name: &[u8]) -> bool
    ensures { result ≡ is_phase_name_of name.now }
{
    let [first, others @ ..] = name else {
        return false;
    };
    if !is_small_letter(*first) {
        return false;
    }
    if name.len() > MOST_NAME_BYTES {
        return false;
    }
    are_name_bytes(others)
}

/// The number of the first phase that has this name, counted from 0.
pub fn phase_named(names: &[String], name: &[u8]) -> Option<usize>
    ensures named { result ≡ position (bytes_eq name.now) (map string_bytes names.now) }
    ensures within { IfSome result (λ phase. phase < length names.now) }
{
    for (phase, known) in names.iter().enumerate() {
        if name == known.as_bytes() {
            return Some(phase);
        }
    }
    None
}
