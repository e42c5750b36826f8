ghost use Rattle.std.specs.Prelude.{◌≡◌, MatchOption, None, Some, is_some};
ghost use Rattle.list_laws.specs.Cuts.{cut as cut_of};
ghost use Rattle.rule_file_definitions.specs.EntryPhases.{fields_of as fields_of_entry};
ghost use Rattle.rule_file.specs.Written.{fields_written};

use crate::cutting::cut;

/// The fields of an entry of the rules: its notation, and those that tell the phases before and after its rules, where it has
/// them.
#[derive(Clone, Copy)]
pub(crate) struct Fields<'a> {
    pub notation: &'a [u8],
    pub limits: Option<(&'a [u8], &'a [u8])>,
}

/// Whether a blank stands in the text.
fn has_blank(text: &[u8]) -> bool
    ensures { result ≡ is_some (cut_of 32 text.now) }
{
    cut(text, b' ').is_some()
}

/// The one or three fields of an entry, with one blank between; `None` where it has any other number of them.
pub(crate) fn fields_of(entry: &[u8]) -> Option<Fields<'_>>
    ensures { MatchOption result (fields_of_entry entry.now ≡ None) (λ fields. fields_of_entry entry.now ≡ Some (fields_written fields)) }
{
    let Some((notation, rest)) = cut(entry, b' ') else {
        return Some(Fields {
            notation: entry,
            limits: None,
        });
    };
    let Some((before, after)) = cut(rest, b' ') else {
        return None;
    };
    if has_blank(after) {
        return None;
    }
    Some(Fields {
        notation,
        limits: Some((before, after)),
    })
}
