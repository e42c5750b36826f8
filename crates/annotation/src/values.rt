ghost use Rattle.std.specs.Prelude.{◌≡◌, map, IfOk};
ghost use Rattle.serde_json.specs.View.{view};
ghost use Rattle.bookmark_definitions.specs.BookmarkTexts.{text_of_choice};
ghost use Rattle.session_definitions.specs.PrintedSummaries.{printed_analysis};
ghost use Rattle.form_tags.specs.Analyses.{text_analysis};
ghost use Rattle.note_definitions.specs.NoteTexts.{texts};

use bookmarks::print_choice;
use derivation::Choice;
use form_analyses::print_analysis;
use form_tags::Analysis;
use phoneme::Memory;
use serde_json::Value;
use std::alloc::Global;

/// The texts of the choices, as a JSON value.
pub(crate) fn choices_value(alloc: Global, choices: &[Choice]) -> Result<Value, Memory>
    ensures ok { IfOk result (λ value. view value ≡ texts (map text_of_choice choices.now)) }
{
    let mut list = Vec::with_capacity(alloc, choices.len())?;
    for choice in choices {
        list.push(Value::String(print_choice(alloc, choice)?))?;
    }
    Ok(Value::Array(list))
}

/// `STEM TAG` of each analysis, as a JSON value.
pub(crate) fn tags_value(alloc: Global, analyses: &[Analysis]) -> Result<Value, Memory>
    ensures ok { IfOk result (λ value. view value ≡ texts (map printed_analysis (map text_analysis analyses.now))) }
{
    let mut list = Vec::with_capacity(alloc, analyses.len())?;
    for analysis in analyses {
        list.push(Value::String(print_analysis(alloc, analysis)?))?;
    }
    Ok(Value::Array(list))
}
