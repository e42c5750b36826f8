ghost use Rattle.std.specs.Prelude.{◌≡◌, ◌+◌, ◌<◌, ◌≤◌, [], length, map, string_bytes, IfOk};
ghost use Rattle.serde_json.specs.Data.{array};
ghost use Rattle.serde_json.specs.View.{view, items_of};
ghost use Rattle.lexicon_definitions.specs.Lexicons.{rule_of};
ghost use Rattle.derivation.specs.Steps.{StandIn, placed_with, places_of};
ghost use Rattle.note_definitions.specs.NoteTexts.{segment_of};
ghost use Rattle.annotation.specs.Objects.{segment_with};

use crate::values::tags_value;
use annotated_trie::Lexicon;
use derivation::{Step, form_after};
use form_analyses::analyses_of_form;
use latin_schemes::print_slp1;
use phoneme::{Line, Memory};
use serde_json::{Map, Value, put};
use std::alloc::{AllocError, Global};

/// The object of a step with this form in SLP1, this name of its phase and these tags.
fn segment_object(
    alloc: Global,
    step: &Step,
    form: String,
    name: &str,
    tags: Value,
) -> Result<Value, AllocError>
    ensures { IfOk result (λ value. view value ≡ segment_with step.now.at (string_bytes form) step.now.lead name.now step.now.rule (view tags) step.now.taken) }
{
    let mut members = Map::new(alloc);
    put(&mut members, alloc, "at", Value::from(step.at))?;
    put(&mut members, alloc, "form", Value::String(form))?;
    put(&mut members, alloc, "lead", Value::from(step.lead))?;
    put(
        &mut members,
        alloc,
        "phase",
        Value::try_from_str(alloc, name)?,
    )?;
    put(&mut members, alloc, "rule", Value::from(step.rule))?;
    put(&mut members, alloc, "tags", tags)?;
    put(&mut members, alloc, "taken", Value::from(step.taken))?;
    Ok(Value::Object(members))
}

/// The object of a step after the rule with the number `before`, where 0 stands for no rule.
fn segment_value(
    alloc: Global,
    lexicon: &Lexicon,
    line: &Line,
    before: u32,
    step: &Step,
) -> Result<Value, Memory>
    requires before { before ≤ length lexicon.now.lexicon.rules.rules }
    requires phase { step.now.phase < length lexicon.now.lexicon.rules.names }
    requires rule { step.now.rule ≤ length lexicon.now.lexicon.rules.rules }
    requires within { step.now.at + step.now.taken ≤ length line.now.letters }
    ensures ok { IfOk result (λ value. view value ≡ segment_of lexicon.now.lexicon
        (placed_with lexicon.now.lexicon.rules line.now.letters (rule_of lexicon.now.lexicon.rules before).v step.now)) }
{
    let rules = lexicon.rules();
    let form = form_after(alloc, rules, line, before, step)?;
    let analyses = analyses_of_form(alloc, lexicon, step.phase, &form)?;
    let tags = tags_value(alloc, analyses.as_slice())?;
    let spelled = print_slp1(alloc, &form)?;
    let name = rules.phases()[step.phase as usize].as_str();
    Ok(segment_object(alloc, step, spelled, name, tags)?)
}

/// The objects of the steps, as a JSON value.
pub(crate) fn segments_value(
    alloc: Global,
    lexicon: &Lexicon,
    line: &Line,
    steps: &[Step],
) -> Result<Value, Memory>
    requires stand { StandIn lexicon.now.lexicon.rules line.now.letters steps.now }
    ensures ok { IfOk result (λ value. view value ≡ array (items_of (map (segment_of lexicon.now.lexicon)
        (places_of lexicon.now.lexicon.rules line.now.letters [] steps.now)))) }
{
    let mut list = Vec::with_capacity(alloc, steps.len())?;
    let mut before = 0;
    for step in steps {
        list.push(segment_value(alloc, lexicon, line, before, step)?)?;
        before = step.rule;
    }
    Ok(Value::Array(list))
}
