ghost use Rattle.std.specs.Prelude.{◌≡◌, ◌≤◌, ◌<◌, ◌++◌, ◌^◌, [], ◌∷◌, length, map, slice_index_or, string_bytes, codes, All, OnOk};
ghost use Rattle.form_tags.specs.Analyses.{text_analysis, text_delta};
ghost use Rattle.form_tags.specs.TagTexts.{tag_text};
ghost use Rattle.text_definitions.specs.Slp1.{slp1_of_word};
ghost use Rattle.lexicon_definitions.specs.Deltas.{Delta as TextDelta};
ghost use Rattle.lexicon_definitions.specs.Tries.{IsTrieOf};
ghost use Rattle.lexicon_text_definitions.specs.LexiconTexts.{text_of_lines, form_line, phase_forms_lines, forms_lines};
ghost use Rattle.trie_text_definitions.specs.TrieForms.{analyses_by, phases_of};

use form_tags::{Analysis, Tag, print_tag};
use phoneme::{Letter, Memory};
use shared_trie::{FormWalk, Store, WalkedForm, analyses_by_deltas, push_letters};
use std::alloc::Global;

/// Appends `form PHASE` and a blank.
fn push_phase(out: &mut Vec<u8>, name: &str) -> Result<(), Memory>
    ensures ok { OnOk result (out.new.items ≡ out.old.items ++ (codes "form " ++ name.now ++ codes " ")) }
{
    out.extend_from_slice(b"form ")?;
    out.extend_from_slice(name.as_bytes())?;
    out.push(b' ')?;
    Ok(())
}

/// Appends the word and a blank.
fn push_word(out: &mut Vec<u8>, word: &[Letter]) -> Result<(), Memory>
    ensures ok { OnOk result (out.new.items ≡ out.old.items ++ (slp1_of_word word.now ++ codes " ")) }
{
    push_letters(out, word)?;
    out.push(b' ')?;
    Ok(())
}

/// Appends the tag and a line end.
fn push_tag(alloc: Global, out: &mut Vec<u8>, tag: &Tag) -> Result<(), Memory>
    ensures ok { OnOk result (out.new.items ≡ out.old.items ++ (tag_text tag.now ++ 10 ∷ [])) }
{
    let tag = print_tag(alloc, tag)?;
    out.extend_from_slice(tag.as_bytes())?;
    out.push(b'\n')?;
    Ok(())
}

/// Appends the line `form PHASE FORM STEM TAG`.
fn push_form(
    alloc: Global,
    out: &mut Vec<u8>,
    name: &str,
    form: &[Letter],
    analysis: &Analysis,
) -> Result<(), Memory>
    ensures ok { OnOk result (out.new.items
        ≡ out.old.items ++ (form_line name.now form.now (text_analysis analysis.now) ++ 10 ∷ [])) }
{
    push_phase(out, name)?;
    push_word(out, form)?;
    push_word(out, analysis.stem.as_slice())?;
    push_tag(alloc, out, &analysis.tag)
}

/// Appends the line of each analysis of the form.
fn push_analyses(
    alloc: Global,
    out: &mut Vec<u8>,
    name: &str,
    form: &[Letter],
    analyses: &[Analysis],
) -> Result<(), Memory>
    ensures ok { OnOk result (out.new.items
        ≡ out.old.items ++ text_of_lines (map (form_line name.now form.now) (map text_analysis analyses.now))) }
{
    for analysis in analyses {
        push_form(alloc, out, name, form, analysis)?;
    }
    Ok(())
}

/// Appends the lines of the form at which a walk stands.
fn push_walked(
    alloc: Global,
    out: &mut Vec<u8>,
    name: &str,
    form: &WalkedForm,
) -> Result<(), Memory>
    requires { All (λ (delta : TextDelta). delta.cut ≤ length form.now.letters.now) (map text_delta form.now.deltas.now) }
    ensures ok { OnOk result (out.new.items
        ≡ out.old.items ++ text_of_lines (map (form_line name.now form.now.letters.now) (analyses_by form.now.letters.now (map text_delta form.now.deltas.now)))) }
{
    let analyses = analyses_by_deltas(alloc, form.letters, form.deltas)?;
    push_analyses(alloc, out, name, form.letters, analyses.as_slice())
}

/// Appends the lines of the forms of the phase with this number, under its name.
fn push_forms(
    alloc: Global,
    out: &mut Vec<u8>,
    store: &Store,
    name: &str,
    phase: u32,
) -> Result<(), Memory>
    requires phase { phase < length store.now.roots }
    requires trie { IsTrieOf store.now (phases_of store.now) }
    ensures ok { OnOk result (out.new.items
        ≡ out.old.items ++ text_of_lines (phase_forms_lines name.now (slice_index_or (phases_of store.now) phase []))) }
{
    let mut walk = FormWalk::new(alloc, store, store.root(phase))?;
    while let Some(form) = walk.current() {
        push_walked(alloc, out, name, &form)?;
        walk.advance();
    }
    Ok(())
}

/// Appends the lines of the forms of each phase, under its name.
pub(crate) fn push_all_forms(
    alloc: Global,
    out: &mut Vec<u8>,
    names: &[String],
    store: &Store,
) -> Result<(), Memory>
    requires trie { IsTrieOf store.now (phases_of store.now) }
    requires count { length store.now.roots ≡ length names.now }
    requires few { length names.now < 2 ^ 32 }
    ensures ok { OnOk result
        (out.new.items ≡ out.old.items ++ text_of_lines (forms_lines (map string_bytes names.now) (phases_of store.now))) }
{
    for (phase, name) in names.iter().enumerate() {
        push_forms(alloc, out, store, name.as_str(), phase as u32)?;
    }
    Ok(())
}
