ghost use Rattle.std.specs.Prelude.{◌≡◌, ◌≢◌, ◌<◌, ◌≤◌, ◌^◌, IfOk, length, slice_index, take};
ghost use Rattle.lexicon_definitions.specs.Deltas.{IsDelta, analysis_by, compare_deltas};
ghost use Rattle.form_tags.specs.Analyses.{text_analysis, text_delta};

use super::{Analysis, Tag};
use phoneme::{Letter, Memory, Word};
use std::alloc::Global;
use std::cmp::Ordering;

/// How the stem of a form differs from the form at its end: the stem is the form without its last `cut` letters,
/// followed by `append` (Huet's differential words).
#[derive(Drop, PartialEq, Eq, Hash)]
pub struct Delta {
    pub cut: u32,
    pub append: Word,
    pub tag: Tag,
}

impl Delta {
    /// The order of deltas: by `cut`, then by `append`, then by the bytes of the tag's text. Takes no memory.
    pub fn compare(&self, other: &Delta) -> Ordering
        ensures { result ≡ compare_deltas (text_delta self.now) (text_delta other.now) }
    {
        if self.cut != other.cut {
            return self.cut.cmp(&other.cut);
        }
        match self.append.compare(&other.append) {
            Ordering::Equal => self.tag.compare(&other.tag),
            order => order,
        }
    }

    /// The same delta, in memory of its own.
    pub fn copy(&self, alloc: Global) -> Result<Delta, Memory>
        ensures { IfOk result (λ delta. delta ≡ self.now) }
    {
        Ok(Delta {
            cut: self.cut,
            append: self.append.copy(alloc)?,
            tag: self.tag,
        })
    }
}

/// The delta of an analysis of a form, with the least `cut`. The form has fewer than 2^32 letters.
pub fn to_delta(alloc: Global, form: &[Letter], analysis: &Analysis) -> Result<Delta, Memory>
    requires { length form.now < 2 ^ 32 }
    ensures ok { IfOk result (λ delta. IsDelta form.now (text_analysis analysis.now) (text_delta delta)) }
    ensures tag { IfOk result (λ delta. delta.tag ≡ analysis.now.tag) }
{
    let stem = analysis.stem.as_slice();
    let shared = shared_len(form, stem);
    Ok(Delta {
        cut: (form.len() - shared) as u32,
        append: Word::from_slice(alloc, &stem[shared..])?,
        tag: analysis.tag,
    })
}

/// The analysis that a delta gives a form, of which it cuts at most all letters.
pub fn from_delta(alloc: Global, form: &[Letter], delta: &Delta) -> Result<Analysis, Memory>
    requires { delta.now.cut ≤ length form.now }
    ensures ok { IfOk result (λ analysis. text_analysis analysis ≡ analysis_by form.now (text_delta delta.now)) }
    ensures tag { IfOk result (λ analysis. analysis.tag ≡ delta.now.tag) }
{
    let shared = form.len() - delta.cut as usize;
    let mut stem = Word::from_slice(alloc, &form[..shared])?;
    stem.extend_from_slice(delta.append.as_slice())?;
    Ok(Analysis {
        stem,
        tag: delta.tag,
    })
}

/// The number of letters that the form and the stem share at their beginning.
pub fn shared_len(form: &[Letter], stem: &[Letter]) -> usize
    ensures in_form { result ≤ length form.now }
    ensures in_stem { result ≤ length stem.now }
    ensures same { take result form.now ≡ take result stem.now }
    ensures differ { result < length form.now
        → result < length stem.now
        → slice_index form.now result ≢ slice_index stem.now result }
{
    let mut shared = 0;
    while shared < form.len() && shared < stem.len() && form[shared] == stem[shared] {
        shared += 1;
    }
    shared
}
