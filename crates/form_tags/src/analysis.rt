ghost use Rattle.std.specs.Prelude.{◌≡◌, IfOk};
ghost use Rattle.lexicon_definitions.specs.Analyses.{compare_analyses};

use super::Tag;
use phoneme::{Memory, Word};
use std::alloc::Global;
use std::cmp::Ordering;

/// What is known of an inflected form: the stem that it comes from, and its tag.
#[derive(Drop, PartialEq, Eq, Hash)]
pub struct Analysis {
    pub stem: Word,
    pub tag: Tag,
}

impl Analysis {
    ghost use Rattle.form_tags.specs.Analyses.{text_analysis};

    /// The order of analyses: by stem, then by the bytes of the tag's text. Takes no memory.
    pub fn compare(&self, other: &Analysis) -> Ordering
        ensures { result ≡ compare_analyses (text_analysis self.now) (text_analysis other.now) }
    {
        match self.stem.compare(&other.stem) {
            Ordering::Equal => self.tag.compare(&other.tag),
            order => order,
        }
    }

    /// The same analysis, in memory of its own.
    pub fn copy(&self, alloc: Global) -> Result<Analysis, Memory>
        ensures { IfOk result (λ analysis. analysis ≡ self.now) }
    {
        Ok(Analysis {
            stem: self.stem.copy(alloc)?,
            tag: self.tag,
        })
    }
}
