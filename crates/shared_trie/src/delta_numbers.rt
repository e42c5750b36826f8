ghost use Rattle.std.specs.Prelude.{◌≡◌, ◌≢◌, ◌+◌, ◌<◌, ◌^◌, [], length, map, All, AllPairs, IfOk, IfSome, OnErr};
ghost use Rattle.lexicon_definitions.specs.Deltas.{IsDelta};
ghost use Rattle.form_tags.specs.Analyses.{text_analysis, text_delta};
ghost use Rattle.form_tags.specs.TagTexts.{tag_text};
ghost use Rattle.shared_trie.specs.DeltaNumbers.{AddsDelta, IsListFor, delta_of};

use super::chains::Chains;
use super::deltas::sort_deltas;
use super::hashes::hash_delta;
use form_tags::{Analysis, Delta, Tag, shared_len};
use phoneme::{Letter, Memory, Word};
use std::alloc::Global;
use std::marker::Model;

/// Deltas by numbers, counted from 0. A delta that was numbered has its number again.
#[derive(Drop)]
pub(crate) struct DeltaNumbers {
    parts: Vec<DeltaParts>,
    /// The letters that the deltas append, one delta's after another's.
    letters: Vec<Letter>,
    chains: Chains,
}

/// A delta as it is stored. The letters that it appends stand among those of all deltas.
#[derive(Clone, Copy)]
struct DeltaParts {
    cut: u32,
    /// The place of the first letter that it appends.
    first: usize,
    /// The place after the last one.
    end: usize,
    tag: Tag,
}

impl Model for DeltaNumbers {
    ghost use Rattle.std.specs.Prelude.{◌≡◌, List, length, map, All};
    ghost use Rattle.lexicon_definitions.specs.Deltas.{Delta};
    ghost use Rattle.shared_trie.specs.PackedDeltas.{IsDeltaIn, delta_in};

    ghost Value = { List Delta };

    ghost view = { λ d. map (delta_in d.letters.items) d.parts.items };

    ghost invariant = { λ d. (length d.chains ≡ length d.parts.items) × All (IsDeltaIn d.letters.items) d.parts.items };
}

impl DeltaNumbers {
    /// No deltas. Takes no memory.
    pub(crate) fn new(alloc: Global) -> DeltaNumbers
        ensures { result ≡ [] }
    {
        DeltaNumbers {
            parts: Vec::new(alloc),
            letters: Vec::new(alloc),
            chains: Chains::new(alloc),
        }
    }

    /// The number of the delta of the form's analysis.
    pub(crate) fn number(&mut self, form: &[Letter], analysis: &Analysis) -> Result<u32, Memory>
        requires short { length form.now < 2 ^ 32 }
        requires room { length self.old + 1 < 2 ^ 32 }
        ensures grown { AddsDelta self.old self.new }
        ensures within { IfOk result (λ number. number < length self.new) }
        ensures ok { IfOk result (λ number. IsDelta form.now (text_analysis analysis.now) (delta_of self.new number)) }
    {
        let stem = analysis.stem.as_slice();
        let shared = shared_len(form, stem);
        let cut = (form.len() - shared) as u32;
        let append = &stem[shared..];
        let hash = hash_delta(cut, append, &analysis.tag);
        match self.find(hash, cut, append, analysis.tag) {
            Some(number) => Ok(number),
            None => self.add(hash, cut, append, analysis.tag),
        }
    }

    /// The number of the delta with these parts, where it is among those with this hash.
    fn find(&self, hash: u32, cut: u32, append: &[Letter], tag: Tag) -> Option<u32>
        ensures within { IfSome result (λ number. number < length self.now) }
        ensures is { IfSome result (λ number. delta_of self.now number ≡ record { cut = cut; append = append.now; tag = tag_text tag }) }
    {
        let mut found = self.chains.last_with(hash, None);
        while let Some(number) = found {
            let parts = self.parts[number as usize];
            if parts.cut == cut
                && parts.tag == tag
                && &self.letters[parts.first..parts.end] == append
            {
                return Some(number);
            }
            found = self.chains.last_with(hash, Some(number));
        }
        None
    }

    /// Gives the delta with these parts, which has this hash, the next number.
    fn add(&mut self, hash: u32, cut: u32, append: &[Letter], tag: Tag) -> Result<u32, Memory>
        requires { length self.old + 1 < 2 ^ 32 }
        ensures grown { AddsDelta self.old self.new }
        ensures within { IfOk result (λ number. number < length self.new) }
        ensures ok { IfOk result (λ number. delta_of self.new number ≡ record { cut = cut; append = append.now; tag = tag_text tag }) }
    {
        self.parts.reserve(1)?;
        self.letters.reserve(append.len())?;
        self.chains.push(hash)?;
        // There is room for all, so that no want of memory comes between them.
        let first = self.letters.len();
        let Ok(()) = self.letters.extend_from_slice(append) else {
            unreachable!();
        };
        let parts = DeltaParts {
            cut,
            first,
            end: self.letters.len(),
            tag,
        };
        let number = self.parts.len() as u32;
        let Ok(()) = self.parts.push(parts) else {
            unreachable!();
        };
        Ok(number)
    }

    /// The deltas with these numbers, of which no two are the same, rising.
    pub(crate) fn list(&self, alloc: Global, numbers: &[u32]) -> Result<Vec<Delta>, Memory>
        requires within { All (λ number. number < length self.now) numbers.now }
        requires apart { AllPairs (λ left right. left ≢ right) (map (delta_of self.now) numbers.now) }
        ensures { IfOk result (λ list. IsListFor self.now numbers.now (map text_delta list.items)) }
    {
        let mut list = Vec::with_capacity(alloc, numbers.len())?;
        for number in numbers {
            let parts = self.parts[*number as usize];
            let append = Word::from_slice(alloc, &self.letters[parts.first..parts.end])?;
            list.push(Delta {
                cut: parts.cut,
                append,
                tag: parts.tag,
            })?;
        }
        sort_deltas(&mut list);
        Ok(list)
    }
}
