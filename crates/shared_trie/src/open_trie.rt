ghost use Rattle.std.specs.Prelude.{◌≡◌, ◌≢◌, ◌+◌, ◌*◌, ◌<◌, ◌≤◌, ◌^◌, ℕ, [], length, map, replicate, slice_set, All, AllPairs, IfOk, OnOk};
ghost use Rattle.std.specs.declared.cmp.Ordering.TheVariants.{Less};
ghost use Rattle.form_tags.specs.Entries.{text_entry};
ghost use Rattle.lexicon_definitions.specs.declared.limits.TheConstants.{MOST_FORM_LINES, MOST_PHASES};
ghost use Rattle.lexicon_definitions.specs.FormEntries.{IsListedPhase, with_entry};
ghost use Rattle.lexicon_definitions.specs.Tries.{IsRow, IsTrie};
ghost use Rattle.lexicon_text_definitions.specs.FileContents.{compare_entries};
ghost use Rattle.shared_trie.specs.DeltaNumbers.{delta_of};
ghost use Rattle.shared_trie.specs.Growth.{Grows, HasRow};
ghost use Rattle.shared_trie.specs.Interned.{AddsList, trie_of};
ghost use Rattle.shared_trie.specs.OpenForms.{IsBetween, IsEnded, IsKnownList, IsPending, IsReadyFor, row_at};
ghost use Rattle.shared_trie.specs.OpenPaths.{no_row, path_row};

use super::Node;
use super::delta_numbers::DeltaNumbers;
use super::interned::Interned;
use super::list_numbers::ListNumbers;
use super::open_path::OpenPath;
use super::told_forms::ToldForms;
use form_tags::{Entry, shared_len};
use phoneme::Memory;
use std::alloc::Global;
use std::snapshot::Snapshot;

/// A trie that grows form by form: its rows, deltas and lists of deltas by number, and the rows of the last form's fronts. After a
/// call for which memory was wanting nothing is known of it.
#[derive(Drop)]
pub(crate) struct OpenTrie {
    pub trie: Interned,
    pub deltas: DeltaNumbers,
    pub known: ListNumbers,
    pub path: OpenPath,
    /// The numbers of the deltas of the last form's analyses, in the order in which they came.
    pub numbers: Vec<u32>,
}

impl OpenTrie {
    /// A trie of no form and no phase.
    pub(crate) fn new(alloc: Global) -> Result<OpenTrie, Memory>
        ensures { IfOk result (λ begun. (phases : ℕ) → IsBetween (replicate phases []) 0 0 begun) }
    {
        Ok(OpenTrie {
            trie: Interned::new(alloc),
            deltas: DeltaNumbers::new(alloc),
            known: ListNumbers::new(alloc),
            path: OpenPath::new(alloc)?,
            numbers: Vec::new(alloc),
        })
    }

    /// The number of the list of the last form's deltas.
    fn number_list(&mut self, alloc: Global) -> Result<u32, Memory>
        requires known { All (IsKnownList self.old.deltas self.old.trie.lists) self.old.known }
        requires within { All (λ number. number < length self.old.deltas) self.old.numbers.items }
        requires apart { AllPairs (λ left right. left ≢ right) (map (delta_of self.old.deltas) self.old.numbers.items) }
        requires lists { length self.old.trie.lists ≤ length self.old.trie.rows + MOST_FORM_LINES }
        requires room { length self.old.known + 1 < 2 ^ 32 }
        ensures same { self.new ≡ record self.old { trie = self.new.trie; known = self.new.known } }
        ensures rows { self.new.trie.rows ≡ self.old.trie.rows }
        ensures roots { self.new.trie.roots ≡ self.old.trie.roots }
        ensures lists { AddsList self.old.trie.lists self.new.trie.lists }
        ensures few_known { length self.new.known ≤ length self.old.known + 1 }
        ensures known { All (IsKnownList self.new.deltas self.new.trie.lists) self.new.known }
        ensures ok { IfOk result (λ list. IsKnownList self.new.deltas self.new.trie.lists (self.new.numbers.items, list)) }
    {
        if let Some(list) = self.known.find(self.numbers.as_slice()) {
            return Ok(list);
        }
        let deltas = self.deltas.list(alloc, self.numbers.as_slice())?;
        let list = self.trie.number_list(deltas)?;
        self.known.add(self.numbers.as_slice(), list)?;
        Ok(list)
    }

    /// Gives the row of the last form its deltas.
    fn end_form(
        &mut self,
        alloc: Global,
        told: &Snapshot<ToldForms>,
        last: &Entry,
    ) -> Result<(), Memory>
        requires listed { All IsListedPhase told.now.value.0 }
        requires lines { told.now.value.1 ≤ MOST_FORM_LINES }
        requires pending { IsPending told.now.value.0 told.now.value.1 (text_entry last.now) self.old }
        ensures { OnOk result (IsEnded told.now.value.0 told.now.value.1 (text_entry last.now) (length last.now.form) self.new) }
    {
        let list = self.number_list(alloc)?;
        self.path.set_list(last.form.len(), list);
        self.numbers.clear();
        Ok(())
    }

    /// Makes the row of this depth a node, and empties it.
    fn close(&mut self, depth: usize) -> Result<Node, Memory>
        requires depth { depth < length self.old.path }
        requires room { 64 * (length self.old.trie.rows + 1) < 2 ^ 32 }
        requires list { (path_row self.old.path depth).list < length self.old.trie.lists }
        requires row { IsRow self.old.trie.rows (length self.old.trie.rows) (row_at self.old.trie.lists self.old.path depth) }
        ensures same { self.new ≡ record self.old { trie = self.new.trie; path = self.new.path } }
        ensures trie { IsTrie (trie_of self.new.trie) }
        ensures lists { self.new.trie.lists ≡ self.old.trie.lists }
        ensures roots { self.new.trie.roots ≡ self.old.trie.roots }
        ensures grown { Grows 1 self.old.trie.rows self.new.trie.rows }
        ensures path { OnOk result (self.new.path ≡ slice_set self.old.path depth no_row) }
        ensures ok { IfOk result (HasRow self.new.trie.rows (row_at self.old.trie.lists self.old.path depth)) }
    {
        let list = self.path.list(depth);
        let node = self.trie.intern(list, self.path.children(depth))?;
        self.path.clear(depth);
        Ok(node)
    }

    /// Makes nodes of the rows of the longer fronts of the last form.
    fn close_to(
        &mut self,
        told: &Snapshot<ToldForms>,
        last: &Entry,
        shared: usize,
    ) -> Result<(), Memory>
        requires listed { All IsListedPhase told.now.value.0 }
        requires lines { told.now.value.1 ≤ MOST_FORM_LINES }
        requires phases { length told.now.value.0 ≤ MOST_PHASES }
        requires shared { shared ≤ length last.now.form }
        requires ended { IsEnded told.now.value.0 told.now.value.1 (text_entry last.now) (length last.now.form) self.old }
        ensures { OnOk result (IsEnded told.now.value.0 told.now.value.1 (text_entry last.now) shared self.new) }
    {
        let form = last.form.as_slice();
        let mut depth = form.len();
        while depth > shared {
            let node = self.close(depth)?;
            depth -= 1;
            self.path.push_child(depth, form[depth], node)?;
        }
        Ok(())
    }

    /// Makes nodes of all rows of the last form's fronts, and a root of the last one.
    pub(crate) fn end_phase(
        &mut self,
        alloc: Global,
        told: &Snapshot<ToldForms>,
        last: &Entry,
    ) -> Result<(), Memory>
        requires listed { All IsListedPhase told.now.value.0 }
        requires lines { told.now.value.1 ≤ MOST_FORM_LINES }
        requires phases { length told.now.value.0 ≤ MOST_PHASES }
        requires pending { IsPending told.now.value.0 told.now.value.1 (text_entry last.now) self.old }
        ensures { OnOk result (IsBetween told.now.value.0 told.now.value.1 (last.now.phase + 1) self.new) }
    {
        self.end_form(alloc, told, last)?;
        self.close_to(told, last, 0)?;
        let root = self.close(0)?;
        self.trie.push_root(root)?;
        Ok(())
    }

    /// Gives the phases without forms from this one up to another their roots.
    pub(crate) fn fill_roots(
        &mut self,
        told: &Snapshot<ToldForms>,
        from: u32,
        to: u32,
    ) -> Result<(), Memory>
        requires lines { told.now.value.1 ≤ MOST_FORM_LINES }
        requires phases { length told.now.value.0 ≤ MOST_PHASES }
        requires order { from ≤ to }
        requires within { to ≤ length told.now.value.0 }
        requires between { IsBetween told.now.value.0 told.now.value.1 from self.old }
        ensures { OnOk result (IsBetween told.now.value.0 told.now.value.1 to self.new) }
    {
        for _ in from..to {
            let root = self.trie.intern(0, &[])?;
            self.trie.push_root(root)?;
        }
        Ok(())
    }

    /// Makes nodes of the rows that the next entry has no use for.
    pub(crate) fn leave(
        &mut self,
        alloc: Global,
        told: &Snapshot<ToldForms>,
        last: &Entry,
        next: &Entry,
    ) -> Result<(), Memory>
        requires listed { All IsListedPhase told.now.value.0 }
        requires lines { told.now.value.1 ≤ MOST_FORM_LINES }
        requires phases { length told.now.value.0 ≤ MOST_PHASES }
        requires phase { next.now.phase < length told.now.value.0 }
        requires not_empty { 0 < length next.now.form }
        requires above { compare_entries (text_entry last.now) (text_entry next.now) ≡ Less }
        requires pending { IsPending told.now.value.0 told.now.value.1 (text_entry last.now) self.old }
        ensures { OnOk result (IsReadyFor (with_entry told.now.value.0 (text_entry next.now)) told.now.value.1 (text_entry next.now) self.new) }
    {
        if last.phase != next.phase {
            self.end_phase(alloc, told, last)?;
            self.fill_roots(told, last.phase + 1, next.phase)?;
            return Ok(());
        }
        let shared = shared_len(last.form.as_slice(), next.form.as_slice());
        if shared == last.form.len() && shared == next.form.len() {
            return Ok(());
        }
        self.end_form(alloc, told, last)?;
        self.close_to(told, last, shared)?;
        Ok(())
    }
}
