ghost use Rattle.std.specs.Prelude.{◌≡◌, ◌+◌, ◌<◌, ◌≤◌, ℕ, [], length, replicate, Some, All, IfOk, OnOk, OnErr};
ghost use Rattle.std.specs.Option.{option_map};
ghost use Rattle.std.specs.declared.cmp.Ordering.TheVariants.{Less};
ghost use Rattle.form_tags.specs.Analyses.{text_analysis};
ghost use Rattle.form_tags.specs.Entries.{text_entry};
ghost use Rattle.shared_trie.specs.FormLists.{AreFormLists};
ghost use Rattle.lexicon_definitions.specs.declared.limits.TheConstants.{MOST_FORM_LETTERS, MOST_FORM_LINES, MOST_PHASES};
ghost use Rattle.lexicon_definitions.specs.FormEntries.{with_entry, IsListedPhase, IsListedStem};
ghost use Rattle.lexicon_definitions.specs.Limits.{count_lines};
ghost use Rattle.lexicon_definitions.specs.Tries.{IsTrieOf};
ghost use Rattle.lexicon_text_definitions.specs.FileContents.{compare_entries, compare_last as compare_last_of, entries_from};
ghost use Rattle.shared_trie.specs.Interned.{trie_of};
ghost use Rattle.shared_trie.specs.OpenForms.{IsBetween, IsPending, IsReadyFor};
ghost use Rattle.shared_trie.specs.Stages.{IsStage};

use super::Store;
use super::open_trie::OpenTrie;
use super::told_forms::{ToldForms, nothing_told, tell};
use form_tags::Entry;
use phoneme::Memory;
use std::alloc::Global;
use std::boxed::Box;
use std::cmp::Ordering;
use std::marker::Model;
use std::mem;
use std::snapshot::Snapshot;

/// A trie with shared subtrees that is built from entries as they rise: by phase, form, stem and tag (Huet 2005). Contracts see it
/// as the forms of each phase so far.
#[derive(Drop)]
pub struct StoreBuilder {
    /// What contracts see of the forms. It takes no bytes.
    told: Snapshot<ToldForms>,
    phases: u32,
    lines: u32,
    last: Option<Entry>,
    open_trie: Box<OpenTrie>,
    /// Whether memory was wanting once, since when nothing is known of the trie.
    failed: bool,
}

impl Model for StoreBuilder {
    ghost use Rattle.std.specs.Prelude.{List};
    ghost use Rattle.std.specs.Option.{option_map};
    ghost use Rattle.lexicon_definitions.specs.Lexicons.{Form};
    ghost use Rattle.form_tags.specs.Entries.{text_entry};
    ghost use Rattle.shared_trie.specs.Stages.{IsBuilt};

    ghost Value = { List (List Form) };

    ghost view = { λ b. b.told.value.0 };

    ghost invariant = { λ b. IsBuilt b.told.value b.phases b.lines (option_map text_entry b.last) b.open_trie.value b.failed };
}

/// Makes nodes of the rows that the next entry has no use for.
fn leave(
    open_trie: &mut OpenTrie,
    alloc: Global,
    told: &Snapshot<ToldForms>,
    last: &Option<Entry>,
    next: &Entry,
) -> Result<(), Memory>
    requires listed { All IsListedPhase told.now.value.0 }
    requires lines { told.now.value.1 ≤ MOST_FORM_LINES }
    requires phases { length told.now.value.0 ≤ MOST_PHASES }
    requires phase { next.now.phase < length told.now.value.0 }
    requires not_empty { 0 < length next.now.form }
    requires above { compare_last_of compare_entries (entries_from 0 told.now.value.0) (text_entry next.now) ≡ Less }
    requires stage { IsStage told.now.value.0 told.now.value.1 (option_map text_entry last.now) open_trie.old }
    ensures { OnOk result (IsReadyFor (with_entry told.now.value.0 (text_entry next.now)) told.now.value.1 (text_entry next.now) open_trie.new) }
{
    match last {
        None => open_trie.fill_roots(told, 0, next.phase)?,
        Some(last) => open_trie.leave(alloc, told, last, next)?,
    }
    Ok(())
}

/// Adds an entry that comes after all others.
fn add(
    open_trie: &mut OpenTrie,
    alloc: Global,
    told: &Snapshot<ToldForms>,
    last: &Option<Entry>,
    next: &Entry,
) -> Result<(), Memory>
    requires listed { All IsListedPhase told.now.value.0 }
    requires lines { told.now.value.1 ≤ MOST_FORM_LINES }
    requires phases { length told.now.value.0 ≤ MOST_PHASES }
    requires phase { next.now.phase < length told.now.value.0 }
    requires not_empty { 0 < length next.now.form }
    requires short { length next.now.form ≤ MOST_FORM_LETTERS }
    requires above { compare_last_of compare_entries (entries_from 0 told.now.value.0) (text_entry next.now) ≡ Less }
    requires stage { IsStage told.now.value.0 told.now.value.1 (option_map text_entry last.now) open_trie.old }
    ensures { OnOk result (IsPending (with_entry told.now.value.0 (text_entry next.now)) (told.now.value.1 + 1) (text_entry next.now) open_trie.new) }
{
    leave(open_trie, alloc, told, last, next)?;
    let form = next.form.as_slice();
    let number = open_trie.deltas.number(form, &next.analysis)?;
    open_trie.numbers.push(number)?;
    Ok(())
}

/// Keeps the entry as the last one. What was the last one before stands in its place then, or an entry without letters.
fn keep(alloc: Global, last: &mut Option<Entry>, entry: &mut Entry)
    ensures { last.new ≡ Some entry.old }
{
    match last {
        Some(last) => mem::swap(last, entry),
        None => *last = Some(mem::replace(entry, Entry::empty(alloc))),
    }
}

/// Gives all phases their roots.
fn end(
    open_trie: &mut OpenTrie,
    alloc: Global,
    told: &Snapshot<ToldForms>,
    last: &Option<Entry>,
    phases: u32,
) -> Result<(), Memory>
    requires listed { All IsListedPhase told.now.value.0 }
    requires lines { told.now.value.1 ≤ MOST_FORM_LINES }
    requires few { phases ≤ MOST_PHASES }
    requires phases { phases ≡ length told.now.value.0 }
    requires stage { IsStage told.now.value.0 told.now.value.1 (option_map text_entry last.now) open_trie.old }
    ensures { OnOk result (IsBetween told.now.value.0 told.now.value.1 phases open_trie.new) }
{
    let Some(last) = last else {
        return open_trie.fill_roots(told, 0, phases);
    };
    open_trie.end_phase(alloc, told, last)?;
    open_trie.fill_roots(told, last.phase + 1, phases)
}

/// A trie of no form and no phase, in a box, so that whoever drops a builder makes one call for it.
fn begin(alloc: Global) -> Result<Box<OpenTrie>, Memory>
    ensures { IfOk result (λ begun. (phases : ℕ) → IsBetween (replicate phases []) 0 0 begun.value) }
{
    let open_trie = OpenTrie::new(alloc)?;
    Ok(Box::new(alloc, open_trie)?)
}

/// The trie of which all phases have their roots.
fn into_store(open_trie: Box<OpenTrie>, alloc: Global) -> Result<Store, Memory>
    ensures { IfOk result (λ store. store ≡ trie_of open_trie.value.trie) }
{
    Box::into_inner(open_trie).trie.into_store(alloc)
}

impl StoreBuilder {
    /// So many phases without forms.
    pub fn new(alloc: Global, phases: u32) -> Result<StoreBuilder, Memory>
        requires { phases ≤ MOST_PHASES }
        ensures ok { IfOk result (λ builder. builder ≡ replicate phases []) }
    {
        Ok(StoreBuilder {
            told: nothing_told(phases),
            phases,
            lines: 0,
            last: None,
            open_trie: begin(alloc)?,
            failed: false,
        })
    }

    /// Adds an entry that comes after all others. Another one stands in its place then, whose memory may serve for the next. Where memory
    /// is wanting nothing is added, and all later calls that could want memory say so too.
    pub fn push(&mut self, alloc: Global, entry: &mut Entry) -> Result<(), Memory>
        requires phase { entry.old.phase < length self.old }
        requires not_empty { 0 < length entry.old.form }
        requires short { length entry.old.form ≤ MOST_FORM_LETTERS }
        requires stem { IsListedStem (text_analysis entry.old.analysis) }
        requires lines { count_lines self.old < MOST_FORM_LINES }
        requires above { compare_last_of compare_entries (entries_from 0 self.old) (text_entry entry.old) ≡ Less }
        ensures ok { OnOk result (self.new ≡ with_entry self.old (text_entry entry.old)) }
        ensures unchanged { OnErr result (self.new ≡ self.old) }
    {
        // The calls tell that both are words, which the forms keep.
        let _form = entry.form.as_slice();
        let _stem = entry.analysis.stem.as_slice();
        if self.failed {
            return Err(Memory);
        }
        self.failed = true;
        add(&mut self.open_trie, alloc, &self.told, &self.last, entry)?;
        tell(&mut self.told, entry);
        keep(alloc, &mut self.last, entry);
        self.lines += 1;
        self.failed = false;
        Ok(())
    }

    /// How the last entry compares with a new one; `Less` where there is no entry yet.
    pub fn compare_last(&self, entry: &Entry) -> Ordering
        ensures { result ≡ compare_last_of compare_entries (entries_from 0 self.now) (text_entry entry.now) }
    {
        let Some(last) = &self.last else {
            return Ordering::Less;
        };
        if last.phase != entry.phase {
            return last.phase.cmp(&entry.phase);
        }
        match last.form.compare(&entry.form) {
            Ordering::Equal => last.analysis.compare(&entry.analysis),
            order => order,
        }
    }

    /// The number of phases.
    pub fn phases(&self) -> u32
        ensures value { result ≡ length self.now }
        ensures lists { AreFormLists self.now }
    {
        self.phases
    }

    /// The number of entries.
    pub fn lines(&self) -> u32
        ensures value { result ≡ count_lines self.now }
        ensures few { result ≤ MOST_FORM_LINES }
        ensures lists { AreFormLists self.now }
    {
        self.lines
    }

    /// The trie of the forms of all phases.
    pub fn finish(self, alloc: Global) -> Result<Store, Memory>
        ensures ok { IfOk result (λ store. IsTrieOf store self) }
        ensures lists { AreFormLists self }
    {
        let StoreBuilder {
            told,
            phases,
            lines: _,
            last,
            mut open_trie,
            failed,
        } = self;
        if failed {
            return Err(Memory);
        }
        end(&mut open_trie, alloc, &told, &last, phases)?;
        into_store(open_trie, alloc)
    }
}
