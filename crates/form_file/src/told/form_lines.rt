ghost use Rattle.std.specs.Prelude.{◌≡◌, ◌<◌, ◌||◌, ◌++◌, codes, nat_le, nat_lt, ◌≤◌, ◌^◌, length, true, IfOk, Some, IfSome, IsTrue};
ghost use Rattle.lexicon_text_definitions.specs.FileLines.{may_follow, Form, fields_of};
ghost use Rattle.lexicon_text_definitions.specs.FileContents.{compare_entries, compare_last as compare_last_of};
ghost use Rattle.lexicon_text_definitions.specs.FileSteps.{take_line as take_line_of, take_form as take_form_of, take_form_line};
ghost use Rattle.form_tags.specs.Entries.{text_entry};
ghost use Rattle.form_file.specs.Fields.{BeginsWithPhase};
ghost use Rattle.form_file.specs.Told.{IsAnswer, IsLineAnswer};

use super::{Told, rising};
use crate::FileWhy;
use crate::cutting::{cut_at_blank, three_fields_and_rest};
use crate::kind::Kind;
use crate::take_error::TakeError;
use crate::words::{read_some_word_over, read_word_before_blank};
use form_tags::{Entry, read_tag};
use lexicon_definitions::{MOST_FORM_LETTERS, MOST_FORM_LINES, MOST_PHASES};
use phoneme::{Memory, Word};
use std::alloc::Global;
use std::boxed::Box;
use std::cmp::Ordering;
use std::mem;

/// Whether no entry may come after so many, or the entry's form or its stem is too long.
fn passes_form_limits(lines: usize, entry: &Entry) -> bool
    ensures { result ≡ (nat_le MOST_FORM_LINES lines || nat_lt MOST_FORM_LETTERS (length entry.now.form) || nat_lt MOST_FORM_LETTERS (length entry.now.analysis.stem)) }
{
    lines >= MOST_FORM_LINES
        || entry.form.len() > MOST_FORM_LETTERS
        || entry.analysis.stem.len() > MOST_FORM_LETTERS
}

impl Told {
    /// The number of the phase with whose name the text begins, before a blank, and what comes after the blank. `None` where it does not
    /// begin so. The phase that is guessed is asked first: most lines of forms have the phase of the line before.
    fn phase_and_rest<'a>(&self, guess: u32, text: &'a [u8]) -> Option<(usize, &'a [u8])>
        ensures within { IfSome result (λ found. found.0 < length self.now.names) }
        ensures few { length self.now.names ≤ MOST_PHASES }
        ensures begins { IfSome result (λ found. BeginsWithPhase self.now.names text.now found.0 found.1.now) }
    {
        let names = self.names.as_slice();
        let guess = guess as usize;
        if guess < names.len() {
            let name = names[guess].as_bytes();
            if text.len() > name.len() && text[name.len()] == b' ' && &text[..name.len()] == name {
                return Some((guess, &text[name.len() + 1..]));
            }
        }
        let (name, rest) = cut_at_blank(text)?;
        let phase = self.phase_named(name)?;
        Some((phase, rest))
    }

    /// How the last entry compares with a new one; `Less` where there is no entry yet.
    fn compare_last(&self, entry: &Entry) -> Ordering
        requires { may_follow self.now.last Form ≡ true }
        ensures { result ≡ compare_last_of compare_entries self.now.forms (text_entry entry.now) }
    {
        self.forms.compare_last(entry)
    }

    fn take_entry(&mut self, alloc: Global, entry: &mut Entry) -> Result<(), TakeError>
        requires follows { may_follow self.old.last Form ≡ true }
        requires phase { entry.old.phase < length self.old.names }
        requires form { 0 < length entry.old.form }
        requires stem { 0 < length entry.old.analysis.stem }
        ensures { IsAnswer (take_form_line self.old (text_entry entry.old)) result self.new }
    {
        if passes_form_limits(self.forms.lines() as usize, entry) {
            return Err(FileWhy::Limit.into());
        }
        rising(self.compare_last(entry))?;
        self.forms.push(alloc, entry)?;
        self.last = Kind::Form;
        Ok(())
    }

    /// Reads the line of a form, with what comes after its blank, in one pass into an entry, in whose memory it is read. `false` where this
    /// does not succeed, and then nothing is known of the entry.
    fn read_form_into(&self, alloc: Global, entry: &mut Entry, text: &[u8]) -> Result<bool, Memory>
        ensures phase { IfOk result (λ read. IsTrue read → entry.new.phase < length self.now.names) }
        ensures form { IfOk result (λ read. IsTrue read → 0 < length entry.new.form) }
        ensures stem { IfOk result (λ read. IsTrue read → 0 < length entry.new.analysis.stem) }
        ensures taken { IfOk result (λ read. IsTrue read → take_form_of self.now (fields_of (Some text.now)) ≡ take_form_line self.now (text_entry entry.new)) }
    {
        let Some((phase, rest)) = self.phase_and_rest(entry.phase, text) else {
            return Ok(false);
        };
        let Some(rest) = read_word_before_blank(alloc, &mut entry.form, rest)? else {
            return Ok(false);
        };
        let Some(rest) = read_word_before_blank(alloc, &mut entry.analysis.stem, rest)? else {
            return Ok(false);
        };
        let Some(tag) = read_tag(rest) else {
            return Ok(false);
        };
        entry.phase = phase as u32;
        entry.analysis.tag = tag;
        Ok(true)
    }

    /// Takes the line of a form, with what comes after its blank, field by field, as an entry that is read into the memory of this one.
    fn take_fields_into(
        &mut self,
        alloc: Global,
        entry: &mut Entry,
        text: &[u8],
    ) -> Result<(), TakeError>
        requires follows { may_follow self.old.last Form ≡ true }
        requires fits { length text.now < 2 ^ 32 }
        ensures { IsAnswer (take_form_of self.old (fields_of (Some text.now))) result self.new }
    {
        let Some((phase, form, stem, tag)) = three_fields_and_rest(text) else {
            return Err(FileWhy::Field.into());
        };
        let Some(phase) = self.phase_named(phase) else {
            return Err(FileWhy::Field.into());
        };
        // A tag has no blank: where the rest is one, it is the fourth field and the last.
        let Some(tag) = read_tag(tag) else {
            return Err(FileWhy::Field.into());
        };
        let room = mem::replace(&mut entry.form, Word::new(alloc));
        entry.form = read_some_word_over(room, form)?;
        let room = mem::replace(&mut entry.analysis.stem, Word::new(alloc));
        entry.analysis.stem = read_some_word_over(room, stem)?;
        entry.phase = phase as u32;
        entry.analysis.tag = tag;
        self.take_entry(alloc, entry)
    }

    /// Takes the line of a form, with what comes after its blank, as an entry that is read into the memory of this one, in one pass. Only a
    /// line that cannot be read so is looked at field by field, for its fault. Where the line is taken, another entry stands here then.
    fn take_form_into(
        &mut self,
        alloc: Global,
        entry: &mut Entry,
        text: &[u8],
    ) -> Result<(), TakeError>
        requires follows { may_follow self.old.last Form ≡ true }
        requires fits { length text.now < 2 ^ 32 }
        ensures { IsAnswer (take_form_of self.old (fields_of (Some text.now))) result self.new }
    {
        if self.read_form_into(alloc, entry, text)? {
            return self.take_entry(alloc, entry);
        }
        self.take_fields_into(alloc, entry, text)
    }

    /// Takes the line of a form, with what comes after its blank. It may come next.
    pub(super) fn take_form(&mut self, alloc: Global, text: &[u8]) -> Result<(), TakeError>
        requires follows { may_follow self.old.last Form ≡ true }
        requires fits { length text.now < 2 ^ 32 }
        ensures { IsAnswer (take_form_of self.old (fields_of (Some text.now))) result self.new }
    {
        let mut room = match self.room.take() {
            Some(room) => room,
            None => Box::new(alloc, Entry::empty(alloc))?,
        };
        let taken = self.take_form_into(alloc, &mut room, text);
        self.room = Some(room);
        taken
    }

    /// Takes the line of a form that comes after another, with what comes after its blank. Such a line is ASCII where it is taken, so that
    /// whether it is UTF-8 is asked only where it is refused.
    pub(super) fn take_next_form(
        &mut self,
        alloc: Global,
        line: &[u8],
        text: &[u8],
    ) -> Result<(), TakeError>
        requires follows { self.old.last ≡ Form }
        requires fits { length text.now < 2 ^ 32 }
        requires form { line.now ≡ codes "form " ++ text.now }
        ensures { IsLineAnswer (take_line_of self.old (record { bytes = line.now; ended = true })) result self.new }
    {
        // This tells what is kept of the names: they are names of phases, and so are ASCII.
        let _ = &self.names;
        match self.take_form(alloc, text) {
            Ok(()) => Ok(()),
            Err(error) => {
                if std::str::from_utf8(line).is_err() {
                    return Err(FileWhy::NotUtf8.into());
                }
                Err(error)
            }
        }
    }
}
