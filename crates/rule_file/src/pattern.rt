ghost use Rattle.std.specs.Prelude.{◌≡◌, ◌++◌, Some, None, IfOk, IfErr, OnOk};
ghost use Rattle.text_definitions.specs.Slp1.{word_of_slp1};
ghost use Rattle.rule_file_definitions.specs.EntryWhys.{Spelling as SpellingWhy};
ghost use Rattle.rule_file_definitions.specs.RuleNotations.{gap_of as gap_of_part, pattern_of as pattern_of_notation};
ghost use Rattle.rule_file_definitions.specs.EntryPhases.{is_final as is_final_of};
ghost use Rattle.rule_file_definitions.specs.RuleEntries.{put_in, filled, rule_with as rule_with_of};
ghost use Rattle.rule_file.specs.Faults.{IfWhy};
ghost use Rattle.rule_file.specs.Held.{word_of};
ghost use Rattle.rule_file.specs.Written.{part_of, written};

use crate::RuleWhy;
use crate::classes::spelled;
use crate::entry_error::EntryError;
use crate::limits::Phases;
use crate::notation::{Notation, Part};
use phoneme::{Letter, Memory, Word};
use sandhi_rules::Rule;
use std::alloc::Global;
use std::marker::Model;

/// A part of a notation as it is read: the letters before and after the class, where it has one.
#[derive(Drop)]
pub(crate) struct Gap {
    pub before: Word,
    pub has_class: bool,
    pub after: Word,
}

impl Model for Gap {
    ghost use Rattle.rule_file_definitions.specs.RuleNotations.{Gap as GapValue};

    ghost Value = { GapValue };

    ghost view = { λ g. record { before = g.before; has_class = g.has_class; after = g.after } };
}

/// A notation as it is read.
#[derive(Drop)]
pub(crate) struct Pattern {
    pub x: Word,
    pub u: Word,
    pub v: Gap,
    pub w: Gap,
}

impl Model for Pattern {
    ghost use Rattle.rule_file_definitions.specs.RuleNotations.{Pattern as PatternValue};

    ghost Value = { PatternValue };

    ghost view = { λ p. record { x = p.x; u = p.u; v = p.v; w = p.w } };
}

/// The word that the text spells in SLP1. `Spelling` where it spells none.
fn word_in(alloc: Global, text: &[u8]) -> Result<Word, EntryError>
    ensures ok { IfOk result (λ word. Some word ≡ word_of (word_of_slp1 text.now)) }
    ensures why { IfErr result (λ error. IfWhy error (λ why. (why ≡ SpellingWhy) × (None ≡ word_of (word_of_slp1 text.now)))) }
{
    match spelled(alloc, text)? {
        Some(word) => Ok(word),
        None => Err(RuleWhy::Spelling.into()),
    }
}

/// The part, both of whose texts are spelled in SLP1. `Spelling` where one is not.
fn gap_of(alloc: Global, part: &Part<'_>) -> Result<Gap, EntryError>
    ensures ok { IfOk result (λ gap. Some gap ≡ gap_of_part (part_of part.now)) }
    ensures why { IfErr result (λ error. IfWhy error (λ why. (why ≡ SpellingWhy) × (None ≡ gap_of_part (part_of part.now)))) }
{
    let before = word_in(alloc, part.before)?;
    let after = word_in(alloc, part.after)?;
    Ok(Gap {
        before,
        has_class: part.class.is_some(),
        after,
    })
}

/// The notation, all of which is spelled in SLP1. `Spelling` where a part is not.
pub(crate) fn pattern_of(alloc: Global, notation: &Notation<'_>) -> Result<Pattern, EntryError>
    ensures ok { IfOk result (λ pattern. Some pattern ≡ pattern_of_notation (written notation.now)) }
    ensures why { IfErr result (λ error. IfWhy error (λ why. (why ≡ SpellingWhy) × (None ≡ pattern_of_notation (written notation.now)))) }
{
    let x = word_in(alloc, notation.x)?;
    let u = word_in(alloc, notation.u)?;
    let v = gap_of(alloc, &notation.v)?;
    let w = gap_of(alloc, &notation.w)?;
    Ok(Pattern { x, u, v, w })
}

/// What is put in place of the class.
fn push_letter(word: &mut Word, has_class: bool, filling: &Option<Letter>) -> Result<(), Memory>
    ensures { OnOk result (word.new ≡ word.old ++ put_in has_class filling.now) }
{
    let Some(letter) = filling else {
        return Ok(());
    };
    if has_class {
        word.push(*letter)
    } else {
        Ok(())
    }
}

impl Gap {
    /// Appends the word with this letter in place of the class, or with nothing there.
    fn push_filled(&self, word: &mut Word, filling: &Option<Letter>) -> Result<(), Memory>
        ensures { OnOk result (word.new ≡ word.old ++ filled self.now filling.now) }
    {
        word.extend_from_slice(self.before.as_slice())?;
        push_letter(word, self.has_class, filling)?;
        word.extend_from_slice(self.after.as_slice())
    }
}

impl Pattern {
    /// Whether its rules are final: v has neither a letter nor a class.
    pub(crate) fn is_final(&self) -> bool
        ensures { result ≡ is_final_of self.now.v }
    {
        self.v.before.is_empty() && !self.v.has_class && self.v.after.is_empty()
    }

    /// The rule between these phases with this letter in place of the class, or with nothing there.
    pub(crate) fn rule_with(
        &self,
        alloc: Global,
        phases: Phases,
        filling: &Option<Letter>,
    ) -> Result<Rule, Memory>
        ensures { IfOk result (λ rule. rule ≡ rule_with_of phases self.now filling.now) }
    {
        let mut u = self.x.copy(alloc)?;
        u.extend_from_slice(self.u.as_slice())?;
        let mut v = Word::new(alloc);
        self.v.push_filled(&mut v, filling)?;
        let mut w = self.x.copy(alloc)?;
        self.w.push_filled(&mut w, filling)?;
        Ok(Rule {
            u,
            v,
            w,
            before: phases.before,
            after: phases.after,
        })
    }
}
