ghost use Rattle.std.specs.Prelude.{◌≡◌, ◌-◌, ◌^◌, ◌<◌, ◌≤◌, ◌⊎◌, ◌↔◌, ℕ, List, length, slice_index_or, slice_set, IfOk, IsTrue};
ghost use Rattle.std.specs.Bool.{OnTrue};
ghost use Rattle.text_definitions.specs.Lines.{IsLine};
ghost use Rattle.lexicon_definitions.specs.Leads.{Lead, leads_of};
ghost use Rattle.lexicon_definitions.specs.declared.limits.TheConstants.{MOST_LEADS};
ghost use Rattle.summary_chart.specs.StateSets.{HasState};
ghost use Rattle.summary_chart.specs.Tables.{IsTable, AreEntrances, AreMarked, CanBeEmptied, IsEntrance, HasSet, HasThisState, HaveBits, ChangesAt, IsIndexed, IsStateNumber, AreEmptyBetween, index_in, set_of, set_at};

use super::state_set::StateSet;
use derivation::Entrance;
use phase_automaton::State;
use phoneme::{Letter, Line, Memory};
use sandhi_rules::RuleSet;
use std::alloc::Global;

/// How many entrances there are besides the leads: the start, and one for each letter. The codes of letters are the numbers from 1 on
/// below this.
const OTHER_ENTRANCES: usize = 51;

/// How many sets have their bits in one word.
const SETS_OF_WORD: usize = 64;

/// For each number of letters derived and each entrance a set of states. The entrances stand in their columns: the leads by their
/// places, the start, and the letters by their codes.
#[derive(Drop)]
pub(crate) struct Table {
    pub entrances: Vec<Entrance>,
    pub sets: Vec<StateSet>,
    /// A bit for each set, the lowest of a word first: where it is 0, the set is empty.
    pub filled: Vec<u64>,
}

/// The entrances over so many leads, in the order of their columns, in place of those in the list, which are over another number of leads or
/// the same, or none.
fn entrances_over(list: Vec<Entrance>, leads: usize) -> Result<Vec<Entrance>, Memory>
    requires few { leads ≤ MOST_LEADS }
    requires list { 51 ≤ length list.items → AreEntrances (length list.items - 51) list.items }
    ensures { IfOk result (λ entrances. AreEntrances leads entrances.items) }
{
    if list.len() == leads + OTHER_ENTRANCES {
        return Ok(list);
    }
    let mut entrances = list;
    entrances.clear();
    entrances.reserve(leads + OTHER_ENTRANCES)?;
    for place in 0..leads {
        entrances.push(Entrance::Lead(place as u16))?;
    }
    entrances.push(Entrance::Start)?;
    for code in 1..OTHER_ENTRANCES as u8 {
        if let Some(letter) = Letter::new(code) {
            entrances.push(Entrance::Plain(letter))?;
        }
    }
    Ok(entrances)
}

impl Table {
    /// A table without sets. Takes no memory.
    pub fn new(alloc: Global) -> Table
        ensures { CanBeEmptied result }
    {
        Table {
            entrances: Vec::new(alloc),
            sets: Vec::new(alloc),
            filled: Vec::new(alloc),
        }
    }

    /// Empties the sets that have their bits in the word with this number, and takes these bits away.
    fn empty_word(&mut self, word: usize)
        requires there { word < length self.old.filled.items }
        requires marked { AreMarked self.old.sets.items self.old.filled.items }
        ensures marked { AreMarked self.new.sets.items self.new.filled.items }
        ensures filled { self.new.filled.items ≡ slice_set self.old.filled.items word 0 }
        ensures entrances { self.new.entrances ≡ self.old.entrances }
    {
        let mut bits = self.filled[word];
        while bits != 0 {
            let first = bits.trailing_zeros();
            self.sets[word * SETS_OF_WORD + first as usize] = StateSet::empty();
            bits &= !(1 << first);
        }
        self.filled[word] = 0;
    }

    /// Empties all sets: those that have their bits, since the others are empty. Takes the bits away.
    fn empty_sets(&mut self)
        requires marked { AreMarked self.old.sets.items self.old.filled.items }
        ensures empty { (index number : ℕ) → HasState (set_of self.new index) number → ⊥ }
        ensures filled { (word : ℕ) → slice_index_or self.new.filled.items word 0 ≡ 0 }
        ensures entrances { self.new.entrances ≡ self.old.entrances }
    {
        for word in 0..self.filled.len() {
            if self.filled[word] == 0 {
                continue;
            }
            self.empty_word(word);
        }
    }

    /// A table for the rules and the line whose sets are empty, in the memory of this one, whatever line it was for. Only the sets that are
    /// not empty are gone over. Refused only for want of memory.
    pub fn emptied(self, rules: &RuleSet, line: &Line) -> Result<Table, Memory>
        requires line { IsLine line.now }
        requires table { CanBeEmptied self }
        ensures is_table { IfOk result (λ table. IsTable (leads_of rules.now.rules) (length line.now.letters) table) }
        ensures empty { IfOk result (λ table. (index number : ℕ) → HasState (set_of table index) number → ⊥) }
    {
        // Its contract says that there are not too many leads.
        rules.rules();
        let mut table = self;
        table.empty_sets();
        let entrances = entrances_over(table.entrances, rules.leads().len())?;
        let count = (line.letters.as_slice().len() + 1) * entrances.len();
        let mut sets = table.sets;
        sets.resize(count, StateSet::empty())?;
        let mut filled = table.filled;
        filled.resize(count / SETS_OF_WORD + 1, 0)?;
        Ok(Table {
            entrances,
            sets,
            filled,
        })
    }

    /// Where the set of an entrance stands, after so many letters.
    pub fn index(&self, at: u32, entrance: Entrance) -> usize
        requires { HasSet self.now at entrance }
        ensures index { result ≡ index_in self.now at entrance }
        ensures entrance { IsEntrance entrance }
    {
        let leads = self.entrances.len() - OTHER_ENTRANCES;
        let column = match entrance {
            Entrance::Lead(place) => usize::from(place),
            Entrance::Start => leads,
            Entrance::Plain(letter) => leads + usize::from(letter.code()),
        };
        at as usize * self.entrances.len() + column
    }

    /// The set after so many letters, at an entrance.
    pub fn get(&self, at: u32, entrance: Entrance) -> StateSet
        requires { HasSet self.now at entrance }
        ensures set { result ≡ set_at self.now at entrance }
        ensures entrance { IsEntrance entrance }
    {
        self.sets[self.index(at, entrance)]
    }

    /// Whether the table has the place after so many letters, entered so, with the state.
    pub fn has(&self, at: u32, entrance: Entrance, state: State) -> bool
        requires there { HasSet self.now at entrance }
        requires state { IsStateNumber state }
        ensures told { IsTrue result ↔ HasThisState (set_at self.now at entrance) state }
        ensures entrance { IsEntrance entrance }
    {
        let set = self.get(at, entrance);
        match state.number() {
            Some(number) => set.has(number),
            None => false,
        }
    }

    /// Puts the states into the set after so many letters, at an entrance.
    pub fn add(&mut self, at: u32, entrance: Entrance, states: StateSet)
        requires { HasSet self.old at entrance }
        ensures entrance { IsEntrance entrance }
        ensures changes { ChangesAt (index_in self.old at entrance) self.old self.new }
        ensures added { (number : ℕ) → HasState (set_at self.new at entrance) number ↔ (HasState (set_at self.old at entrance) number ⊎ HasState states number) }
    {
        let index = self.index(at, entrance);
        self.sets[index] = self.sets[index].union(states);
        self.filled[index / SETS_OF_WORD] |= 1 << (index % SETS_OF_WORD);
    }

    /// Puts these states in place of those at the index. Where there are none, the set loses its bit.
    pub fn replace(&mut self, index: usize, states: StateSet)
        requires bits { HaveBits self.old.sets.items self.old.filled.items }
        requires there { index < length self.old.sets.items }
        ensures changes { ChangesAt index self.old self.new }
        ensures set { set_of self.new index ≡ states }
    {
        let bit = 1 << (index % SETS_OF_WORD);
        self.sets[index] = states;
        if states.is_empty() {
            self.filled[index / SETS_OF_WORD] &= !bit;
        } else {
            self.filled[index / SETS_OF_WORD] |= bit;
        }
    }

    /// An index from this one on, before which all sets from there on are empty: that of the next set that has its bit, or the number of
    /// sets.
    pub fn next_filled(&self, from: usize) -> usize
        requires bits { HaveBits self.now.sets.items self.now.filled.items }
        requires from { from ≤ length self.now.sets.items }
        ensures { AreEmptyBetween self.now.sets.items from result }
    {
        let count = self.sets.len();
        let mut index = from;
        while index < count {
            let here = index % SETS_OF_WORD;
            let bits = self.filled[index / SETS_OF_WORD] >> here;
            if bits != 0 {
                return count.min(index + bits.trailing_zeros() as usize);
            }
            index += SETS_OF_WORD - here;
        }
        count
    }

    /// An index up to this one, from which on all sets before this one are empty: that after the last set that has its bit, or 0.
    pub fn filled_until(&self, until: usize) -> usize
        requires bits { HaveBits self.now.sets.items self.now.filled.items }
        requires until { until ≤ length self.now.sets.items }
        ensures { AreEmptyBetween self.now.sets.items result until }
    {
        let mut end = until;
        while end > 0 {
            let last = (end - 1) % SETS_OF_WORD;
            let bits = self.filled[(end - 1) / SETS_OF_WORD] << (SETS_OF_WORD - 1 - last);
            if bits != 0 {
                return end - bits.leading_zeros() as usize;
            }
            end -= last + 1;
        }
        0
    }

    /// After how many letters and at which entrance the set at the index stands.
    pub fn place(&self, index: usize) -> (u32, Entrance)
        requires wide { 51 ≤ length self.now.entrances.items }
        requires there { index < length self.now.sets.items }
        requires few { length self.now.sets.items < 2 ^ 32 }
        ensures { (leads : List Lead) (letters : ℕ) → IsTable leads letters self.now → IsIndexed leads letters index result.0 result.1 }
    {
        let width = self.entrances.len();
        ((index / width) as u32, self.entrances[index % width])
    }
}
