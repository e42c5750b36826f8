ghost use Rattle.std.specs.Prelude.{◌≡◌, ◌+◌, ◌-◌, ◌<◌, ◌≤◌, ◌↔◌, ◌++◌, ◌∷◌, [], length, slice_set, take, Contains, IsTrue, IfSome, MatchOption, OnOk};
ghost use Rattle.std.specs.List.Sorted.{IsStrictlySortedBy};
ghost use Rattle.summary_chart.specs.declared.place_ways.Stop.{Stop as StopValue};
ghost use Rattle.summary_chart.specs.PlaceWays.{AreStops, AreWaysAt, HasStopAt, IsStopAt, IsStopWithin, compare_stops, narrowed, stop_at, ways_of};

use phoneme::Memory;
use search_frames::Way;
use std::alloc::Global;

/// From so many more places than those with ways that are kept, ways are looked for in vain.
const MOST_MISSES: usize = 256;

/// In the pass back so many rules are looked at for one line at most, for ways of more places to be kept; a place counts as 256 at least.
const MOST_LOOKED_BACK: usize = 262_144;

const LEAST_LOOKED_BACK: usize = 256;

/// Where the ways stand that lead from the places at an index of a table: from `first` to before `end` among all ways. After the pass
/// back these are the ways without the dead ones before the first living way and after the last.
#[derive(Clone, Copy)]
pub(crate) struct Stop {
    pub index: usize,
    pub first: usize,
    pub end: usize,
}

/// The ways from places of a table, one stop after another in the order of the table, and after these the late stops, which the pass back
/// puts in, in its order, until all are put in order. Not every place has a stop, and not every way is that of one.
#[derive(Drop)]
pub(crate) struct PlaceWays {
    pub stops: Vec<Stop>,
    pub ways: Vec<Way>,
    pub late: Vec<Stop>,
    /// How many stops stand before the places after each number of letters, as far as there are stops. It tells where to look first, and
    /// no contract speaks of it.
    starts: Vec<usize>,
    /// From how many places the ways were looked for and not kept. No contract speaks of it.
    misses: usize,
    /// How many rules may still be looked at in the pass back. No contract speaks of it.
    pub looks_left: usize,
}

impl PlaceWays {
    /// No stops, and no ways. Takes no memory.
    pub fn new(alloc: Global) -> PlaceWays {
        PlaceWays {
            stops: Vec::new(alloc),
            ways: Vec::new(alloc),
            late: Vec::new(alloc),
            starts: Vec::new(alloc),
            misses: 0,
            looks_left: MOST_LOOKED_BACK,
        }
    }

    /// Drops all stops and ways, and keeps their memory.
    pub fn clear(&mut self)
        ensures stops { self.new.stops.items ≡ [] }
        ensures ways { self.new.ways.items ≡ [] }
        ensures late { self.new.late.items ≡ [] }
    {
        self.stops.clear();
        self.ways.clear();
        self.late.clear();
        self.starts.clear();
        self.misses = 0;
        self.looks_left = MOST_LOOKED_BACK;
    }

    /// Whether the ways of one place more are looked for in the pass back, which counts as so many rules at least. No contract speaks of
    /// it.
    pub fn looks_back(&mut self) -> bool
        ensures late { self.new.late.items ≡ self.old.late.items }
        ensures stops { self.new.stops.items ≡ self.old.stops.items }
        ensures ways { self.new.ways.items ≡ self.old.ways.items }
    {
        if self.looks_left < LEAST_LOOKED_BACK {
            return false;
        }
        self.looks_left -= LEAST_LOOKED_BACK;
        true
    }

    /// Whether ways are looked for from one place more: not where they were looked for in vain by far more often than they were kept. No
    /// contract speaks of it.
    pub fn is_worth_looking(&self) -> bool {
        self.misses.saturating_sub(self.stops.len()) < MOST_MISSES
    }

    /// Drops the ways from this number on, since those from one place are not kept.
    pub fn drop_from(&mut self, first: usize)
        requires first { first ≤ length self.old.ways.items }
        ensures stops { self.new.stops.items ≡ self.old.stops.items }
        ensures late { self.new.late.items ≡ self.old.late.items }
        ensures ways { self.new.ways.items ≡ take first self.old.ways.items }
    {
        self.ways.truncate(first);
        self.misses = self.misses.saturating_add(1);
    }

    /// Whether there are fewer stops and ways together than this.
    pub fn has_room(&self, most: usize) -> bool
        ensures { IsTrue result ↔ (length self.now.stops.items + length self.now.late.items + length self.now.ways.items < most) }
    {
        self.stops.len() + self.late.len() < most.saturating_sub(self.ways.len())
    }

    /// The ways of the stop.
    #[inline(always)]
    pub fn of(&self, stop: Stop) -> &[Way]
        requires within { IsStopWithin (length self.now.ways.items) stop }
        ensures { result.now ≡ ways_of self.now.ways.items stop }
    {
        &self.ways.as_slice()[stop.first..stop.end]
    }

    /// Puts in a stop of places after so many letters of the line, no fewer than those of the stops before. Refused only for want of
    /// memory.
    pub fn push(&mut self, at: u32, stop: Stop) -> Result<(), Memory>
        ensures stops { OnOk result (self.new.stops.items ≡ self.old.stops.items ++ stop ∷ []) }
        ensures ways { self.new.ways.items ≡ self.old.ways.items }
        ensures late { self.new.late.items ≡ self.old.late.items }
    {
        let start = self.stops.len();
        while self.starts.len() <= at as usize {
            self.starts.push(start)?;
        }
        self.stops.push(stop)?;
        Ok(())
    }

    /// Puts in a late stop. Refused only for want of memory.
    pub fn push_late(&mut self, stop: Stop) -> Result<(), Memory>
        ensures late { OnOk result (self.new.late.items ≡ self.old.late.items ++ stop ∷ []) }
        ensures stops { self.new.stops.items ≡ self.old.stops.items }
        ensures ways { self.new.ways.items ≡ self.old.ways.items }
    {
        self.late.push(stop)?;
        Ok(())
    }

    /// Puts the late stops among the others, by their indices. Refused only for want of memory.
    pub fn put_in_order(&mut self) -> Result<(), Memory>
        requires stops { AreStops self.old.stops.items (length self.old.ways.items) }
        ensures rising { OnOk result (IsStrictlySortedBy compare_stops self.new.stops.items) }
        ensures from { OnOk result ((stop : StopValue) → Contains self.new.stops.items stop → Contains (self.old.stops.items ++ self.old.late.items) stop) }
        ensures few { OnOk result (length self.new.stops.items ≤ length self.old.stops.items + length self.old.late.items) }
        ensures ways { self.new.ways.items ≡ self.old.ways.items }
    {
        if self.late.is_empty() {
            return Ok(());
        }
        // Where a late stop stands among the others `starts` does not tell.
        self.starts.clear();
        self.stops.extend_from_slice(self.late.as_slice())?;
        self.late.clear();
        self.stops
            .sort_unstable_by(|left, right| left.index.cmp(&right.index));
        self.stops.dedup_by(|left, right| left.index == right.index);
        Ok(())
    }

    /// How many stops stand before the places after so many letters of the line.
    #[inline(always)]
    fn stops_before(&self, at: usize) -> usize
        ensures { result ≤ length self.now.stops.items }
    {
        let all = self.stops.len();
        match self.starts.get(at) {
            Some(start) => all.min(*start),
            None => all,
        }
    }

    /// The number of a stop at the index of the table, if there is one among the stops of places after so many letters of the line.
    #[inline(always)]
    fn among_stops_after(&self, at: u32, index: usize) -> Option<usize>
        ensures found { IfSome result (λ number. IsStopAt self.now.stops.items index number) }
    {
        let until = self.stops_before(at as usize + 1);
        let first = until.min(self.stops_before(at as usize));
        let stops = &self.stops.as_slice()[first..until];
        match stops.binary_search_by(|stop| stop.index.cmp(&index)) {
            Ok(number) => Some(first + number),
            Err(_) => None,
        }
    }

    /// The number of the stop at the index of the table. `None` where there is no stop.
    #[inline(never)]
    fn among_all_stops(&self, index: usize) -> Option<usize>
        requires stops { AreStops self.now.stops.items (length self.now.ways.items) }
        ensures found { MatchOption result (HasStopAt self.now.stops.items index → ⊥) (λ number. IsStopAt self.now.stops.items index number) }
    {
        match self.stops.binary_search_by(|stop| stop.index.cmp(&index)) {
            Ok(number) => Some(number),
            Err(_) => None,
        }
    }

    /// The number of the stop of the places at the index of the table, which stand after so many letters of the line. `None` where there is
    /// no stop.
    #[inline(always)]
    pub fn number_at(&self, at: u32, index: usize) -> Option<usize>
        requires stops { AreStops self.now.stops.items (length self.now.ways.items) }
        ensures found { MatchOption result (HasStopAt self.now.stops.items index → ⊥) (λ number. IsStopAt self.now.stops.items index number) }
    {
        // The stops after so many letters are few, so they are looked at first.
        match self.among_stops_after(at, index) {
            Some(number) => Some(number),
            None => self.among_all_stops(index),
        }
    }

    /// The number of the last of so many stops, if it is the one at the index of the table.
    #[inline(always)]
    pub fn last_at(&self, count: usize, index: usize) -> Option<usize>
        requires count { count ≤ length self.now.stops.items }
        ensures found { IfSome result (λ number. IsStopAt self.now.stops.items index number) }
    {
        if count > 0 && self.stops[count - 1].index == index {
            return Some(count - 1);
        }
        None
    }

    /// The number that is known, or else what `number_at` tells.
    #[inline(always)]
    pub fn known_or_number_at(&self, known: Option<usize>, at: u32, index: usize) -> Option<usize>
        requires stops { AreStops self.now.stops.items (length self.now.ways.items) }
        requires known { IfSome known (λ number. IsStopAt self.now.stops.items index number) }
        ensures found { MatchOption result (HasStopAt self.now.stops.items index → ⊥) (λ number. IsStopAt self.now.stops.items index number) }
    {
        match known {
            Some(number) => Some(number),
            None => self.number_at(at, index),
        }
    }

    /// The ways from the places at the index of the table, which stand after so many letters of the line. `None` where there is no stop.
    #[inline(always)]
    pub fn at(&self, at: u32, index: usize) -> Option<&[Way]>
        requires stops { AreStops self.now.stops.items (length self.now.ways.items) }
        ensures found { MatchOption result (HasStopAt self.now.stops.items index → ⊥) (λ ways. AreWaysAt self.now.stops.items self.now.ways.items index ways.now) }
    {
        match self.number_at(at, index) {
            Some(number) => Some(self.of(self.stops[number])),
            None => None,
        }
    }

    /// Leaves to the stop with this number only its ways from the first number to before the end, where these count the stop's own ways.
    pub fn narrow(&mut self, number: usize, first: usize, end: usize)
        requires there { number < length self.old.stops.items }
        requires rises { first ≤ end }
        requires within { end ≤ (stop_at self.old.stops.items number).end - (stop_at self.old.stops.items number).first }
        ensures stops { self.new.stops.items ≡ slice_set self.old.stops.items number (narrowed (stop_at self.old.stops.items number) first end) }
        ensures ways { self.new.ways.items ≡ self.old.ways.items }
        ensures late { self.new.late.items ≡ self.old.late.items }
    {
        let stop = self.stops[number];
        self.stops[number] = Stop {
            index: stop.index,
            first: stop.first + first,
            end: stop.first + end,
        };
    }
}
