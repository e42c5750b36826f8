ghost use Rattle.std.specs.Prelude.{◌≡◌, ◌+◌, ◌<◌, ◌≤◌, IfSome, OnOk};
ghost use Rattle.std.specs.Bool.{OnTrue};
ghost use Rattle.summary_chart.specs.declared.walk_memo.TheConstants.{MOST_WALKS};
ghost use Rattle.summary_chart.specs.declared.walk_memo.Walked.{Walked as WalkedValue};
ghost use Rattle.summary_chart.specs.Sites.{IsSiteAhead};
ghost use Rattle.summary_chart.specs.Walked.{FitWithLetter, IsKept, IsWalkFrom, KeepsWalked};

use super::site::{Front, SiteAhead};
use super::state_set::StateSet;
use phoneme::Memory;
use shared_trie::Node;
use std::alloc::Global;

/// So many walks are kept at most.
const MOST_WALKS: usize = 65_536;

/// A walk on along the trie and the line: from this node, after so many letters of the line, up to the limit; whether the line may end
/// after a form; and the phase of the forms, counted from 0, or another that no rule tells from it. What the forms do that are met on it is
/// the same wherever they begin.
#[derive(Clone, Copy, PartialEq, Eq)]
pub(crate) struct Walk {
    pub node: Node,
    pub end: u32,
    pub limit: u32,
    pub may_end: bool,
    pub phase: u32,
}

impl Walk {
    /// The walk on from the front.
    pub fn from(here: SiteAhead<'_>, front: &Front) -> Walk
        requires here { IsSiteAhead here }
        requires limit { here.site.place.now.at + front.now.taken ≤ here.ahead.limit }
        ensures { IsWalkFrom here.entry front.now result }
    {
        Walk {
            node: front.node,
            end: here.site.place.at + front.taken,
            limit: here.ahead.limit,
            may_end: here.ahead.may_end,
            phase: here.site.lexicon.alike_phase(front.phase),
        }
    }
}

/// Whether what is known of walks may be asked at the place: no choice is made, and a form that takes a letter of the line may be entered
/// there. Each possible key that takes one and goes no further than the limit then fits the place.
pub(crate) fn shares_walks(here: SiteAhead<'_>) -> bool
    requires { IsSiteAhead here }
    ensures { OnTrue result (FitWithLetter here.entry) }
{
    here.site.is_free() && here.ahead.enters
}

/// A walk that was made, and the states that it gave.
#[derive(Clone, Copy)]
pub(crate) struct Walked {
    pub walk: Walk,
    pub states: StateSet,
}

/// Walks that were made, so that they are not made once more (own). It may forget: each walk has one place, where what was walked last is
/// kept. It takes no memory before something is kept.
#[derive(Drop)]
pub(crate) struct WalkMemo {
    places: Vec<Option<Walked>>,
}

/// The place of the walk, below `MOST_WALKS`. The number of a node is mostly one more than that of the next one along the line, so that those who
/// walk along it mostly find what they ask for at one place after another.
fn place_of(walk: &Walk) -> usize
    ensures { result < MOST_WALKS }
{
    let chain = u64::from(walk.node.number()) + u64::from(walk.end);
    let mixed = chain
        .wrapping_mul(0x9E37_79B9_7F4A_7C15)
        .wrapping_add(u64::from(walk.phase).wrapping_mul(0x1656_67B1_9E37_79F9));
    ((mixed >> 48) as usize + walk.end as usize) % MOST_WALKS
}

impl WalkMemo {
    /// A memo that keeps nothing yet.
    pub fn new(alloc: Global) -> WalkMemo
        ensures { (walked : WalkedValue) → IsKept result walked → ⊥ }
    {
        WalkMemo {
            places: Vec::new(alloc),
        }
    }

    /// The states that the walk gave, if this is kept.
    pub fn get(&self, walk: &Walk) -> Option<StateSet>
        ensures { IfSome result (λ states. IsKept self.now (record { walk = walk.now; states = states })) }
    {
        let Some(Some(walked)) = self.places.get(place_of(walk)) else {
            return None;
        };
        if walked.walk == *walk {
            Some(walked.states)
        } else {
            None
        }
    }

    /// Makes the places, where there are none yet. Refused only for want of memory.
    fn make_places(&mut self) -> Result<(), Memory>
        ensures { OnOk result ((walked : WalkedValue) → IsKept self.new walked → IsKept self.old walked) }
    {
        if self.places.is_empty() {
            self.places.resize(MOST_WALKS, None)?;
        }
        Ok(())
    }

    /// Keeps that the walk gave these states, in place of what is kept at its place. Refused only for want of memory.
    pub fn keep(&mut self, walk: &Walk, states: StateSet) -> Result<(), Memory>
        ensures { OnOk result (KeepsWalked walk.now states self.old self.new) }
    {
        self.make_places()?;
        if let Some(place) = self.places.get_mut(place_of(walk)) {
            *place = Some(Walked {
                walk: *walk,
                states,
            });
        }
        Ok(())
    }

    /// Forgets all walks, and keeps its memory.
    pub fn clear(&mut self)
        ensures { (walked : WalkedValue) → IsKept self.new walked → ⊥ }
    {
        self.places.clear();
    }
}
