ghost use Rattle.std.specs.Prelude.{◌+◌, ◌<◌, ◌≤◌, ◌↔◌, IsTrue};
ghost use Rattle.std.specs.Bool.{OnTrue};
ghost use Rattle.segmentation_definitions.specs.Listings.{Key as KeyValue};
ghost use Rattle.search_frames.specs.Configurations.{IsPossible};
ghost use Rattle.search_frames.specs.Ahead.{MayBegin};
ghost use Rattle.search_frames.specs.Frames.{numbered_of};
ghost use Rattle.search_frames.specs.WaysFrom.{IsWayFrom, key_of_way};
ghost use Rattle.summary_chart.specs.Fronts.{IsFrontAt};
ghost use Rattle.summary_chart.specs.Sites.{IsSite, IsSiteAhead};
ghost use Rattle.summary_chart.specs.Spreading.{IsAtFront};

use super::collecting::Standing;
use super::gathering::states_by_way;
use super::memo::{Memo, Work};
use super::site::{Front, Site, SiteAhead};
use super::state_steps::states_into;
use outside::Steps;
use search_frames::Way;

/// Which of the ways from a place are looked for (own).
pub(crate) trait Sought {
    ghost use Rattle.segmentation_definitions.specs.Listings.{Key};
    ghost use Rattle.summary_chart.specs.declared.site.Site.{Site};

    /// The keys at a place of which the ways are looked for.
    ghost sought: { Self → Site → Key → Type 0 };

    /// What has to hold of it at a place.
    ghost known: { Self → Site → Type 0 };

    /// Whether the way from the place is looked for.
    fn seeks(&self, site: Site<'_>, way: &Way) -> bool
        requires site { IsSite site }
        requires known { known self.now site }
        requires way { IsWayFrom site.lexicon.now site.line.now site.choices.now (numbered_of site.lexicon.now site.place.now) way.now }
        ensures { IsTrue result ↔ sought self.now site.entry (key_of_way way.now) };

    /// Whether it is known that none is looked for whose key has this front and a rule. Takes at most a step.
    fn passes_over<L>(&self, here: SiteAhead<'_>, front: &Front, steps: &mut Steps<L>) -> bool
        requires here { IsSiteAhead here }
        requires known { known self.now here.site }
        requires limit { here.site.place.now.at + front.now.taken ≤ here.ahead.limit }
        requires begins { MayBegin (numbered_of here.site.lexicon.now here.site.place.now).entrance front.now.phase }
        requires front { IsFrontAt here.site.lexicon.now here.site.line.now (numbered_of here.site.lexicon.now here.site.place.now) front.now.phase front.now.taken front.now.node }
        ensures none { let site = here.entry.site in OnTrue result ((key : KeyValue) → IsAtFront front.now.phase front.now.taken key → 0 < key.rule → IsPossible site.lexicon.now site.line.now (numbered_of site.lexicon.now site.place.now) key → sought self.now site key → ⊥) }
        ensures steps { steps.new ≤ steps.old + 1 };
}

/// All ways are looked for.
#[derive(Clone, Copy)]
pub(crate) struct AllWays;

impl Sought for AllWays {
    ghost sought = { λ _ site key. Unit {0} };

    ghost known = { λ _ site. Unit {0} };

    fn seeks(&self, _site: Site<'_>, _way: &Way) -> bool {
        true
    }

    fn passes_over<L>(&self, _here: SiteAhead<'_>, _front: &Front, _steps: &mut Steps<L>) -> bool {
        false
    }
}

/// Those alone are looked for by which some state of a set goes further. The memo tells of fronts that none does so by a rule.
#[derive(Clone, Copy)]
pub(crate) struct LivingAlone<'a> {
    pub standing: Standing<'a>,
    pub memo: &'a Memo,
}

impl<'a> Sought for LivingAlone<'a> {
    ghost use Rattle.std.specs.Prelude.{length};
    ghost use Rattle.summary_chart.specs.Memos.{AreLiving};
    ghost use Rattle.summary_chart.specs.PlaceWays.{IsLivingKey};
    ghost use Rattle.summary_chart.specs.Spreading.{leads_in};
    ghost use Rattle.summary_chart.specs.Tables.{IsTable};

    ghost sought = { λ living site key. IsLivingKey site.lexicon.now site.line.now site.choices.now living.standing.table.now site.place.now.at site.place.now.entrance living.standing.states key };

    ghost known = { λ living site. IsTable (leads_in site.lexicon.now) (length site.line.now.letters) living.standing.table.now × AreLiving site.lexicon.now site.line.now living.standing.table.now living.memo.now };

    fn seeks(&self, site: Site<'_>, way: &Way) -> bool {
        !states_by_way(site, self.standing.states, way, self.standing.table).is_empty()
    }

    fn passes_over<L>(&self, here: SiteAhead<'_>, front: &Front, steps: &mut Steps<L>) -> bool {
        steps.tick();
        let Site {
            lexicon,
            line,
            choices,
            place,
        } = here.site;
        let ahead = here.ahead;
        let Some(may_end) = ahead.end_by_rules(lexicon, line, choices, place, front.taken) else {
            return false;
        };
        let work = Work {
            node: front.node,
            part: None,
            end: place.at + front.taken,
            may_end,
            phase: lexicon.alike_phase(front.phase),
        };
        let Some(living) = self.memo.get(lexicon.tries(), &work) else {
            return false;
        };
        states_into(
            lexicon.automaton(),
            self.standing.states,
            front.phase,
            living,
        )
        .is_empty()
    }
}
