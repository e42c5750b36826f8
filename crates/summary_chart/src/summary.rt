ghost use Rattle.std.specs.Prelude.{◌+◌, ◌≤◌, ◌<◌, ℕ, length, IfOk, OnOk};
ghost use Rattle.text_definitions.specs.Lines.{IsLine};
ghost use Rattle.segmentation_definitions.specs.Listings.{IsSummary};
ghost use Rattle.segmentation_definitions.specs.StepBounds.{chart_bound};
ghost use Rattle.annotated_trie.specs.Searched.{IsSearchedLexicon};
ghost use Rattle.search_frames.specs.Costs.{HasAtMostRules};
ghost use Rattle.summary_chart.specs.PlaceWays.{IsChartOf};
ghost use Rattle.summary_chart.specs.Sites.{IsSite};
ghost use Rattle.summary_chart.specs.Spreading.{leads_in};
ghost use Rattle.summary_chart.specs.Tables.{IsIndexed, set_of};
ghost use Rattle.summary_chart.specs.Summaries.{AddsItems, HasItemsBefore, IsCollected, IsItemFrom, steps_of_items, steps_of_summary};

use super::Chart;
use super::collected::Collected;
use super::collecting::{Standing, collect, collect_ways};
use super::items::sort_items;
use super::site::Site;
use annotated_trie::Lexicon;
use derivation::Item;
use outside::Steps;
use phoneme::{Line, Memory};
use reader_choices::Choices;
use search_frames::{Configuration, NODES_OF_FRAME};
use shared_trie::Node;
use std::alloc::Global;

impl Chart {
    /// Puts in the items of the keys by which places at the index, of which the site's is one, go further: of the ways that are kept from
    /// there, or else of all that the lexicon has. The place's own state is not looked at. Refused only for want of memory.
    fn collect_from<L>(
        &self,
        site: Site<'_>,
        index: usize,
        nodes: &mut Vec<Node>,
        collected: &mut Collected,
        steps: &mut Steps<L>,
    ) -> Result<(), Memory>
        requires site { IsSite site }
        requires chart { IsChartOf site.lexicon.now site.line.now site.choices.now self.now }
        requires there { index < length self.now.table.sets.items }
        requires indexed { IsIndexed (leads_in site.lexicon.now) (length site.line.now.letters) index site.place.now.at site.place.now.entrance }
        requires collected { IsCollected site.lexicon.now.lexicon.rules collected.old }
        ensures collected { OnOk result (IsCollected site.entry.lexicon.now.lexicon.rules collected.new) }
        ensures adds { let here = site.entry in OnOk result (AddsItems (IsItemFrom here.lexicon.now here.line.now here.choices.now self.now.table here.place.now.at here.place.now.entrance (set_of self.now.table index)) collected.old.items.items collected.new.items.items) }
        ensures steps { (most : ℕ) → HasAtMostRules site.entry.lexicon.now.tries most → steps.new ≤ steps.old + steps_of_items site.entry.lexicon.now most }
    {
        let states = self.table.sets[index];
        let standing = Standing {
            states,
            table: &self.table,
        };
        let Some(ways) = self.kept.at(site.place.at, index) else {
            return collect(site, standing, nodes, collected, steps);
        };
        collect_ways(site, standing, ways, collected, steps)
    }

    /// The items of the keys by which places of the table go further, in any order. Refused only for want of memory.
    fn unsorted_items<L>(
        &self,
        alloc: Global,
        lexicon: &Lexicon,
        line: &Line,
        choices: &Choices,
        steps: &mut Steps<L>,
    ) -> Result<Vec<Item>, Memory>
        requires searched { IsSearchedLexicon lexicon.now }
        requires line { IsLine line.now }
        requires chart { IsChartOf lexicon.now line.now choices.now self.now }
        ensures items { IfOk result (λ items. HasItemsBefore lexicon.now line.now choices.now self.now.table (length self.now.table.sets.items) items.items) }
        ensures steps { (most : ℕ) → HasAtMostRules lexicon.now.tries most → steps.new ≤ steps.old + steps_of_summary lexicon.now line.now most }
    {
        let mut collected = Collected::new(alloc);
        let mut nodes = Vec::with_capacity(alloc, NODES_OF_FRAME)?;
        let state = lexicon.automaton().start();
        let table = &self.table;
        let mut index = table.next_filled(0);
        while index < table.sets.len() {
            let (at, entrance) = table.place(index);
            let place = Configuration {
                at,
                entrance,
                state,
            };
            let site = Site {
                lexicon,
                line,
                choices,
                place: &place,
            };
            self.collect_from(site, index, &mut nodes, &mut collected, steps)?;
            index = table.next_filled(index + 1);
        }
        Ok(collected.items)
    }

    /// The summary of the line: the item of each step of some answer, once, ordered by the letters before it, then those with a lead
    /// before those without, then by phase, form and the length of the lead (Goyal and Huet 2016; the order is our own). The
    /// lexicon, the line and the choices are those with which the chart was built. `steps` counts each phase, node and rule that is looked
    /// at, and for each item that it is made and put in order; not what is compared to put items in order. An item is made once for each
    /// phase, number of letters and `u` at a place. Refused only for want of memory.
    pub fn summary<L>(
        &self,
        alloc: Global,
        lexicon: &Lexicon,
        line: &Line,
        choices: &Choices,
        steps: &mut Steps<L>,
    ) -> Result<Vec<Item>, Memory>
        requires chart { IsChartOf lexicon.now line.now choices.now self.now }
        ensures ok { IfOk result (λ items. IsSummary lexicon.now.lexicon line.now choices.now items.items) }
        ensures steps { (most : ℕ) → HasAtMostRules lexicon.now.tries most → steps.new ≤ steps.old + steps_of_summary lexicon.now line.now most }
        ensures bound { (most : ℕ) → HasAtMostRules lexicon.now.tries most → steps.new ≤ steps.old + chart_bound lexicon.now.lexicon most (length line.now.letters) (length (leads_in lexicon.now)) }
    {
        // The proof knows what holds of a line and of a lexicon only of those that are read.
        let _letters = &line.letters;
        let _rules = lexicon.rules();
        let mut items = self.unsorted_items(alloc, lexicon, line, choices, steps)?;
        sort_items(&mut items);
        Ok(items)
    }
}
