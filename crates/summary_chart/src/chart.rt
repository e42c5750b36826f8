ghost use Rattle.std.specs.Prelude.{◌≡◌, ◌+◌, ◌*◌, ◌≤◌, ℕ, length, IfOk};
ghost use Rattle.text_definitions.specs.Lines.{IsLine};
ghost use Rattle.segmentation_definitions.specs.StepBounds.{chart_bound};
ghost use Rattle.search_frames.specs.Costs.{HasAtMostRules};
ghost use Rattle.search_frames.specs.Guided.{IsGuideOf, IsExactOf};
ghost use Rattle.summary_chart.specs.PlaceWays.{IsChartOf, AreFew};
ghost use Rattle.summary_chart.specs.Charts.{IsOpenTable, CoversPlace, says_of, set_count};
ghost use Rattle.summary_chart.specs.Summaries.{steps_of_summary};
ghost use Rattle.summary_chart.specs.Spreading.{leads_in};
ghost use Rattle.summary_chart.specs.Tables.{CanBeEmptied};

use super::leading_states::LeadingStates;
use super::memo::Memo;
use super::passes::{keep_living, reach};
use super::place_ways::PlaceWays;
use super::room::{Room, WalkRoom};
use super::site::Passage;
use super::state_set::StateSet;
use super::table::Table;
use super::walk_memo::WalkMemo;
use annotated_trie::Lexicon;
use derivation::{Entrance, Guide};
use outside::Steps;
use phase_automaton::State;
use phoneme::{Line, Memory};
use reader_choices::Choices;
use shared_trie::Node;
use std::alloc::Global;
use std::marker::Model;

/// The chart of a line: an exact guide, which says of each configuration whether it stands in an answer (own; for the summary of
/// Goyal and Huet 2016). It is one for the lexicon, the line and the choices with which it was built. Its memory may serve for the chart
/// of another line.
#[derive(Drop)]
pub struct Chart {
    pub(crate) table: Table,
    pub(crate) kept: PlaceWays,
    nodes: Vec<Node>,
}

impl Model for Chart {
    ghost use Rattle.summary_chart.specs.PlaceWays.{ChartValue};
    ghost use Rattle.summary_chart.specs.Tables.{CanBeEmptied};

    ghost Value = { ChartValue };

    ghost view = { λ c. record { table = c.table; stops = c.kept.stops.items; ways = c.kept.ways.items } };

    ghost invariant = { λ c. CanBeEmptied c.table };
}

/// A table that has the opening alone, in the memory of this one.
fn open_table(table: Table, lexicon: &Lexicon, line: &Line) -> Result<Table, Memory>
    requires line { IsLine line.now }
    requires table { CanBeEmptied table }
    ensures { IfOk result (IsOpenTable lexicon.now line.now) }
{
    let mut table = table.emptied(lexicon.rules(), line)?;
    if let Some(start) = lexicon.automaton().start().number() {
        table.add(0, Entrance::Start, StateSet::empty().with(start));
    }
    Ok(table)
}

impl Chart {
    /// A chart of no line, to be rebuilt as that of one. Takes no memory.
    pub fn new(alloc: Global) -> Chart {
        Chart {
            table: Table::new(alloc),
            kept: PlaceWays::new(alloc),
            nodes: Vec::new(alloc),
        }
    }

    /// The chart of the line with these choices, over the lexicon: a set of states, of four bytes, for each number of letters and each
    /// entrance; and the ways from places that have few of them, as long as ways and stops, of 24 bytes each, take no more than four bytes
    /// for each of the sets and each phase, and one number for each letter. The ways of a place are told without those that lead to no
    /// answer before the first that does and after the last; such ways between them are told. From places that have many ways those alone
    /// may be told that lead to an answer. `steps` counts each phase, node, rule and way that is looked at or kept, in two passes. Looking
    /// for sets that are not empty is not counted. Refused only for want of memory.
    pub fn build<L>(
        alloc: Global,
        lexicon: &Lexicon,
        line: &Line,
        choices: &Choices,
        steps: &mut Steps<L>,
    ) -> Result<Chart, Memory>
        ensures guide { IfOk result (λ chart. IsGuideOf lexicon.now line.now choices.now (CoversPlace chart.table) (says_of chart.table)) }
        ensures exact { IfOk result (λ chart. IsExactOf lexicon.now line.now choices.now (says_of chart.table)) }
        ensures chart { IfOk result (λ chart. IsChartOf lexicon.now line.now choices.now chart) }
        ensures stored { IfOk result (λ chart. length chart.table.sets.items ≡ set_count lexicon.now line.now) }
        ensures few { IfOk result (λ chart. AreFew lexicon.now line.now chart.stops chart.ways) }
        ensures steps { (most : ℕ) → HasAtMostRules lexicon.now.tries most → steps.new ≤ steps.old + 4 * steps_of_summary lexicon.now line.now most }
        ensures bound { (most : ℕ) → HasAtMostRules lexicon.now.tries most → steps.new ≤ steps.old + chart_bound lexicon.now.lexicon most (length line.now.letters) (length (leads_in lexicon.now)) }
    {
        Chart::new(alloc).rebuilt(alloc, lexicon, line, choices, steps)
    }

    /// The chart of the line with these choices, over the lexicon, as `build` gives it, in the memory of this one, whatever it was of.
    pub fn rebuilt<L>(
        self,
        alloc: Global,
        lexicon: &Lexicon,
        line: &Line,
        choices: &Choices,
        steps: &mut Steps<L>,
    ) -> Result<Chart, Memory>
        ensures guide { IfOk result (λ chart. IsGuideOf lexicon.now line.now choices.now (CoversPlace chart.table) (says_of chart.table)) }
        ensures exact { IfOk result (λ chart. IsExactOf lexicon.now line.now choices.now (says_of chart.table)) }
        ensures chart { IfOk result (λ chart. IsChartOf lexicon.now line.now choices.now chart) }
        ensures stored { IfOk result (λ chart. length chart.table.sets.items ≡ set_count lexicon.now line.now) }
        ensures few { IfOk result (λ chart. AreFew lexicon.now line.now chart.stops chart.ways) }
        ensures steps { (most : ℕ) → HasAtMostRules lexicon.now.tries most → steps.new ≤ steps.old + 4 * steps_of_summary lexicon.now line.now most }
        ensures bound { (most : ℕ) → HasAtMostRules lexicon.now.tries most → steps.new ≤ steps.old + chart_bound lexicon.now.lexicon most (length line.now.letters) (length (leads_in lexicon.now)) }
    {
        // The proof knows what holds of a line, a lexicon and an automaton only of those that are read.
        let _letters = &line.letters;
        let _rules = lexicon.rules();
        let _states = lexicon.automaton().states();
        let mut table = open_table(self.table, lexicon, line)?;
        let mut kept = self.kept;
        kept.clear();
        let mut room = Room {
            walking: WalkRoom {
                nodes: self.nodes,
                memo: Memo::new(alloc),
                walks: WalkMemo::new(alloc),
            },
            fronts: Vec::new(alloc),
            longer: Vec::new(alloc),
            walked: Vec::new(alloc),
            seats: Vec::new(alloc),
        };
        let passage = Passage {
            lexicon,
            line,
            choices,
        };
        let leading = LeadingStates::of(lexicon.automaton());
        let each_has_stop = reach(passage, &leading, &mut table, &mut kept, &mut room, steps)?;
        room.walking.memo.clear();
        room.walking.walks.clear();
        keep_living(
            passage,
            &leading,
            each_has_stop,
            &mut table,
            &mut kept,
            &mut room,
            steps,
        )?;
        let WalkRoom { nodes, .. } = room.walking;
        Ok(Chart { table, kept, nodes })
    }
}

impl Guide for Chart {
    ghost use Rattle.summary_chart.specs.Charts.{CoversPlace, says_of};

    ghost covers = { λ chart at entrance state. CoversPlace chart.table at entrance state };

    ghost says = { λ chart at entrance state. says_of chart.table at entrance state };

    fn live<L>(&self, at: u32, entrance: Entrance, state: State, steps: &mut Steps<L>) -> bool {
        steps.tick();
        self.table.has(at, entrance, state)
    }
}
