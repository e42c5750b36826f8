ghost use Rattle.text_definitions.specs.Lines.{IsLine};
ghost use Rattle.annotated_trie.specs.Searched.{IsSearchedLexicon};
ghost use Rattle.segmenter.specs.MoveCosts.{AreKnownExact};
ghost use Rattle.segmenter.specs.Searches.{SearchValue};
ghost use Rattle.summary_chart.specs.Charts.{says_of};
ghost use Rattle.summary_chart.specs.PlaceWays.{ChartValue, IsChartOf};

use summary_chart::charts_are_exact;

/// What is known of the chart of a search makes it exact for the lexicon, the line and the choices that are searched. This is all that
/// `advance` and `skip` ask before they say how many steps they take at most; so under a chart each move is within that bound.
pub fn moves_under_a_chart_are_bounded()
    ensures { (search : SearchValue) → IsSearchedLexicon search.searched → IsLine search.line
        → AreKnownExact ChartValue (λ chart searched line choices. IsChartOf searched line choices chart)
        (λ chart at entrance state. says_of chart.table at entrance state) search }
{
    charts_are_exact();
}
