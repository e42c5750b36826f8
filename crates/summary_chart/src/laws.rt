ghost use Rattle.std.specs.Prelude.{List};
ghost use Rattle.text_definitions.specs.Lines.{Line, IsLine};
ghost use Rattle.segmentation_definitions.specs.Items.{Choice};
ghost use Rattle.annotated_trie.specs.Searched.{SearchedLexicon, IsSearchedLexicon};
ghost use Rattle.search_frames.specs.Guided.{IsExactOf};
ghost use Rattle.summary_chart.specs.Charts.{says_of};
ghost use Rattle.summary_chart.specs.PlaceWays.{ChartValue, IsChartOf};

/// What is known of a chart as the guide of a search makes it exact, so that a move of a search under it takes few steps.
pub fn charts_are_exact()
    ensures exact { (searched : SearchedLexicon) (line : Line) (choices : List Choice) (chart : ChartValue) → IsSearchedLexicon searched → IsLine line
        → IsChartOf searched line choices chart → IsExactOf searched line choices (says_of chart.table) }
{}
