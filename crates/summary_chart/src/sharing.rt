ghost use denote.Param.Send.{IsSync};
ghost use Rattle.summary_chart.specs.contracts.chart.Chart as Chart;

/// A chart may be shared among threads.
pub fn charts_are_shared()
    ensures { IsSync Chart.the_row }
{}
