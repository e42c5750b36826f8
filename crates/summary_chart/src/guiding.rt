use super::Chart;
use annotated_trie::Lexicon;
use outside::Steps;
use phoneme::Line;
use reader_choices::Choices;
use search_frames::{Configuration, SearchGuide, Way};

impl SearchGuide for Chart {
    ghost use Rattle.summary_chart.specs.PlaceWays.{IsChartOf};

    ghost known = { λ chart searched line choices. IsChartOf searched line choices chart };

    fn ways<L>(
        &self,
        _lexicon: &Lexicon,
        _line: &Line,
        _choices: &Choices,
        place: &Configuration,
        steps: &mut Steps<L>,
    ) -> Option<&[Way]> {
        steps.tick();
        let index = self.table.index(place.at, place.entrance);
        self.kept.at(place.at, index)
    }
}
