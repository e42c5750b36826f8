use super::guiding::SearchGuide;
use annotated_trie::Lexicon;
use phoneme::Line;
use reader_choices::Choices;

/// Where a search looks for answers: those of a line over a lexicon under a reader's choices, and not where the guide says that there
/// are none.
#[derive(Drop)]
pub struct SearchSpace<'a, D: SearchGuide> {
    pub lexicon: &'a Lexicon,
    pub line: &'a Line,
    pub choices: &'a Choices,
    pub guide: &'a D,
}
