ghost use Rattle.std.specs.Prelude.{◌≡◌, ◌≤◌};

use annotated_trie::Lexicon;
use answer_printing::RuleTexts;
use outside::Gate;
use phoneme::Line;
use reader_choices::Choices;
use summary_chart::Chart;

/// What all parts are listed by: the lexicon with the texts of its rules, the line, the choices and their chart, how many keys a front
/// has and how many answers a page at most, how many workers there are, and the gate that each of them passes.
#[derive(Drop)]
pub(crate) struct Lister<'a, G: Gate> {
    pub lexicon: &'a Lexicon,
    pub texts: &'a RuleTexts<'a>,
    pub line: &'a Line,
    pub choices: &'a Choices,
    pub chart: &'a Chart,
    pub depth: u32,
    pub limit: u32,
    pub workers: usize,
    pub gate: &'a G,
    pub ghost same_rules: { texts.now ≡ lexicon.now.lexicon.rules },
    pub ghost some_keys: { 1 ≤ depth },
    pub ghost few_keys: { depth ≤ 8 },
    pub ghost some_answers: { 1 ≤ limit },
    pub ghost few_answers: { limit ≤ 1_000 },
}
