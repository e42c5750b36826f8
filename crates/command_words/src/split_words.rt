ghost use Rattle.std.specs.Prelude.{◌≤◌};
ghost use Rattle.run_definitions.specs.declared.limits.TheConstants.{MOST_SPLIT_DEPTH};
ghost use Rattle.session_definitions.specs.declared.limits.TheConstants.{MOST_PAGE};

use super::placed_word::PlacedWord;

/// The words of `split`: the name of the lexicon file, a text in SLP1, how many answers the page may have, and how many steps deep
/// the search is divided. Both numbers are at least 1 and within their limits.
#[derive(Clone, Copy)]
pub struct SplitWords<'a> {
    pub lex: PlacedWord<'a>,
    pub text: PlacedWord<'a>,
    pub count: u32,
    pub depth: u32,
    ghost some_answers: { 1 ≤ count },
    ghost few_answers: { count ≤ MOST_PAGE },
    ghost some_depth: { 1 ≤ depth },
    ghost small_depth: { depth ≤ MOST_SPLIT_DEPTH },
}
