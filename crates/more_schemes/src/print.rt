ghost use Rattle.std.specs.Prelude.{◌≡◌, ◌<◌, ◌++◌, not, None, length, IfOk, string_bytes};
ghost use Rattle.text_definitions.specs.Longest.{spelling_of_letter, has_length, gap_before as gap_before_letter, spellings_of_word};
ghost use Rattle.more_scheme_definitions.specs.HarvardKyoto.{harvard_kyoto_of_word};
ghost use Rattle.more_scheme_definitions.specs.Iast.{iast_of_word};
ghost use Rattle.more_schemes.specs.Schemes.{front_in, table_in};

use super::scheme::{Scheme, is_lengthened, spelling};
use phoneme::{Letter, Memory, Word};
use std::alloc::Global;

/// The spelling of a word in Harvard-Kyoto, with `_` between two letters exactly where their spellings written
/// together would be read otherwise.
#[tactic(auto, unfolding(more_scheme_definitions::specs::HarvardKyoto::harvard_kyoto_of_word))]
pub fn print_hk(alloc: Global, word: &Word) -> Result<String, Memory>
    ensures ok { IfOk result (λ text. string_bytes text ≡ harvard_kyoto_of_word word.now) }
{
    print_spellings(alloc, Scheme::HarvardKyoto, word)
}

/// The spelling of a word in IAST, as composed UTF-8, with `_` between two letters exactly where their spellings
/// written together would be read otherwise.
#[tactic(auto, unfolding(more_scheme_definitions::specs::Iast::iast_of_word))]
pub fn print_iast(alloc: Global, word: &Word) -> Result<String, Memory>
    ensures ok { IfOk result (λ text. string_bytes text ≡ iast_of_word word.now) }
{
    print_spellings(alloc, Scheme::Iast, word)
}

/// Whether the two letters' spellings written together begin with a longer spelling than the first letter's.
#[tactic(auto, using(crate::proofs::SchemeSteps::keeps_first))]
fn run_together(scheme: Scheme, first: Letter, second: Letter) -> bool
    ensures value { let left = spelling_of_letter (table_in scheme) first in
        let right = spelling_of_letter (table_in scheme) second in
        not result ≡ has_length (front_in scheme (left ++ right)) (length left) }
{
    is_lengthened(
        scheme,
        spelling(scheme, first).as_bytes(),
        spelling(scheme, second).as_bytes()[0],
    )
}

/// What is printed between the previous letter, where there is one, and the next: `_` exactly where their spellings
/// written together would be read otherwise.
fn gap_before(scheme: Scheme, previous: Option<Letter>, letter: Letter) -> &'static str
    ensures { result.now ≡ gap_before_letter (front_in scheme) (spelling_of_letter (table_in scheme)) previous letter }
{
    match previous {
        Some(previous) if run_together(scheme, previous, letter) => "_",
        _ => "",
    }
}

/// The spelling of the word in the scheme.
fn print_spellings(alloc: Global, scheme: Scheme, word: &Word) -> Result<String, Memory>
    ensures ok { IfOk result (λ text. string_bytes text
        ≡ spellings_of_word (front_in scheme) (spelling_of_letter (table_in scheme)) None word.now) }
{
    let mut text = String::new(alloc);
    let mut previous = None;
    for letter in word.as_slice() {
        text.push_str(gap_before(scheme, previous, *letter))?;
        text.push_str(spelling(scheme, *letter))?;
        previous = Some(*letter);
    }
    Ok(text)
}
