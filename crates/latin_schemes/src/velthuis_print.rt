ghost use Rattle.std.specs.Prelude.{◌≡◌, ◌<◌, ◌++◌, not, length, IfOk, string_bytes};
ghost use Rattle.text_definitions.specs.Longest.{spelling_of_letter, has_length, gap_before as gap_before_letter};
ghost use Rattle.text_definitions.specs.Velthuis.{velthuis_table, velthuis_front, velthuis_of_word};

use super::velthuis_front::is_lengthened;
use phoneme::{Letter, Memory, Word};
use std::alloc::Global;

/// The spelling of each letter, by code from 1.
static SPELLINGS: [&str; 50] = [
    "a", "aa", "i", "ii", "u", "uu", ".r", ".rr", ".l", "e", "ai", "o", "au", ".m", "~m", ".h",
    "k", "kh", "g", "gh", "\"n", "c", "ch", "j", "jh", "~n", ".t", ".th", ".d", ".dh", ".n", "t",
    "th", "d", "dh", "n", "p", "ph", "b", "bh", "m", "y", "r", "l", "v", "\"s", ".s", "s", "h",
    ".a",
];

/// The table's spelling of the letter.
#[tactic(auto, unfolding(text_definitions::specs::Velthuis::velthuis_table))]
fn spelling(letter: Letter) -> &'static str
    ensures value { result.now ≡ spelling_of_letter velthuis_table letter }
    ensures length { 0 < length result.now }
{
    SPELLINGS[letter.code() as usize - 1]
}

/// Whether the two letters' spellings written together begin with a longer spelling than the first letter's.
#[tactic(auto, using(text_definitions::proofs::VelthuisTable::keeps_first))]
fn run_together(first: Letter, second: Letter) -> bool
    ensures value { let left = spelling_of_letter velthuis_table first in
        let right = spelling_of_letter velthuis_table second in
        not result ≡ has_length (velthuis_front (left ++ right)) (length left) }
{
    is_lengthened(spelling(first).as_bytes(), spelling(second).as_bytes()[0])
}

/// What is printed between the previous letter, where there is one, and the next: `_` exactly where their spellings
/// written together would be read otherwise.
fn gap_before(previous: Option<Letter>, letter: Letter) -> &'static str
    ensures { result.now ≡ gap_before_letter velthuis_front (spelling_of_letter velthuis_table) previous letter }
{
    match previous {
        Some(previous) if run_together(previous, letter) => "_",
        _ => "",
    }
}

/// The Velthuis spelling of a word, with `_` between two letters exactly where their spellings written together would
/// be read otherwise.
#[tactic(auto, unfolding(text_definitions::specs::Velthuis::velthuis_of_word))]
pub fn print_velthuis(alloc: Global, word: &Word) -> Result<String, Memory>
    ensures ok { IfOk result (λ text. string_bytes text ≡ velthuis_of_word word.now) }
{
    let mut text = String::new(alloc);
    let mut previous = None;
    for letter in word.as_slice() {
        text.push_str(gap_before(previous, *letter))?;
        text.push_str(spelling(*letter))?;
        previous = Some(*letter);
    }
    Ok(text)
}
