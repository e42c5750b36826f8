ghost use Rattle.std.specs.Prelude.{◌≡◌, ◌-◌, ◌<◌, ◌≤◌, ◌^◌, Some, length, codes, map, string_bytes, All, IfOk, OnOk};
ghost use Rattle.std.specs.Str.{bytes_eq};
ghost use Rattle.run_definitions.specs.declared.limits.TheConstants.{MOST_WORD_BYTES};
ghost use Rattle.run_definitions.specs.Arguments.{Given, given_by, is_option as is_defined_option};
ghost use Rattle.command_words.specs.Meant.{turn_meant, word_meant};
ghost use Rattle.command_words.specs.Turns.{turn_after as turn_told, is_argument as is_argument_told, arguments_with};

use super::placed_word::PlacedWord;
use phoneme::Memory;
use std::alloc::Global;

/// What a next word may be: any, the value of the `--in` before it, or an argument whatever it is, since `--` came.
#[derive(Clone, Copy)]
pub(crate) enum NextWord {
    Any,
    Value,
    Argument,
}

/// Whether the word is this one.
fn is_word(word: &str, other: &str) -> bool
    ensures { result ≡ bytes_eq word.now other.now }
{
    word == other
}

/// Whether the word is an option: it begins with `-`, and that is not all of it.
fn is_option(word: &str) -> bool
    ensures { result ≡ is_defined_option word.now }
{
    match word.as_bytes() {
        [first, _, ..] => *first == b'-',
        _ => false,
    }
}

/// What the next word may be.
fn turn_after(turn: NextWord, word: &str) -> NextWord
    ensures { turn_meant result ≡ turn_told (turn_meant turn) word.now }
{
    match turn {
        NextWord::Any => {
            if is_word(word, "--") {
                NextWord::Argument
            } else if is_word(word, "--in") {
                NextWord::Value
            } else {
                NextWord::Any
            }
        }
        NextWord::Value => NextWord::Any,
        NextWord::Argument => NextWord::Argument,
    }
}

/// Whether the word is an argument.
fn is_argument(turn: NextWord, word: &str) -> bool
    ensures { result ≡ is_argument_told (turn_meant turn) word.now }
{
    match turn {
        NextWord::Any => !is_option(word),
        NextWord::Value => false,
        NextWord::Argument => true,
    }
}

/// Appends the word, where it is an argument.
fn push_argument<'a>(
    arguments: &mut Vec<PlacedWord<'a>>,
    is: bool,
    place: u32,
    word: &'a str,
) -> Result<(), Memory>
    requires { length word.now ≤ MOST_WORD_BYTES }
    ensures { OnOk result (map word_meant arguments.new.items ≡ arguments_with is (map word_meant arguments.old.items) place word.now) }
{
    if is {
        arguments.push(PlacedWord { place, name: word })?;
    }
    Ok(())
}

/// The arguments among words that are taken, with their places; the first word has the place 1.
pub(crate) fn arguments_of(alloc: Global, words: &[String]) -> Result<Vec<PlacedWord<'_>>, Memory>
    requires count { length words.now < 2 ^ 32 - 1 }
    requires within_limit { All (λ word. length (string_bytes word) ≤ MOST_WORD_BYTES) words.now }
    ensures { IfOk result (λ arguments. (given : Given) → given_by (map string_bytes words.now) ≡ Some given
        → map word_meant arguments.items ≡ given.arguments) }
{
    let mut arguments = Vec::new(alloc);
    let mut turn = NextWord::Any;
    let mut place = 1u32;
    for word in words {
        let text = word.as_str();
        push_argument(&mut arguments, is_argument(turn, text), place, text)?;
        turn = turn_after(turn, text);
        place += 1;
    }
    Ok(arguments)
}
