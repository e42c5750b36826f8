ghost use Rattle.std.specs.Prelude.{◌≡◌, ◌-◌, ◌<◌, ◌≤◌, ◌^◌, length, map, string_bytes, option_map, All, IfOk};
ghost use Rattle.run_definitions.specs.declared.limits.TheConstants.{MOST_WORD_BYTES};
ghost use Rattle.run_definitions.specs.Arguments.{given_by};
ghost use Rattle.command_words.specs.Meant.{given_meant};

use super::arguments::arguments_of;
use super::line::{matches_of, values_in};
use super::placed_word::PlacedWord;
use phoneme::Memory;
use std::alloc::Global;

/// What words give: the values of `--in`, and the arguments with their places.
#[derive(Drop)]
pub(crate) struct Given<'a> {
    pub values: Vec<&'a str>,
    pub arguments: Vec<PlacedWord<'a>>,
}

/// What the words after a command's name give; the first of them has the place 1. `None` where words may not stand like this.
pub(crate) fn given_of(alloc: Global, words: &[String]) -> Result<Option<Given<'_>>, Memory>
    requires count { length words.now < 2 ^ 32 - 1 }
    requires within_limit { All (λ word. length (string_bytes word) ≤ MOST_WORD_BYTES) words.now }
    ensures { IfOk result (λ given. option_map given_meant given ≡ given_by (map string_bytes words.now)) }
{
    match matches_of(alloc, words)? {
        Some(matches) => Ok(Some(Given {
            values: values_in(alloc, &matches)?,
            arguments: arguments_of(alloc, words)?,
        })),
        None => Ok(None),
    }
}
