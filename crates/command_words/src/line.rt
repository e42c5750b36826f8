ghost use Rattle.std.specs.Prelude.{◌≡◌, List, ℕ, None, Some, codes, map, string_bytes, MatchOption, IfOk};
ghost use Rattle.clap.specs.Matches.{found_of};
ghost use Rattle.clap.specs.Walk.{rows_of};
ghost use Rattle.clap.specs.Simple.{app_of};
ghost use Rattle.run_definitions.specs.Arguments.{Given, given_by};
ghost use Rattle.command_words.specs.ClapLine.{line_app, values_of_id};

use clap::error::ErrorKind;
use clap::{Arg, ArgAction, ArgMatches, Command};
use phoneme::Memory;
use std::alloc::Global;

/// The words after a command's name as `clap` reads them: an option `--in` with a value, and arguments. There is no flag for
/// help or for a version.
fn command_line<'a>(alloc: Global) -> Result<Command<'a>, Memory>
    ensures { IfOk result (λ command. app_of command ≡ line_app) }
{
    let value = Arg::new(alloc, "in").long("in").action(ArgAction::Append);
    let argument = Arg::new(alloc, "argument").action(ArgAction::Append);
    let bare = Command::new(alloc, "yuzudeck")
        .no_binary_name(true)
        .disable_help_flag(true)
        .disable_version_flag(true);
    Ok(bare.arg(value)?.arg(argument)?)
}

/// What `clap` finds in the words after a command's name; `None` where it refuses them.
pub(crate) fn matches_of(alloc: Global, words: &[String]) -> Result<Option<ArgMatches<'_>>, Memory>
    ensures { IfOk result (λ read. MatchOption read (given_by (map string_bytes words.now) ≡ None)
        (λ matches. (given : Given) × (given_by (map string_bytes words.now) ≡ Some given)
        × (values_of_id (codes "in") (rows_of (found_of matches)) ≡ given.values))) }
{
    match command_line(alloc)?.try_get_matches_from(words) {
        Ok(matches) => Ok(Some(matches)),
        Err(error) => match error.kind() {
            ErrorKind::OutOfMemory => Err(Memory),
            _ => Ok(None),
        },
    }
}

/// The values of `--in` that `clap` found, in their order.
pub(crate) fn values_in<'a>(alloc: Global, matches: &ArgMatches<'a>) -> Result<Vec<&'a str>, Memory>
    ensures { IfOk result (λ values. map (λ value. value.now) values.items ≡ values_of_id (codes "in") (rows_of (found_of matches.now))) }
{
    match matches.get_raw("in") {
        Some(values) => Ok(Vec::from_slice(alloc, values)?),
        None => Ok(Vec::new(alloc)),
    }
}
