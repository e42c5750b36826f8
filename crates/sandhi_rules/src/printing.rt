ghost use Rattle.std.specs.Prelude.{◌≡◌, IfOk, string_bytes};
ghost use Rattle.lexicon_definitions.specs.Rules.{printed_rule};

use super::Rule;
use latin_schemes::print_slp1;
use phoneme::Memory;
use std::alloc::Global;

/// A rule's notation `u|v>w`, its words in SLP1. Phases are not told. The notation is that of Huet 2005, without brackets.
pub fn print_rule(alloc: Global, rule: &Rule) -> Result<String, Memory>
    ensures ok { IfOk result (λ text. string_bytes text ≡ printed_rule rule.now) }
{
    let mut text = print_slp1(alloc, &rule.u)?;
    text.push_str("|")?;
    text.push_str(print_slp1(alloc, &rule.v)?.as_str())?;
    text.push_str(">")?;
    text.push_str(print_slp1(alloc, &rule.w)?.as_str())?;
    Ok(text)
}
