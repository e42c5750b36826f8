ghost use Rattle.std.specs.Prelude.{◌≡◌, ◌+◌, ◌*◌, ◌<◌, ◌≤◌, ◌^◌, length, All, IfOk};
ghost use Rattle.lexicon_definitions.specs.Limits.{IsShortRule};
ghost use Rattle.annotated_trie.specs.Suffixes.{AddsSuffixes, AreNumbers, StandsFor};

use indexmap::IndexSet;
use lexicon_definitions::MOST_RULE_LETTERS;
use phoneme::{Letter, Memory};
use sandhi_rules::Rule;
use std::alloc::Global;

/// The number of the word among suffixes, each of which is its first letter and the number of what follows. It and its own
/// suffixes are added where they are not there.
pub(crate) fn number_suffix(
    suffixes: &mut IndexSet<(Letter, u32)>,
    word: &[Letter],
) -> Result<u32, Memory>
    requires room { length suffixes.old.keys + length word.now < 2 ^ 32 }
    ensures grown { AddsSuffixes (length word.now) suffixes.old.keys suffixes.new.keys }
    ensures low { IfOk result (λ number. number ≤ length suffixes.new.keys) }
    ensures ok { IfOk result (λ number. StandsFor suffixes.new.keys number word.now) }
{
    let [letter, rest @ ..] = word else {
        return Ok(0);
    };
    let after = number_suffix(suffixes, rest)?;
    let Ok((place, _is_new)) = suffixes.insert_full((*letter, after)) else {
        return Err(Memory);
    };
    Ok(place as u32 + 1)
}

/// The number of each rule's `u` among the suffixes, to which it is added.
pub(crate) fn number_rules(
    alloc: Global,
    suffixes: &mut IndexSet<(Letter, u32)>,
    rules: &[Rule],
) -> Result<Vec<u32>, Memory>
    requires short { All IsShortRule rules.now }
    requires room { length suffixes.old.keys + MOST_RULE_LETTERS * length rules.now < 2 ^ 32 }
    ensures few { length suffixes.new.keys ≤ length suffixes.old.keys + MOST_RULE_LETTERS * length rules.now }
    ensures ok { IfOk result (λ numbers. AreNumbers suffixes.new.keys rules.now numbers.items) }
{
    let mut numbers = Vec::with_capacity(alloc, rules.len())?;
    for rule in rules {
        let number = number_suffix(suffixes, rule.u.as_slice())?;
        numbers.push(number)?;
    }
    Ok(numbers)
}
