ghost use Rattle.std.specs.Prelude.{◌≡◌, ◌≤◌, ◌<◌, ℕ, List, length, map, IfOk, MatchOption};
ghost use Rattle.lexicon_definitions.specs.declared.limits.TheConstants.{MOST_PHASES};
ghost use Rattle.lexicon_definitions.specs.Lexicons.{RuleSet as RuleSetValue};
ghost use Rattle.lexicon_definitions.specs.Tries.{IsTrieOf};
ghost use Rattle.lexicon_text_definitions.specs.LexiconTexts.{text_of_lines};
ghost use Rattle.lexicon_text_definitions.specs.TextsOf.{HasText, IsTextOf};
ghost use Rattle.trie_text_definitions.specs.TrieForms.{phases_of};
ghost use Rattle.trie_text_definitions.specs.VersionTexts.{IsNewestText};
ghost use Rattle.shared_trie.specs.CanonicalNodes.{IsCanonical, number_in};
ghost use Rattle.form_file.specs.Contents.{lexicon_of};
ghost use Rattle.lexicon_file.specs.Writing.{HasNewestText, IsHead, tail_lines};

use crate::writing_forms::push_all_forms;
use crate::writing_front::push_front;
use crate::writing_nodes::{nodes_len, push_nodes, push_roots};
use crate::writing_rules::{has_limited, push_rules};
use form_file::Contents;
use phoneme::Memory;
use sandhi_rules::RuleSet;
use shared_trie::{NodeNumbers, Store};
use std::alloc::Global;

/// The lines before the nodes.
fn head_of(alloc: Global, rules: &RuleSet) -> Result<Vec<u8>, Memory>
    requires { length rules.now.names ≤ MOST_PHASES }
    ensures ok { IfOk result (λ bytes. IsHead rules.now bytes.items) }
{
    let names = rules.phases();
    let is_limited = has_limited(rules.rules(), names.len());
    let head = if is_limited { b"slx 3\n" } else { b"slx 2\n" };
    let mut out = Vec::from_slice(alloc, head)?;
    push_front(&mut out, rules)?;
    push_rules(&mut out, names, is_limited, rules.rules())?;
    Ok(out)
}

/// The lines after the nodes.
fn tail_of(
    alloc: Global,
    rules: &RuleSet,
    store: &Store,
    numbers: &NodeNumbers,
) -> Result<Vec<u8>, Memory>
    requires few { length rules.now.names ≤ MOST_PHASES }
    requires canonical { IsCanonical store.now numbers.now.nodes }
    requires count { length store.now.roots ≡ length rules.now.names }
    ensures ok { IfOk result (λ bytes. bytes.items ≡ text_of_lines (tail_lines rules.now (map (number_in numbers.now.nodes) store.now.roots))) }
{
    let mut out = Vec::new(alloc);
    push_roots(&mut out, rules.phases(), store, numbers)?;
    out.extend_from_slice(b"end\n")?;
    Ok(out)
}

/// The newest text of a lexicon (own format): that of version 3 where a rule is limited, and else that of version 2.
pub fn write(alloc: Global, contents: &Contents) -> Result<Vec<u8>, Memory>
    requires trie { IsTrieOf contents.now.store (phases_of contents.now.store) }
    requires text { HasNewestText (lexicon_of contents.now) }
    ensures ok { IfOk result (λ bytes. IsNewestText (lexicon_of contents.now) bytes.items) }
{
    let numbers = contents.store.numbered(alloc)?;
    let mut out = head_of(alloc, &contents.rules)?;
    push_nodes(alloc, &mut out, &contents.store, &numbers)?;
    let tail = tail_of(alloc, &contents.rules, &contents.store, &numbers)?;
    out.extend_from_slice(tail.as_slice())?;
    Ok(out)
}

/// The newest text of a lexicon, or `None` where it has more bytes than these. Its length is known before it is made, so that its room
/// is taken once.
pub fn write_within(
    alloc: Global,
    contents: &Contents,
    most: usize,
) -> Result<Option<Vec<u8>>, Memory>
    requires trie { IsTrieOf contents.now.store (phases_of contents.now.store) }
    requires text { HasNewestText (lexicon_of contents.now) }
    ensures ok { IfOk result (λ written. MatchOption written
        ((bytes : List ℕ) × IsNewestText (lexicon_of contents.now) bytes × (most < length bytes))
        (λ bytes. IsNewestText (lexicon_of contents.now) bytes.items × (length bytes.items ≤ most))) }
{
    let numbers = contents.store.numbered(alloc)?;
    let mut out = head_of(alloc, &contents.rules)?;
    let tail = tail_of(alloc, &contents.rules, &contents.store, &numbers)?;
    if out.len() > most || tail.len() > most - out.len() {
        return Ok(None);
    }
    let room = most - out.len() - tail.len();
    let Some(len) = nodes_len(alloc, &contents.store, &numbers, room)? else {
        return Ok(None);
    };
    out.reserve(len)?;
    push_nodes(alloc, &mut out, &contents.store, &numbers)?;
    out.extend_from_slice(tail.as_slice())?;
    Ok(Some(out))
}

/// The text of version 1 of a lexicon (own format), of which no rule is limited.
pub fn write_v1(alloc: Global, contents: &Contents) -> Result<Vec<u8>, Memory>
    requires trie { IsTrieOf contents.now.store (phases_of contents.now.store) }
    requires text { HasText (lexicon_of contents.now) }
    ensures ok { IfOk result (λ bytes. IsTextOf (lexicon_of contents.now) bytes.items) }
{
    let rules = &contents.rules;
    let names = rules.phases();
    let mut out = Vec::from_slice(alloc, b"slx 1\n")?;
    push_front(&mut out, rules)?;
    push_rules(&mut out, names, false, rules.rules())?;
    push_all_forms(alloc, &mut out, names, &contents.store)?;
    out.extend_from_slice(b"end\n")?;
    Ok(out)
}
