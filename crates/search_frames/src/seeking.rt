ghost use Rattle.std.specs.Prelude.{◌≡◌, ◌+◌, ◌<◌, ◌≤◌, ◌↔◌, false, length, Contains, IsTrue};
ghost use Rattle.std.specs.Bool.{OnTrue, OnFalse};
ghost use Rattle.annotated_trie.specs.Choices.{choices_with};
ghost use Rattle.annotated_trie.specs.Searched.{IsSearchedLexicon};
ghost use Rattle.derivation.specs.Steps.{key_meant};
ghost use Rattle.search_frames.specs.declared.frame.TheConstants.{NODES_OF_FRAME};
ghost use Rattle.search_frames.specs.Configurations.{IsPossible};
ghost use Rattle.search_frames.specs.Frames.{IsPlaced, IsConfigurationIn, ChangesFrom, IsAtKey, here_of, numbered_of};
ghost use Rattle.search_frames.specs.Tests.{IsAlwaysRefused};
ghost use Rattle.search_frames.specs.Walks.{IsNodeAt};

use super::frame_turns::stand_at;
use super::walking::walk_place;
use super::{Configuration, Resumption};
use annotated_trie::Lexicon;
use derivation::Key;
use lexicon_definitions::MOST_FORM_LETTERS;
use outside::Steps;
use phoneme::{Letter, Line};
use shared_trie::Node;

/// Whether the rule is a choice at the node, and its `w` begins with the letter.
fn has_choice(lexicon: &Lexicon, node: Node, letter: Letter, rule: u32) -> bool
    requires searched { IsSearchedLexicon lexicon.now }
    requires node { node < length lexicon.now.tries.trie.rows }
    ensures { IsTrue result ↔ Contains (choices_with lexicon.now.tries node letter) rule }
{
    let mut steps = Steps::<()>::new();
    lexicon
        .tries()
        .choices_with(node, letter, &mut steps)
        .binary_search(&rule)
        .is_ok()
}

/// Whether a form ends after the node, to which the letters of the key lead, by the change of the key, and the rule's `w` begins with the
/// next letter of the line.
fn has_change(lexicon: &Lexicon, line: &Line, place: &Configuration, key: Key, node: Node) -> bool
    requires searched { IsSearchedLexicon lexicon.now }
    requires phase { key.phase < length lexicon.now.lexicon.rules.names }
    requires letters { place.now.at + key.taken ≤ length line.now.letters }
    requires node { IsNodeAt lexicon.now line.now (numbered_of lexicon.now place.now) key.phase key.taken node }
    ensures possible { IsTrue result → IsPossible lexicon.now line.now (numbered_of lexicon.now place.now) (key_meant key) }
    ensures refused { result ≡ false → IsAlwaysRefused lexicon.now line.now (numbered_of lexicon.now place.now) (key_meant key) }
{
    if key.rule == 0 {
        return lexicon.tries().store().accepts(node);
    }
    let end = place.at as usize + key.taken as usize;
    match line.letters.as_slice().get(end) {
        None => false,
        Some(letter) => has_choice(lexicon, node, *letter, key.rule),
    }
}

/// Whether the key is possible at the configuration, and the `w` of its rule begins with the next letter of the line. `nodes` is room for
/// the nodes on the way along a form.
fn has_key(
    lexicon: &Lexicon,
    line: &Line,
    place: &Configuration,
    key: Key,
    nodes: &mut Vec<Node>,
) -> bool
    requires place { IsConfigurationIn lexicon.now line.now place.now }
    requires room { NODES_OF_FRAME ≤ length nodes.old.items }
    ensures possible { IsTrue result → IsPossible lexicon.now line.now (numbered_of lexicon.now place.now) (key_meant key) }
    ensures refused { result ≡ false → IsAlwaysRefused lexicon.now line.now (numbered_of lexicon.now place.now) (key_meant key) }
    ensures room { length nodes.new.items ≡ length nodes.old.items }
{
    if key.phase as usize >= lexicon.rules().phases().len() {
        return false;
    }
    if key.taken as usize > MOST_FORM_LETTERS {
        return false;
    }
    let mut steps = Steps::<()>::new();
    let walked = walk_place(lexicon, line, place, key, nodes, &mut steps);
    if key.taken >= walked {
        return false;
    }
    has_change(lexicon, line, place, key, nodes[key.taken as usize])
}

/// Brings the frame at the level, counted from 0, to the key. False where the key neither leads on nor ends the line there, whatever the
/// reader chooses.
pub fn seek(lexicon: &Lexicon, line: &Line, stack: &mut Resumption, level: usize, key: Key) -> bool
    requires placed { IsPlaced lexicon.now line.now stack.old level }
    ensures found { OnTrue result (IsAtKey lexicon.now line.now level (record { phase = key.phase; taken = key.taken; rule = key.rule }) stack.old stack.new) }
    ensures refused { OnFalse result (IsAlwaysRefused lexicon.now line.now (here_of lexicon.now stack.old level) (record { phase = key.phase; taken = key.taken; rule = key.rule })) }
    ensures changes { ChangesFrom level stack.old stack.new }
{
    let place = Configuration::of_frame(stack, level);
    if !has_key(lexicon, line, &place, key, &mut stack.nodes) {
        return false;
    }
    stand_at(stack, level, key);
    true
}
