ghost use Rattle.std.specs.Prelude.{◌≡◌, ◌+◌, ◌*◌, ◌<◌, ◌≤◌, ◌↔◌, ℕ, length, slice_index, Contains, MatchOption};
ghost use Rattle.std.specs.Ordering.{nat_cmp};
ghost use Rattle.std.specs.List.Sorted.{IsStrictlySortedBy};
ghost use Rattle.text_definitions.specs.Lines.{IsLine};
ghost use Rattle.lexicon_definitions.specs.Leads.{leads_of};
ghost use Rattle.annotated_trie.specs.Choices.{choices_of};
ghost use Rattle.annotated_trie.specs.Searched.{IsSearchedLexicon};
ghost use Rattle.derivation.specs.Guides.{IsEntranceOver};
ghost use Rattle.derivation.specs.Steps.{key_meant};
ghost use Rattle.answer_paths.specs.Fronts.{supplied};
ghost use Rattle.search_frames.specs.declared.frame.TheConstants.{NODES_OF_FRAME};
ghost use Rattle.search_frames.specs.Frames.{IsConfigurationIn, numbered_of};
ghost use Rattle.lexicon_definitions.specs.declared.limits.TheConstants.{MOST_FORM_LETTERS};
ghost use Rattle.search_frames.specs.Guided.{IsGuideOf};
ghost use Rattle.search_frames.specs.Reached.{IsReached};
ghost use Rattle.search_frames.specs.Costs.{HasAtMostRules, steps_of_node, steps_of_phase, steps_of_frame};
ghost use Rattle.search_frames.specs.Walks.{IsNodeAt, IsNodeAmong};
ghost use Rattle.search_frames.specs.FirstKeys.{HasNoneOf, IsFirstOf, IsUnchangedFrom, IsRuleFrom, IsThisRuleFrom, IsAtNodeFrom, IsInPhaseFrom, IsShorterFrom, IsFrom};
ghost use Rattle.segmentation_definitions.specs.Listings.{Key as DefinedKey};

use super::Configuration;
use super::guiding::SearchGuide;
use super::judging::judge;
use super::search_space::SearchSpace;
use super::testing::Test;
use super::walking::{supplied_letters, walk_place};
use super::way_turns::turn_among_ways;
use derivation::{Key, Step};
use lexicon_definitions::MOST_FORM_LETTERS;
use outside::Steps;
use phoneme::Letter;
use shared_trie::Node;

/// The step at the place with this key.
fn step_with<D: SearchGuide>(space: &SearchSpace<'_, D>, place: &Configuration, key: Key) -> Step
    requires { IsEntranceOver (leads_of space.now.lexicon.now.lexicon.rules.rules) place.now.entrance }
    ensures { result ≡ record { phase = key.phase; rule = key.rule; at = place.now.at; lead = length (supplied (numbered_of space.now.lexicon.now place.now).entrance); taken = key.taken } }
{
    Step {
        phase: key.phase,
        rule: key.rule,
        at: place.at,
        lead: supplied_letters(space.lexicon.rules(), place.entrance).len() as u32,
        taken: key.taken,
    }
}

/// What the key does that takes as many letters as `from` and has no change, if it does not come before `from`.
fn turn_unchanged<D: SearchGuide, L>(
    space: &SearchSpace<'_, D>,
    place: &Configuration,
    node: Node,
    from: Key,
    steps: &mut Steps<L>,
) -> Option<(Key, Test)>
    requires searched { IsSearchedLexicon space.now.lexicon.now }
    requires line { IsLine space.now.line.now }
    requires guide { IsGuideOf space.now.lexicon.now space.now.line.now space.now.choices.now (D.covers space.now.guide.now) (D.says space.now.guide.now) }
    requires place { IsConfigurationIn space.now.lexicon.now space.now.line.now place.now }
    requires reached { IsReached space.now.lexicon.now space.now.line.now space.now.choices.now (numbered_of space.now.lexicon.now place.now) }
    requires phase { from.phase < length space.now.lexicon.now.lexicon.rules.names }
    requires letters { place.now.at + from.taken ≤ length space.now.line.now.letters }
    requires node { IsNodeAt space.now.lexicon.now space.now.line.now (numbered_of space.now.lexicon.now place.now) from.phase from.taken node }
    ensures first { MatchOption result (HasNoneOf space.now.lexicon.now space.now.line.now space.now.choices.now (numbered_of space.now.lexicon.now place.now) (IsUnchangedFrom (key_meant from)))
        (λ found. IsFirstOf space.now.lexicon.now space.now.line.now space.now.choices.now (D.says space.now.guide.now) (numbered_of space.now.lexicon.now place.now) (IsUnchangedFrom (key_meant from)) (key_meant found.0) found.1) }
    ensures steps { steps.new ≤ steps.old + 1 }
{
    if from.rule > 0 || !space.lexicon.tries().store().accepts(node) {
        return None;
    }
    match judge(space, place, &step_with(space, place, from), steps) {
        Test::Refused => None,
        test => Some((from, test)),
    }
}

/// What the key with this rule does that takes as many letters as `from`. The rule is a choice at the node, and does not come before that
/// of `from`.
fn turn_by_rule<D: SearchGuide, L>(
    space: &SearchSpace<'_, D>,
    place: &Configuration,
    node: Node,
    from: Key,
    rule: u32,
    steps: &mut Steps<L>,
) -> Option<(Key, Test)>
    requires searched { IsSearchedLexicon space.now.lexicon.now }
    requires line { IsLine space.now.line.now }
    requires guide { IsGuideOf space.now.lexicon.now space.now.line.now space.now.choices.now (D.covers space.now.guide.now) (D.says space.now.guide.now) }
    requires place { IsConfigurationIn space.now.lexicon.now space.now.line.now place.now }
    requires reached { IsReached space.now.lexicon.now space.now.line.now space.now.choices.now (numbered_of space.now.lexicon.now place.now) }
    requires phase { from.phase < length space.now.lexicon.now.lexicon.rules.names }
    requires letters { place.now.at + from.taken ≤ length space.now.line.now.letters }
    requires node { IsNodeAt space.now.lexicon.now space.now.line.now (numbered_of space.now.lexicon.now place.now) from.phase from.taken node }
    requires rule { Contains (choices_of space.now.lexicon.now.tries node) rule }
    requires order { from.rule ≤ rule }
    ensures first { MatchOption result (HasNoneOf space.now.lexicon.now space.now.line.now space.now.choices.now (numbered_of space.now.lexicon.now place.now) (IsThisRuleFrom (key_meant from) rule))
        (λ found. IsFirstOf space.now.lexicon.now space.now.line.now space.now.choices.now (D.says space.now.guide.now) (numbered_of space.now.lexicon.now place.now) (IsThisRuleFrom (key_meant from) rule) (key_meant found.0) found.1) }
    ensures steps { steps.new ≤ steps.old + 2 }
{
    steps.tick();
    let key = Key {
        phase: from.phase,
        taken: from.taken,
        rule,
    };
    match judge(space, place, &step_with(space, place, key), steps) {
        Test::Refused => None,
        test => Some((key, test)),
    }
}

/// The rules of the group, which rise, from this one on.
fn rules_from(group: &[u32], first: u32) -> &[u32]
    requires { IsStrictlySortedBy nat_cmp group.now }
    ensures left { (rule : ℕ) → Contains result.now rule ↔ (Contains group.now rule × (first ≤ rule)) }
    ensures rising { IsStrictlySortedBy nat_cmp result.now }
    ensures few { length result.now ≤ length group.now }
{
    let place = group.partition_point(|rule| *rule < first);
    &group[place..]
}

/// The first key with a rule that does not come before `from` and takes as many letters, and what it does. Only the rules whose `w` begins
/// with the next letter of the line are looked at, from that of `from` on.
fn turn_in_group<D: SearchGuide, L>(
    space: &SearchSpace<'_, D>,
    place: &Configuration,
    node: Node,
    from: Key,
    letter: Letter,
    steps: &mut Steps<L>,
) -> Option<(Key, Test)>
    requires searched { IsSearchedLexicon space.now.lexicon.now }
    requires line { IsLine space.now.line.now }
    requires guide { IsGuideOf space.now.lexicon.now space.now.line.now space.now.choices.now (D.covers space.now.guide.now) (D.says space.now.guide.now) }
    requires place { IsConfigurationIn space.now.lexicon.now space.now.line.now place.now }
    requires reached { IsReached space.now.lexicon.now space.now.line.now space.now.choices.now (numbered_of space.now.lexicon.now place.now) }
    requires phase { from.phase < length space.now.lexicon.now.lexicon.rules.names }
    requires letters { place.now.at + from.taken ≤ length space.now.line.now.letters }
    requires node { IsNodeAt space.now.lexicon.now space.now.line.now (numbered_of space.now.lexicon.now place.now) from.phase from.taken node }
    requires letter { letter ≡ slice_index space.now.line.now.letters (place.now.at + from.taken) }
    ensures first { MatchOption result (HasNoneOf space.now.lexicon.now space.now.line.now space.now.choices.now (numbered_of space.now.lexicon.now place.now) (IsRuleFrom (key_meant from)))
        (λ found. IsFirstOf space.now.lexicon.now space.now.line.now space.now.choices.now (D.says space.now.guide.now) (numbered_of space.now.lexicon.now place.now) (IsRuleFrom (key_meant from)) (key_meant found.0) found.1) }
    ensures steps { (most : ℕ) → HasAtMostRules space.now.lexicon.now.tries most → steps.new ≤ steps.old + (1 + 2 * most) }
{
    let group = space.lexicon.tries().choices_with(node, letter, steps);
    let rules = rules_from(group, from.rule);
    for rule in rules {
        match turn_by_rule(space, place, node, from, *rule, steps) {
            Some(found) => return Some(found),
            None => {}
        }
    }
    None
}

/// The first key with a rule that does not come before `from` and takes as many letters, and what it does.
fn turn_changed<D: SearchGuide, L>(
    space: &SearchSpace<'_, D>,
    place: &Configuration,
    node: Node,
    from: Key,
    steps: &mut Steps<L>,
) -> Option<(Key, Test)>
    requires searched { IsSearchedLexicon space.now.lexicon.now }
    requires line { IsLine space.now.line.now }
    requires guide { IsGuideOf space.now.lexicon.now space.now.line.now space.now.choices.now (D.covers space.now.guide.now) (D.says space.now.guide.now) }
    requires place { IsConfigurationIn space.now.lexicon.now space.now.line.now place.now }
    requires reached { IsReached space.now.lexicon.now space.now.line.now space.now.choices.now (numbered_of space.now.lexicon.now place.now) }
    requires phase { from.phase < length space.now.lexicon.now.lexicon.rules.names }
    requires letters { place.now.at + from.taken ≤ length space.now.line.now.letters }
    requires node { IsNodeAt space.now.lexicon.now space.now.line.now (numbered_of space.now.lexicon.now place.now) from.phase from.taken node }
    ensures first { MatchOption result (HasNoneOf space.now.lexicon.now space.now.line.now space.now.choices.now (numbered_of space.now.lexicon.now place.now) (IsRuleFrom (key_meant from)))
        (λ found. IsFirstOf space.now.lexicon.now space.now.line.now space.now.choices.now (D.says space.now.guide.now) (numbered_of space.now.lexicon.now place.now) (IsRuleFrom (key_meant from)) (key_meant found.0) found.1) }
    ensures steps { (most : ℕ) → HasAtMostRules space.now.lexicon.now.tries most → steps.new ≤ steps.old + (1 + 2 * most) }
{
    let line = space.line;
    let end = place.at as usize + from.taken as usize;
    match line.letters.as_slice().get(end) {
        None => None,
        Some(letter) => turn_in_group(space, place, node, from, *letter, steps),
    }
}

/// The first key that does not come before `from` and takes as many letters, which lead to the node, and what it does.
fn turn_at_node<D: SearchGuide, L>(
    space: &SearchSpace<'_, D>,
    place: &Configuration,
    node: Node,
    from: Key,
    steps: &mut Steps<L>,
) -> Option<(Key, Test)>
    requires searched { IsSearchedLexicon space.now.lexicon.now }
    requires line { IsLine space.now.line.now }
    requires guide { IsGuideOf space.now.lexicon.now space.now.line.now space.now.choices.now (D.covers space.now.guide.now) (D.says space.now.guide.now) }
    requires place { IsConfigurationIn space.now.lexicon.now space.now.line.now place.now }
    requires reached { IsReached space.now.lexicon.now space.now.line.now space.now.choices.now (numbered_of space.now.lexicon.now place.now) }
    requires phase { from.phase < length space.now.lexicon.now.lexicon.rules.names }
    requires letters { place.now.at + from.taken ≤ length space.now.line.now.letters }
    requires node { IsNodeAt space.now.lexicon.now space.now.line.now (numbered_of space.now.lexicon.now place.now) from.phase from.taken node }
    ensures first { MatchOption result (HasNoneOf space.now.lexicon.now space.now.line.now space.now.choices.now (numbered_of space.now.lexicon.now place.now) (IsAtNodeFrom (key_meant from)))
        (λ found. IsFirstOf space.now.lexicon.now space.now.line.now space.now.choices.now (D.says space.now.guide.now) (numbered_of space.now.lexicon.now place.now) (IsAtNodeFrom (key_meant from)) (key_meant found.0) found.1) }
    ensures steps { (most : ℕ) → HasAtMostRules space.now.lexicon.now.tries most → steps.new ≤ steps.old + steps_of_node most }
{
    match turn_unchanged(space, place, node, from, steps) {
        Some(found) => Some(found),
        None => turn_changed(space, place, node, from, steps),
    }
}

/// The first key that takes so many letters and does not come before `from`, which takes no fewer.
fn first_with(from: Key, taken: u32) -> Key
    requires { taken ≤ from.taken }
    ensures phase { result.phase ≡ from.phase }
    ensures taken { result.taken ≡ taken }
    ensures from { (key : DefinedKey) → IsAtNodeFrom (key_meant result) key ↔ (IsInPhaseFrom (key_meant from) key × (key.taken ≡ taken)) }
{
    if taken == from.taken {
        return from;
    }
    Key {
        phase: from.phase,
        taken,
        rule: 0,
    }
}

/// The first key of the phase of `from` that does not come before it and takes fewer letters than there are nodes, and what it does.
/// `nodes` are those to which each number of letters leads.
fn turn_among_nodes<D: SearchGuide, L>(
    space: &SearchSpace<'_, D>,
    place: &Configuration,
    from: Key,
    nodes: &[Node],
    steps: &mut Steps<L>,
) -> Option<(Key, Test)>
    requires searched { IsSearchedLexicon space.now.lexicon.now }
    requires line { IsLine space.now.line.now }
    requires guide { IsGuideOf space.now.lexicon.now space.now.line.now space.now.choices.now (D.covers space.now.guide.now) (D.says space.now.guide.now) }
    requires place { IsConfigurationIn space.now.lexicon.now space.now.line.now place.now }
    requires reached { IsReached space.now.lexicon.now space.now.line.now space.now.choices.now (numbered_of space.now.lexicon.now place.now) }
    requires phase { from.phase < length space.now.lexicon.now.lexicon.rules.names }
    requires few { length nodes.now ≤ from.taken + 1 }
    requires nodes { (taken : ℕ) → taken < length nodes.now → IsNodeAmong space.now.lexicon.now space.now.line.now (numbered_of space.now.lexicon.now place.now) from.phase nodes.now taken }
    ensures first { MatchOption result (HasNoneOf space.now.lexicon.now space.now.line.now space.now.choices.now (numbered_of space.now.lexicon.now place.now) (IsShorterFrom (key_meant from) (length nodes.now)))
        (λ found. IsFirstOf space.now.lexicon.now space.now.line.now space.now.choices.now (D.says space.now.guide.now) (numbered_of space.now.lexicon.now place.now) (IsShorterFrom (key_meant from) (length nodes.now)) (key_meant found.0) found.1) }
    ensures steps { (most : ℕ) → HasAtMostRules space.now.lexicon.now.tries most → steps.new ≤ steps.old + length nodes.now * steps_of_node most }
{
    for taken in (0..nodes.len()).rev() {
        let first = first_with(from, taken as u32);
        match turn_at_node(space, place, nodes[taken], first, steps) {
            Some(found) => return Some(found),
            None => {}
        }
    }
    None
}

/// The first key of the phase of `from` that does not come before it, and what it does. `nodes` is room for the nodes on the way along
/// a form. A phase to which the place's state does not lead is not walked.
fn turn_in_phase<D: SearchGuide, L>(
    space: &SearchSpace<'_, D>,
    place: &Configuration,
    from: Key,
    nodes: &mut Vec<Node>,
    steps: &mut Steps<L>,
) -> Option<(Key, Test)>
    requires searched { IsSearchedLexicon space.now.lexicon.now }
    requires line { IsLine space.now.line.now }
    requires guide { IsGuideOf space.now.lexicon.now space.now.line.now space.now.choices.now (D.covers space.now.guide.now) (D.says space.now.guide.now) }
    requires place { IsConfigurationIn space.now.lexicon.now space.now.line.now place.now }
    requires reached { IsReached space.now.lexicon.now space.now.line.now space.now.choices.now (numbered_of space.now.lexicon.now place.now) }
    requires phase { from.phase < length space.now.lexicon.now.lexicon.rules.names }
    requires taken { from.taken ≤ MOST_FORM_LETTERS }
    requires room { NODES_OF_FRAME ≤ length nodes.old.items }
    ensures first { MatchOption result (HasNoneOf space.now.lexicon.now space.now.line.now space.now.choices.now (numbered_of space.now.lexicon.now place.now) (IsInPhaseFrom (key_meant from)))
        (λ found. IsFirstOf space.now.lexicon.now space.now.line.now space.now.choices.now (D.says space.now.guide.now) (numbered_of space.now.lexicon.now place.now) (IsInPhaseFrom (key_meant from)) (key_meant found.0) found.1) }
    ensures room { length nodes.new.items ≡ length nodes.old.items }
    ensures steps { (most : ℕ) → HasAtMostRules space.now.lexicon.now.tries most → steps.new < steps.old + steps_of_phase most }
{
    let automaton = space.lexicon.automaton();
    if !automaton.live(automaton.step(place.state, from.phase)) {
        steps.tick();
        return None;
    }
    let walked = walk_place(space.lexicon, space.line, place, from, nodes, steps);
    turn_among_nodes(space, place, from, &nodes[..walked as usize], steps)
}

/// The first key of the phase, counted from 0, that does not come before `from`, which has no later phase.
fn first_in(from: Key, phase: u32) -> Key
    requires order { from.phase ≤ phase }
    requires taken { from.taken ≤ MOST_FORM_LETTERS }
    ensures phase { result.phase ≡ phase }
    ensures taken { result.taken ≤ MOST_FORM_LETTERS }
    ensures from { (key : DefinedKey) → key.taken ≤ MOST_FORM_LETTERS → key.phase ≡ phase → IsFrom (key_meant from) key ↔ IsInPhaseFrom (key_meant result) key }
{
    if phase == from.phase {
        return from;
    }
    Key {
        phase,
        taken: MOST_FORM_LETTERS as u32,
        rule: 0,
    }
}

/// The first key that does not come before `from`, and what it does. `nodes` is room for the nodes on the way along a form.
#[inline(never)]
fn turn_by_walking<D: SearchGuide, L>(
    space: &SearchSpace<'_, D>,
    place: &Configuration,
    from: Key,
    nodes: &mut Vec<Node>,
    steps: &mut Steps<L>,
) -> Option<(Key, Test)>
    requires searched { IsSearchedLexicon space.now.lexicon.now }
    requires line { IsLine space.now.line.now }
    requires guide { IsGuideOf space.now.lexicon.now space.now.line.now space.now.choices.now (D.covers space.now.guide.now) (D.says space.now.guide.now) }
    requires place { IsConfigurationIn space.now.lexicon.now space.now.line.now place.now }
    requires reached { IsReached space.now.lexicon.now space.now.line.now space.now.choices.now (numbered_of space.now.lexicon.now place.now) }
    requires phase { from.phase < length space.now.lexicon.now.lexicon.rules.names }
    requires taken { from.taken ≤ MOST_FORM_LETTERS }
    requires room { NODES_OF_FRAME ≤ length nodes.old.items }
    ensures first { MatchOption result (HasNoneOf space.now.lexicon.now space.now.line.now space.now.choices.now (numbered_of space.now.lexicon.now place.now) (IsFrom (key_meant from)))
        (λ found. IsFirstOf space.now.lexicon.now space.now.line.now space.now.choices.now (D.says space.now.guide.now) (numbered_of space.now.lexicon.now place.now) (IsFrom (key_meant from)) (key_meant found.0) found.1) }
    ensures room { length nodes.new.items ≡ length nodes.old.items }
    ensures steps { (most : ℕ) → HasAtMostRules space.now.lexicon.now.tries most → steps.new < steps.old + steps_of_frame space.now.lexicon.now most }
{
    for phase in from.phase..space.lexicon.rules().phases().len() as u32 {
        let first = first_in(from, phase);
        match turn_in_phase(space, place, first, nodes, steps) {
            Some(found) => return Some(found),
            None => {}
        }
    }
    None
}

/// The first key that does not come before `from`, and what it does: among the ways that the guide keeps from the place, or else along
/// the tries. `nodes` is room for the nodes on the way along a form.
#[inline(always)]
pub(crate) fn turn_from<D: SearchGuide, L>(
    space: &SearchSpace<'_, D>,
    place: &Configuration,
    from: Key,
    nodes: &mut Vec<Node>,
    steps: &mut Steps<L>,
) -> Option<(Key, Test)>
    requires searched { IsSearchedLexicon space.now.lexicon.now }
    requires line { IsLine space.now.line.now }
    requires guide { IsGuideOf space.now.lexicon.now space.now.line.now space.now.choices.now (D.covers space.now.guide.now) (D.says space.now.guide.now) }
    requires known { D.known space.now.guide.now space.now.lexicon.now space.now.line.now space.now.choices.now }
    requires place { IsConfigurationIn space.now.lexicon.now space.now.line.now place.now }
    requires reached { IsReached space.now.lexicon.now space.now.line.now space.now.choices.now (numbered_of space.now.lexicon.now place.now) }
    requires phase { from.phase < length space.now.lexicon.now.lexicon.rules.names }
    requires taken { from.taken ≤ MOST_FORM_LETTERS }
    requires room { NODES_OF_FRAME ≤ length nodes.old.items }
    ensures first { MatchOption result (HasNoneOf space.now.lexicon.now space.now.line.now space.now.choices.now (numbered_of space.now.lexicon.now place.now) (IsFrom (key_meant from)))
        (λ found. IsFirstOf space.now.lexicon.now space.now.line.now space.now.choices.now (D.says space.now.guide.now) (numbered_of space.now.lexicon.now place.now) (IsFrom (key_meant from)) (key_meant found.0) found.1) }
    ensures room { length nodes.new.items ≡ length nodes.old.items }
    ensures steps { (most : ℕ) → HasAtMostRules space.now.lexicon.now.tries most → steps.new ≤ steps.old + steps_of_frame space.now.lexicon.now most }
{
    let kept = space
        .guide
        .ways(space.lexicon, space.line, space.choices, place, steps);
    match kept {
        Some(ways) => turn_among_ways(space, place, from, ways, steps),
        None => turn_by_walking(space, place, from, nodes, steps),
    }
}
