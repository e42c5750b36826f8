ghost use Rattle.std.specs.Prelude.{◌≡◌, ◌+◌, ◌*◌, ◌<◌, ◌≤◌, ℕ, length, take, drop, ◌++◌, reverse, All, IfOk, OnOk};
ghost use Rattle.std.specs.Bool.{OnTrue, OnFalse};
ghost use Rattle.std.specs.Ordering.{nat_cmp};
ghost use Rattle.std.specs.List.Sorted.{IsStrictlySortedBy};
ghost use Rattle.derivation.specs.Steps.{key_meant};
ghost use Rattle.search_frames.specs.declared.way.TheConstants.{MOST_WAYS};
ghost use Rattle.search_frames.specs.Ahead.{MayBegin};
ghost use Rattle.search_frames.specs.Frames.{numbered_of};
ghost use Rattle.search_frames.specs.Configurations.{IsPossible};
ghost use Rattle.search_frames.specs.Costs.{HasAtMostRules};
ghost use Rattle.search_frames.specs.LetterTests.{IsLetterTestOf};
ghost use Rattle.summary_chart.specs.Fronts.{IsFrontAt};
ghost use Rattle.summary_chart.specs.PlaceWays.{AppendsWays, AppendsFalling};
ghost use Rattle.summary_chart.specs.Sites.{IsSite, IsSiteAhead};
ghost use Rattle.summary_chart.specs.StateSets.{AreLeading};
ghost use Rattle.summary_chart.specs.Spreading.{IsLedByPhase, OnlyKey, IsByRule, IsAtFront, IsInPhase};
ghost use Rattle.summary_chart.specs.Summaries.{steps_of_front, steps_of_fronts, steps_of_items};

use super::leading_states::LeadingStates;
use super::site::{Front, Site, SiteAhead};
use super::sought::Sought;
use super::state_set::StateSet;
use super::walking::{first_front, longer_front};
use derivation::Key;
use outside::Steps;
use phoneme::Memory;
use search_frames::{Ahead, LetterTest, MOST_WAYS, Way, is_written, may_begin, rule_test};

/// Appends the way, whose key is possible at the place and whose test is what the key does there, if it leads on or ends the line and is
/// looked for; a step is counted where it does. The place's own state is not looked at. Refused only for want of memory.
fn push_tested<S: Sought, L>(
    site: Site<'_>,
    way: Way,
    sought: &S,
    ways: &mut Vec<Way>,
    steps: &mut Steps<L>,
) -> Result<(), Memory>
    requires site { IsSite site }
    requires known { S.known sought.now site }
    requires possible { IsPossible site.lexicon.now site.line.now (numbered_of site.lexicon.now site.place.now) (key_meant way.key) }
    requires exact { IsLetterTestOf site.lexicon.now site.line.now site.choices.now (numbered_of site.lexicon.now site.place.now) (key_meant way.key) way.test }
    ensures appends { let here = site.entry in OnOk result (AppendsFalling here.lexicon.now here.line.now here.choices.now (numbered_of here.lexicon.now here.place.now) (S.sought sought.now here) (OnlyKey (key_meant way.key)) ways.old.items ways.new.items) }
    ensures steps { steps.new ≤ steps.old + 1 }
    ensures counted { steps.old ≤ steps.new }
{
    if let LetterTest::Refused = way.test {
        return Ok(());
    }
    if !sought.seeks(site, &way) {
        return Ok(());
    }
    steps.tick();
    ways.push(way)?;
    Ok(())
}

/// Appends the key, which is possible at the place, if it leads on or ends the line there and is looked for. Refused only for want of
/// memory.
fn push_key<S: Sought, L>(
    here: SiteAhead<'_>,
    key: Key,
    sought: &S,
    ways: &mut Vec<Way>,
    steps: &mut Steps<L>,
) -> Result<(), Memory>
    requires here { IsSiteAhead here }
    requires known { S.known sought.now here.site }
    requires limit { here.site.place.now.at + key.taken ≤ here.ahead.limit }
    requires begins { MayBegin (numbered_of here.site.lexicon.now here.site.place.now).entrance key.phase }
    requires possible { IsPossible here.site.lexicon.now here.site.line.now (numbered_of here.site.lexicon.now here.site.place.now) (key_meant key) }
    ensures appends { let site = here.entry.site in OnOk result (AppendsFalling site.lexicon.now site.line.now site.choices.now (numbered_of site.lexicon.now site.place.now) (S.sought sought.now site) (OnlyKey (key_meant key)) ways.old.items ways.new.items) }
    ensures steps { steps.new ≤ steps.old + 1 }
    ensures counted { steps.old ≤ steps.new }
{
    let site = here.site;
    let test = here
        .ahead
        .test(site.lexicon, site.line, site.choices, site.place, key);
    push_tested(site, Way { key, test }, sought, ways, steps)
}

/// The same for a key with a rule. Most rules are refused for their letters, so that these are looked at before the place.
fn push_rule<S: Sought, L>(
    here: SiteAhead<'_>,
    key: Key,
    sought: &S,
    ways: &mut Vec<Way>,
    steps: &mut Steps<L>,
) -> Result<(), Memory>
    requires here { IsSiteAhead here }
    requires known { S.known sought.now here.site }
    requires limit { here.site.place.now.at + key.taken ≤ here.ahead.limit }
    requires begins { MayBegin (numbered_of here.site.lexicon.now here.site.place.now).entrance key.phase }
    requires possible { IsPossible here.site.lexicon.now here.site.line.now (numbered_of here.site.lexicon.now here.site.place.now) (key_meant key) }
    requires rule { 1 ≤ key.rule }
    ensures appends { let site = here.entry.site in OnOk result (AppendsFalling site.lexicon.now site.line.now site.choices.now (numbered_of site.lexicon.now site.place.now) (S.sought sought.now site) (OnlyKey (key_meant key)) ways.old.items ways.new.items) }
    ensures steps { steps.new ≤ steps.old + 1 }
    ensures counted { steps.old ≤ steps.new }
{
    let Site {
        lexicon,
        line,
        choices,
        place,
    } = here.site;
    let ahead = here.ahead;
    let end = place.at as usize + key.taken as usize;
    if !is_written(lexicon.rules(), line, end, key.rule) {
        return Ok(());
    }
    let test = rule_test(
        lexicon.rules(),
        line,
        end,
        ahead.may_end,
        key.phase,
        key.rule,
    );
    let test = ahead.test_where_it_fits(lexicon, line, choices, place, Way { key, test });
    push_tested(here.site, Way { key, test }, sought, ways, steps)
}

/// Appends those of the keys with these rules, the last rule first, each of which is possible after this front. Refused only for want of
/// memory.
fn push_rules<S: Sought, L>(
    here: SiteAhead<'_>,
    front: &Front,
    rules: &[u32],
    sought: &S,
    ways: &mut Vec<Way>,
    steps: &mut Steps<L>,
) -> Result<(), Memory>
    requires here { IsSiteAhead here }
    requires known { S.known sought.now here.site }
    requires limit { here.site.place.now.at + front.now.taken ≤ here.ahead.limit }
    requires begins { MayBegin (numbered_of here.site.lexicon.now here.site.place.now).entrance front.now.phase }
    requires possible { All (λ rule. IsPossible here.site.lexicon.now here.site.line.now (numbered_of here.site.lexicon.now here.site.place.now) (record { phase = front.now.phase; taken = front.now.taken; rule = rule })) rules.now }
    requires rules { All (λ rule. 0 < rule) rules.now }
    requires rising { IsStrictlySortedBy nat_cmp rules.now }
    ensures appends { let site = here.entry.site in OnOk result (AppendsFalling site.lexicon.now site.line.now site.choices.now (numbered_of site.lexicon.now site.place.now) (S.sought sought.now site) (IsByRule front.now.phase front.now.taken rules.now) ways.old.items ways.new.items) }
    ensures steps { steps.new ≤ steps.old + 2 * length rules.now }
    ensures counted { OnOk result (steps.old + length rules.now ≤ steps.new) }
{
    for place in (0..rules.len()).rev() {
        steps.tick();
        let rule = rules[place];
        let key = Key {
            phase: front.phase,
            taken: front.taken,
            rule,
        };
        push_rule(here, key, sought, ways, steps)?;
    }
    Ok(())
}

/// Appends the key with this front that has no change, if a form ends at its node. Refused only for want of memory.
fn push_unchanged<S: Sought, L>(
    here: SiteAhead<'_>,
    front: &Front,
    sought: &S,
    ways: &mut Vec<Way>,
    steps: &mut Steps<L>,
) -> Result<(), Memory>
    requires here { IsSiteAhead here }
    requires known { S.known sought.now here.site }
    requires limit { here.site.place.now.at + front.now.taken ≤ here.ahead.limit }
    requires begins { MayBegin (numbered_of here.site.lexicon.now here.site.place.now).entrance front.now.phase }
    requires front { IsFrontAt here.site.lexicon.now here.site.line.now (numbered_of here.site.lexicon.now here.site.place.now) front.now.phase front.now.taken front.now.node }
    ensures appends { let site = here.entry.site in OnOk result (AppendsFalling site.lexicon.now site.line.now site.choices.now (numbered_of site.lexicon.now site.place.now) (S.sought sought.now site) (OnlyKey (record { phase = front.now.phase; taken = front.now.taken; rule = 0 })) ways.old.items ways.new.items) }
    ensures steps { steps.new ≤ steps.old + 1 }
{
    if !here.site.lexicon.tries().store().accepts(front.node) {
        return Ok(());
    }
    let key = Key {
        phase: front.phase,
        taken: front.taken,
        rule: 0,
    };
    push_key(here, key, sought, ways, steps)
}

/// Appends those of the keys with this front that are looked for, in the falling order of their keys. False, and nothing is appended, where
/// its rules that begin with the next letter are more than `rules_left`, which tells how many may still be looked at; else they are taken
/// from these. Refused only for want of memory.
fn push_front<S: Sought, L>(
    here: SiteAhead<'_>,
    front: &Front,
    rules_left: &mut usize,
    sought: &S,
    ways: &mut Vec<Way>,
    steps: &mut Steps<L>,
) -> Result<bool, Memory>
    requires here { IsSiteAhead here }
    requires known { S.known sought.now here.site }
    requires limit { here.site.place.now.at + front.now.taken ≤ here.ahead.limit }
    requires begins { MayBegin (numbered_of here.site.lexicon.now here.site.place.now).entrance front.now.phase }
    requires front { IsFrontAt here.site.lexicon.now here.site.line.now (numbered_of here.site.lexicon.now here.site.place.now) front.now.phase front.now.taken front.now.node }
    ensures appends { let site = here.entry.site in IfOk result (λ all. OnTrue all (AppendsFalling site.lexicon.now site.line.now site.choices.now (numbered_of site.lexicon.now site.place.now) (S.sought sought.now site) (IsAtFront front.now.phase front.now.taken) ways.old.items ways.new.items)) }
    ensures stays { IfOk result (λ all. OnFalse all (ways.new.items ≡ ways.old.items)) }
    ensures steps { (most : ℕ) → HasAtMostRules here.entry.site.lexicon.now.tries most → steps.new ≤ steps.old + steps_of_front most }
{
    let Site {
        lexicon,
        line,
        place,
        ..
    } = here.site;
    steps.tick();
    let end = place.at as usize + front.taken as usize;
    let Some(letter) = line.letters.as_slice().get(end) else {
        push_unchanged(here, front, sought, ways, steps)?;
        return Ok(true);
    };
    if sought.passes_over(here, front, steps) {
        push_unchanged(here, front, sought, ways, steps)?;
        return Ok(true);
    }
    let rules = lexicon.tries().choices_with(front.node, *letter, steps);
    if rules.len() > *rules_left {
        return Ok(false);
    }
    *rules_left -= rules.len();
    push_rules(here, front, rules, sought, ways, steps)?;
    push_unchanged(here, front, sought, ways, steps)?;
    Ok(true)
}

/// Appends those of the keys of the phase that are looked for, in the falling order of their keys: the shortest front first, and each is
/// looked at as it is reached. False where these are not all of them, since more are appended than are kept from one place, of which the
/// ways begin at `first`, or more rules would be looked at than may be. Refused only for want of memory.
fn push_phase<S: Sought, L>(
    here: SiteAhead<'_>,
    phase: u32,
    first: usize,
    rules_left: &mut usize,
    sought: &S,
    ways: &mut Vec<Way>,
    steps: &mut Steps<L>,
) -> Result<bool, Memory>
    requires here { IsSiteAhead here }
    requires known { S.known sought.now here.site }
    requires begins { MayBegin (numbered_of here.site.lexicon.now here.site.place.now).entrance phase }
    requires phase { phase < length here.site.lexicon.now.lexicon.rules.names }
    requires first { first ≤ length ways.old.items }
    requires few { length ways.old.items ≤ first + MOST_WAYS }
    ensures kept { OnOk result (take (length ways.old.items) ways.new.items ≡ ways.old.items) }
    ensures appends { let site = here.entry.site in IfOk result (λ all. OnTrue all (AppendsFalling site.lexicon.now site.line.now site.choices.now (numbered_of site.lexicon.now site.place.now) (S.sought sought.now site) (IsInPhase phase) ways.old.items ways.new.items)) }
    ensures few { IfOk result (λ all. OnTrue all (length ways.new.items ≤ first + MOST_WAYS)) }
    ensures steps { (most : ℕ) → HasAtMostRules here.entry.site.lexicon.now.tries most → steps.new ≤ steps.old + steps_of_fronts most }
{
    let limit = here.ahead.limit;
    let mut next = first_front(here.site, phase, steps);
    while let Some(front) = next {
        if !push_front(here, &front, rules_left, sought, ways, steps)? {
            return Ok(false);
        }
        if ways.len() - first > MOST_WAYS {
            return Ok(false);
        }
        next = longer_front(here.site, &front, limit, steps);
    }
    Ok(true)
}

/// Turns round the ways from `first` on.
fn reverse_from(ways: &mut Vec<Way>, first: usize)
    requires first { first ≤ length ways.old.items }
    ensures items { ways.new.items ≡ take first ways.old.items ++ reverse (drop first ways.old.items) }
{
    ways.as_mut_slice()[first..].reverse();
}

/// Appends the ways from the place that are looked for, by phases to which some state of the set leads, in the order of their keys. False
/// where these are not all of them, since more are appended than are kept from one place, or more rules would be looked at than
/// `rules_left` tells, from which those that are looked at are taken. The place's own state is not looked at. Refused only for want of
/// memory. The trie is walked from short fronts to long ones, so that ways are found in the falling order, and turned round at the end.
pub(crate) fn push_ways<S: Sought, L>(
    site: Site<'_>,
    states: StateSet,
    leading: &LeadingStates,
    rules_left: &mut usize,
    sought: &S,
    ways: &mut Vec<Way>,
    steps: &mut Steps<L>,
) -> Result<bool, Memory>
    requires site { IsSite site }
    requires known { S.known sought.now site }
    requires leading { AreLeading site.lexicon.now.machine leading.now }
    ensures kept { OnOk result (take (length ways.old.items) ways.new.items ≡ ways.old.items) }
    ensures appends { let here = site.entry in IfOk result (λ all. OnTrue all (AppendsWays here.lexicon.now here.line.now here.choices.now (numbered_of here.lexicon.now here.place.now) (S.sought sought.now here) (IsLedByPhase here.lexicon.now.machine states) ways.old.items ways.new.items)) }
    ensures few { IfOk result (λ all. OnTrue all (length ways.new.items ≤ length ways.old.items + MOST_WAYS)) }
    ensures steps { (most : ℕ) → HasAtMostRules site.entry.lexicon.now.tries most → steps.new ≤ steps.old + steps_of_items site.entry.lexicon.now most }
{
    let first = ways.len();
    let lexicon = site.lexicon;
    let rules = lexicon.rules();
    let ahead = Ahead::of(rules, site.line, site.place);
    let here = SiteAhead { site, ahead };
    let phases = rules.phases().len();
    for phase in (0..phases as u32).rev() {
        steps.tick();
        if !leading.lead(states, phase) || !may_begin(rules, site.place, phase) {
            continue;
        }
        if !push_phase(here, phase, first, rules_left, sought, ways, steps)? {
            return Ok(false);
        }
    }
    reverse_from(ways, first);
    Ok(true)
}
