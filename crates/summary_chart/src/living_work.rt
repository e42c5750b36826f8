ghost use Rattle.std.specs.Prelude.{◌≡◌, ◌+◌, ◌*◌, ◌<◌, ◌≤◌, ◌↔◌, ℕ, length, slice_index_or, None, All, Contains, IfOk, OnOk};
ghost use Rattle.text_definitions.specs.Lines.{IsLine};
ghost use Rattle.annotated_trie.specs.Choices.{choices_of, parts_of, rules_of_part};
ghost use Rattle.annotated_trie.specs.Searched.{IsSearchedLexicon};
ghost use Rattle.search_frames.specs.Costs.{HasAtMostRules};
ghost use Rattle.summary_chart.specs.Effects.{AreEffects};
ghost use Rattle.summary_chart.specs.Memos.{AreLiving, EndFrom, LivesBy};
ghost use Rattle.summary_chart.specs.Sites.{IsSite};
ghost use Rattle.summary_chart.specs.Spreading.{leads_in};
ghost use Rattle.summary_chart.specs.StateSets.{HasState};
ghost use Rattle.summary_chart.specs.Tables.{IsTable};

use super::memo::{FEW_RULES, Memo, Work};
use super::same_effect::Effects;
use super::site::Site;
use super::state_set::StateSet;
use super::state_steps::accepting_states;
use super::table::Table;
use annotated_trie::Lexicon;
use outside::Steps;
use phoneme::{Letter, Line, Memory};
use search_frames::{LetterTest, rule_test};

/// The states after the phase from which the rule ends the line or leads on to a place of the table, after a form that ends as the work
/// tells, wherever it begins.
fn living_by_rule(lexicon: &Lexicon, line: &Line, work: &Work, rule: u32, table: &Table) -> StateSet
    requires searched { IsSearchedLexicon lexicon.now }
    requires line { IsLine line.now }
    requires end { work.now.end ≤ length line.now.letters }
    requires some { 0 < rule }
    requires rule { rule ≤ length lexicon.now.lexicon.rules.rules }
    requires table { IsTable (leads_in lexicon.now) (length line.now.letters) table.now }
    ensures { (number : ℕ) → HasState result number ↔ LivesBy lexicon.now line.now table.now work.now (λ one. one ≡ rule) number }
{
    let end = work.end as usize;
    match rule_test(lexicon.rules(), line, end, work.may_end, work.phase, rule) {
        LetterTest::Refused => StateSet::empty(),
        LetterTest::Ends => accepting_states(lexicon.automaton()),
        LetterTest::LeadsOn { at, entrance } => table.get(at, entrance),
    }
}

/// The same for each of these rules; of rules that do the same, one is looked at. Refused only for want of memory.
fn living_by_rules<L>(
    site: Site<'_>,
    work: &Work,
    rules: &[u32],
    table: &Table,
    effects: &mut Effects,
    steps: &mut Steps<L>,
) -> Result<StateSet, Memory>
    requires site { IsSite site }
    requires end { work.now.end ≤ length site.line.now.letters }
    requires rules { All (λ rule. (0 < rule) × (rule ≤ length site.lexicon.now.lexicon.rules.rules)) rules.now }
    requires table { IsTable (leads_in site.lexicon.now) (length site.line.now.letters) table.now }
    requires effects { AreEffects site.lexicon.now.lexicon.rules effects.old }
    ensures effects { OnOk result (AreEffects site.entry.lexicon.now.lexicon.rules effects.new) }
    ensures living { IfOk result (λ living. (number : ℕ) → HasState living number ↔ LivesBy site.entry.lexicon.now site.entry.line.now table.now work.now (Contains rules.now) number) }
    ensures steps { steps.new ≤ steps.old + length rules.now }
    ensures counted { IfOk result (λ living. steps.old + length rules.now ≤ steps.new) }
{
    let lexicon = site.lexicon;
    effects.begin(lexicon.rules(), rules.len())?;
    let mut living = StateSet::empty();
    for rule in rules {
        steps.tick();
        if effects.repeats(lexicon.rules(), *rule) {
            continue;
        }
        living = living.union(living_by_rule(lexicon, site.line, work, *rule, table));
    }
    Ok(living)
}

/// The same for the rules of a part of the choices of the work's node, in place of the work's own. It is looked for in the memo first, and
/// put there. Refused only for want of memory.
pub(crate) fn living_by_part<L>(
    site: Site<'_>,
    work: &Work,
    part: u32,
    table: &Table,
    memo: &mut Memo,
    steps: &mut Steps<L>,
) -> Result<StateSet, Memory>
    requires site { IsSite site }
    requires node { work.now.node < length site.lexicon.now.tries.trie.rows }
    requires end { work.now.end ≤ length site.line.now.letters }
    requires table { IsTable (leads_in site.lexicon.now) (length site.line.now.letters) table.now }
    requires memo { AreLiving site.lexicon.now site.line.now table.now memo.old }
    requires part { Contains (parts_of site.lexicon.now.tries work.now.node) part }
    ensures memo { OnOk result (AreLiving site.entry.lexicon.now site.entry.line.now table.now memo.new) }
    ensures ends { OnOk result ((at : ℕ) → at ≤ work.now.end → EndFrom at memo.old → EndFrom at memo.new) }
    ensures living { IfOk result (λ living. (number : ℕ) → HasState living number ↔ LivesBy site.entry.lexicon.now site.entry.line.now table.now work.now (Contains (rules_of_part site.entry.lexicon.now.tries part)) number) }
    ensures steps { steps.new ≤ steps.old + (1 + length (rules_of_part site.entry.lexicon.now.tries part)) }
{
    steps.tick();
    let tries = site.lexicon.tries();
    let work = Work {
        node: work.node,
        part: Some(part),
        end: work.end,
        may_end: work.may_end,
        phase: work.phase,
    };
    if let Some(states) = memo.get(tries, &work) {
        return Ok(states);
    }
    let rules = tries.rules_of_part(part);
    let living = living_by_rules(site, &work, rules, table, &mut memo.effects, steps)?;
    memo.keep(tries, &work, living)?;
    Ok(living)
}

/// The same for all choices of the node, part by part.
fn living_by_parts<L>(
    site: Site<'_>,
    work: &Work,
    table: &Table,
    memo: &mut Memo,
    steps: &mut Steps<L>,
) -> Result<StateSet, Memory>
    requires site { IsSite site }
    requires node { work.now.node < length site.lexicon.now.tries.trie.rows }
    requires end { work.now.end ≤ length site.line.now.letters }
    requires table { IsTable (leads_in site.lexicon.now) (length site.line.now.letters) table.now }
    requires memo { AreLiving site.lexicon.now site.line.now table.now memo.old }
    ensures memo { OnOk result (AreLiving site.entry.lexicon.now site.entry.line.now table.now memo.new) }
    ensures ends { OnOk result ((at : ℕ) → at ≤ work.now.end → EndFrom at memo.old → EndFrom at memo.new) }
    ensures living { IfOk result (λ living. (number : ℕ) → HasState living number ↔ LivesBy site.entry.lexicon.now site.entry.line.now table.now work.now (Contains (choices_of site.entry.lexicon.now.tries work.now.node)) number) }
    ensures steps { steps.new ≤ steps.old + 2 * length (choices_of site.entry.lexicon.now.tries work.now.node) }
{
    let tries = site.lexicon.tries();
    let parts = tries.parts(work.node);
    let mut living = StateSet::empty();
    for part in parts {
        let found = living_by_part(site, work, *part, table, memo, steps)?;
        living = living.union(found);
    }
    Ok(living)
}

/// The states after the phase from which a rule that is a choice at the node and whose `w` begins with the next letter, which is this, ends
/// the line or leads on to a place of the table, after a form that ends as the work tells, wherever it begins: rule by rule where these are
/// few, and else part by part. Refused only for want of memory.
fn living_anew<L>(
    site: Site<'_>,
    work: &Work,
    letter: Letter,
    table: &Table,
    memo: &mut Memo,
    steps: &mut Steps<L>,
) -> Result<StateSet, Memory>
    requires site { IsSite site }
    requires node { work.now.node < length site.lexicon.now.tries.trie.rows }
    requires end { work.now.end < length site.line.now.letters }
    requires letter { letter ≡ slice_index_or site.line.now.letters work.now.end letter }
    requires table { IsTable (leads_in site.lexicon.now) (length site.line.now.letters) table.now }
    requires memo { AreLiving site.lexicon.now site.line.now table.now memo.old }
    ensures memo { OnOk result (AreLiving site.entry.lexicon.now site.entry.line.now table.now memo.new) }
    ensures ends { OnOk result ((at : ℕ) → at ≤ work.now.end → EndFrom at memo.old → EndFrom at memo.new) }
    ensures living { IfOk result (λ living. (number : ℕ) → HasState living number ↔ LivesBy site.entry.lexicon.now site.entry.line.now table.now work.now (Contains (choices_of site.entry.lexicon.now.tries work.now.node)) number) }
    ensures steps { (most : ℕ) → HasAtMostRules site.entry.lexicon.now.tries most → steps.new ≤ steps.old + (1 + 2 * most) }
{
    let tries = site.lexicon.tries();
    let rules = tries.choices_with(work.node, letter, steps);
    if rules.len() > FEW_RULES {
        return living_by_parts(site, work, table, memo, steps);
    }
    let living = living_by_rules(site, work, rules, table, &mut memo.effects, steps)?;
    Ok(living)
}

/// The same, where it is looked for in the memo first, and put there. Refused only for want of memory.
pub(crate) fn living_after<L>(
    site: Site<'_>,
    work: &Work,
    letter: Letter,
    table: &Table,
    memo: &mut Memo,
    steps: &mut Steps<L>,
) -> Result<StateSet, Memory>
    requires site { IsSite site }
    requires node { work.now.node < length site.lexicon.now.tries.trie.rows }
    requires all { work.now.part ≡ None }
    requires end { work.now.end < length site.line.now.letters }
    requires letter { letter ≡ slice_index_or site.line.now.letters work.now.end letter }
    requires table { IsTable (leads_in site.lexicon.now) (length site.line.now.letters) table.now }
    requires memo { AreLiving site.lexicon.now site.line.now table.now memo.old }
    ensures memo { OnOk result (AreLiving site.entry.lexicon.now site.entry.line.now table.now memo.new) }
    ensures ends { OnOk result ((at : ℕ) → at ≤ work.now.end → EndFrom at memo.old → EndFrom at memo.new) }
    ensures living { IfOk result (λ living. (number : ℕ) → HasState living number ↔ LivesBy site.entry.lexicon.now site.entry.line.now table.now work.now (Contains (choices_of site.entry.lexicon.now.tries work.now.node)) number) }
    ensures steps { (most : ℕ) → HasAtMostRules site.entry.lexicon.now.tries most → steps.new ≤ steps.old + (2 + 2 * most) }
{
    steps.tick();
    let tries = site.lexicon.tries();
    if let Some(states) = memo.get(tries, work) {
        return Ok(states);
    }
    let living = living_anew(site, work, letter, table, memo, steps)?;
    memo.keep(tries, work, living)?;
    Ok(living)
}
