ghost use Rattle.std.specs.Prelude.{◌≡◌, ℕ, List, true, ◌+◌, ◌<◌, ◌≤◌, ◌↔◌, ◌++◌, length, take, drop, All, IsTrue, IfSome, MatchOption};
ghost use Rattle.std.specs.Bool.{OnTrue};
ghost use Rattle.segmentation_definitions.specs.Listings.{Key as KeyValue};
ghost use Rattle.text_definitions.specs.Lines.{Line as LineValue};
ghost use Rattle.lexicon_definitions.specs.Leads.{Lead, leads_of};
ghost use Rattle.lexicon_definitions.specs.Lexicons.{RuleSet as RuleSetValue, rule_of};
ghost use Rattle.lexicon_definitions.specs.Limits.{IsRuleSetWithinLimits};
ghost use Rattle.segmentation_definitions.specs.LocalTests.{Allows};
ghost use Rattle.segmentation_definitions.specs.Configurations.{last_letter};
ghost use Rattle.derivation.specs.Guides.{IsEntranceOver, entrance_of};
ghost use Rattle.derivation.specs.Steps.{key_meant};
ghost use Rattle.annotated_trie.specs.Choices.{rules_of_part};
ghost use Rattle.answer_paths.specs.Fronts.{supplied};
ghost use Rattle.answer_paths.specs.Following.{MayEnter, is_start, placed_at, step_at};
ghost use Rattle.search_frames.specs.Ahead.{AllowsWhicheverRule, FitsPlace, IsAhead, IsNextBlank, IsRuleTest, LetIn, LetsLetterIn, LetsRuleIn, MayBegin};
ghost use Rattle.search_frames.specs.Configurations.{IsPossible};
ghost use Rattle.search_frames.specs.Frames.{IsConfigurationIn, numbered_of};
ghost use Rattle.search_frames.specs.LetterTests.{DoAsRules, IsLetterTestOf};

use super::Configuration;
use super::letter_testing::LetterTest;
use super::line_tests::{begins_with, u_of};
use super::walking::supplied_letters;
use super::way::Way;
use annotated_trie::Lexicon;
use derivation::{Entrance, Key, Step};
use phoneme::{Letter, Line};
use reader_choices::Choices;
use sandhi_rules::RuleSet;

/// What a line tells of every form that begins at a place: the number of letters of the line past which no form goes, which is the place
/// itself where no form that takes a letter may be entered, else that of the first blank after the place, or of all letters where there
/// is none; whether no blank stands after the place, so that the line may end with the form; and whether a form that takes a letter of
/// the line may be entered.
#[derive(Clone, Copy)]
pub struct Ahead {
    pub limit: u32,
    pub may_end: bool,
    pub enters: bool,
}

/// The first blank after so many letters of the line, if there is one.
fn next_blank(line: &Line, at: u32) -> Option<u32>
    ensures { MatchOption result (All (λ blank. blank ≤ at) line.now.blanks) (IsNextBlank line.now.blanks at) }
{
    let blanks = line.blanks.as_slice();
    let next = blanks.partition_point(|blank| *blank <= at);
    match blanks.get(next) {
        None => None,
        Some(blank) => Some(*blank),
    }
}

/// Whether a form that takes a letter of the line may be entered at the place: after a letter, this and the next letter of the line are a
/// plain pair.
fn lets_letter_in(rules: &RuleSet, line: &Line, place: &Configuration) -> bool
    ensures { IsTrue result ↔ LetsLetterIn rules.now line.now place.now.at (entrance_of (leads_of rules.now.rules) place.now.entrance) }
{
    match place.entrance {
        Entrance::Plain(last) => match line.letters.as_slice().get(place.at as usize) {
            None => true,
            Some(letter) => rules.is_plain(last, *letter),
        },
        Entrance::Start | Entrance::Lead(_) => true,
    }
}

/// Whether a form of this phase, counted from 0, may be entered at the place: after a rule, this may precede the phase. Where it may not,
/// no key of the phase leads on or ends the line there.
pub fn may_begin(rules: &RuleSet, place: &Configuration, phase: u32) -> bool
    requires { IsEntranceOver (leads_of rules.now.rules) place.now.entrance }
    ensures { IsTrue result ↔ MayBegin (entrance_of (leads_of rules.now.rules) place.now.entrance) phase }
{
    match place.entrance {
        Entrance::Start | Entrance::Plain(_) => true,
        Entrance::Lead(lead) => rules.leads()[usize::from(lead)].may_precede(phase),
    }
}

/// Whether the `w` of the rule, counted from 1, comes next after so many letters of the line. Where it does not, no key with the rule whose
/// form ends there leads on or ends the line.
#[inline(always)]
pub fn is_written(rules: &RuleSet, line: &Line, end: usize, rule: u32) -> bool
    requires within { end ≤ length line.now.letters }
    requires some { 1 ≤ rule }
    requires rule { rule ≤ length rules.now.rules }
    ensures { IsTrue result ↔ (take (length (rule_of rules.now rule).w) (drop end line.now.letters) ≡ (rule_of rules.now rule).w) }
{
    let Some(found) = rules.rule(rule) else {
        unreachable!()
    };
    begins_with(&line.letters.as_slice()[end..], found.w.as_slice())
}

/// What the rule, counted from 1, does after a form of the phase that ends after so many letters of the line, wherever the form begins and
/// however it is entered. `may_end` says whether the line may end there.
pub fn rule_test(
    rules: &RuleSet,
    line: &Line,
    end: usize,
    may_end: bool,
    phase: u32,
    rule: u32,
) -> LetterTest
    requires within { end ≤ length line.now.letters }
    requires some { 1 ≤ rule }
    requires rule { rule ≤ length rules.now.rules }
    ensures { IsRuleTest rules.now line.now end may_end phase rule result }
{
    let Some(found) = rules.rule(rule) else {
        unreachable!()
    };
    let w = found.w.as_slice();
    let left = &line.letters.as_slice()[end..];
    if !begins_with(left, w) || !found.may_follow(phase) {
        return LetterTest::Refused;
    }
    match rules.lead_of(rule) {
        Some(lead) => LetterTest::LeadsOn {
            at: (end + w.len()) as u32,
            entrance: Entrance::Lead(lead),
        },
        None => {
            if may_end && left.len() == w.len() {
                LetterTest::Ends
            } else {
                LetterTest::Refused
            }
        }
    }
}

/// Whether nothing stands before a form that is entered so.
fn is_first(entrance: Entrance) -> bool
    ensures { (leads : List Lead) → result ≡ is_start (entrance_of leads entrance) }
{
    matches!(entrance, Entrance::Start)
}

/// Whether the step with this key at the place passes the local test of each choice.
fn is_allowed(
    rules: &RuleSet,
    line: &Line,
    choices: &Choices,
    place: &Configuration,
    key: Key,
) -> bool
    requires limits { IsRuleSetWithinLimits rules.now }
    requires over { IsEntranceOver (leads_of rules.now.rules) place.now.entrance }
    requires rule { key.rule ≤ length rules.now.rules }
    requires within { place.now.at + key.taken ≤ length line.now.letters }
    ensures { let entrance = entrance_of (leads_of rules.now.rules) place.now.entrance in IsTrue result ↔ Allows rules.now (length line.now.letters) choices.now (is_start entrance) (placed_at rules.now line.now place.now.at entrance (key_meant key)) }
{
    if choices.list().is_empty() {
        return true;
    }
    let lead = supplied_letters(rules, place.entrance);
    let step = Step {
        phase: key.phase,
        rule: key.rule,
        at: place.at,
        lead: lead.len() as u32,
        taken: key.taken,
    };
    choices.allows_entered(rules, line, lead, is_first(place.entrance), &step)
}

/// Whether the line may end with a form at the place that takes so many letters, where the choices allow each such form unless the line
/// must not end with it; `None` where that can't be told without looking at rules.
fn leave_free(rules: &RuleSet, choices: &Choices, place: &Configuration, taken: u32) -> Option<bool>
    requires limits { IsRuleSetWithinLimits rules.now }
    requires over { IsEntranceOver (leads_of rules.now.rules) place.now.entrance }
    ensures { IfSome result (AllowsWhicheverRule rules.now choices.now place.now.at (entrance_of (leads_of rules.now.rules) place.now.entrance) taken) }
{
    if choices.list().is_empty() {
        return Some(true);
    }
    let lead = supplied_letters(rules, place.entrance);
    choices.leave_free(place.at, lead.len() as u32, is_first(place.entrance), taken)
}

/// The last letter of what is supplied to a form at the place with so many letters of the line.
fn last_taken(rules: &RuleSet, line: &Line, place: &Configuration, taken: u32) -> Letter
    requires over { IsEntranceOver (leads_of rules.now.rules) place.now.entrance }
    requires within { place.now.at + taken ≤ length line.now.letters }
    requires some { 0 < length (supplied (entrance_of (leads_of rules.now.rules) place.now.entrance) ++ take taken (drop place.now.at line.now.letters)) }
    ensures { result ≡ last_letter (supplied (entrance_of (leads_of rules.now.rules) place.now.entrance) ++ take taken (drop place.now.at line.now.letters)) }
{
    if taken > 0 {
        let end = place.at as usize + taken as usize;
        return line.letters.as_slice()[end - 1];
    }
    let lead = supplied_letters(rules, place.entrance);
    lead[lead.len() - 1]
}

/// Whether a form that takes no letter of the line may be entered at the place: after a letter, this and the first letter of the rule's
/// `u` are a plain pair.
fn lets_rule_in(rules: &RuleSet, place: &Configuration, rule: u32) -> bool
    requires { rule ≤ length rules.now.rules }
    ensures { IsTrue result ↔ LetsRuleIn rules.now (entrance_of (leads_of rules.now.rules) place.now.entrance) rule }
{
    match place.entrance {
        Entrance::Plain(last) => match u_of(rules, rule) {
            [] => true,
            [first, ..] => rules.is_plain(last, *first),
        },
        Entrance::Start | Entrance::Lead(_) => true,
    }
}

impl Ahead {
    /// What the line tells of the forms that begin at the place.
    pub fn of(rules: &RuleSet, line: &Line, place: &Configuration) -> Ahead
        requires { place.now.at ≤ length line.now.letters }
        ensures { IsAhead rules.now line.now place.now.at (entrance_of (leads_of rules.now.rules) place.now.entrance) result }
    {
        let enters = lets_letter_in(rules, line, place);
        let (stop, may_end) = match next_blank(line, place.at) {
            None => (line.letters.len() as u32, true),
            Some(blank) => (blank, false),
        };
        Ahead {
            limit: if enters { stop } else { place.at },
            may_end,
            enters,
        }
    }

    /// Whether the form of the key may be entered at the place.
    fn lets_in(self, rules: &RuleSet, place: &Configuration, key: Key) -> bool
        requires { key.rule ≤ length rules.now.rules }
        ensures { (line : LineValue) → let entrance = entrance_of (leads_of rules.now.rules) place.now.entrance in IsAhead rules.now line place.now.at entrance self → place.now.at + key.taken ≤ length line.letters → MayBegin entrance key.phase → 0 < length (step_at rules.now line place.now.at entrance (key_meant key)).form → IsTrue result ↔ MayEnter rules.now entrance (step_at rules.now line place.now.at entrance (key_meant key)) }
    {
        if key.taken > 0 {
            self.enters
        } else {
            lets_rule_in(rules, place, key.rule)
        }
    }

    /// Whether the key, which goes no further than the limit and whose phase may begin, may stand at the place but for what its rule asks.
    fn fits(
        self,
        lexicon: &Lexicon,
        line: &Line,
        choices: &Choices,
        place: &Configuration,
        key: Key,
    ) -> bool
        requires place { IsConfigurationIn lexicon.now line.now place.now }
        requires ahead { IsAhead lexicon.now.lexicon.rules line.now place.now.at (numbered_of lexicon.now place.now).entrance self }
        requires possible { IsPossible lexicon.now line.now (numbered_of lexicon.now place.now) (key_meant key) }
        requires limit { place.now.at + key.taken ≤ self.limit }
        requires begins { MayBegin (numbered_of lexicon.now place.now).entrance key.phase }
        ensures { IsTrue result ↔ FitsPlace lexicon.now line.now choices.now (numbered_of lexicon.now place.now) (key_meant key) }
    {
        let rules = lexicon.rules();
        self.lets_in(rules, place, key) && is_allowed(rules, line, choices, place, key)
    }

    /// Whether every form that takes so many letters may be entered at the place whichever its rule, as far as can be told without looking
    /// at rules: a letter is taken before which a form may be entered, or no letter stands before the form.
    fn lets_all_in(self, place: &Configuration, taken: u32) -> bool
        ensures { OnTrue result ((rules : RuleSetValue) (line : LineValue) (key : KeyValue) → let entrance = entrance_of (leads_of rules.rules) place.now.entrance in IsAhead rules line place.now.at entrance self → key.taken ≡ taken → place.now.at + key.taken ≤ length line.letters → MayBegin entrance key.phase → MayEnter rules entrance (step_at rules line place.now.at entrance key)) }
    {
        match place.entrance {
            Entrance::Plain(_) => taken > 0 && self.enters,
            Entrance::Start | Entrance::Lead(_) => true,
        }
    }

    /// Whether the form of a key that takes so many letters and has a rule of the part may be entered at the place: as the rules of a part have
    /// one `u`, that is the same for all of these keys.
    pub fn lets_part_in(
        self,
        lexicon: &Lexicon,
        place: &Configuration,
        taken: u32,
        part: u32,
    ) -> bool
        requires part { part < length lexicon.now.tries.part_rules }
        requires rules { All (λ rule. rule ≤ length lexicon.now.lexicon.rules.rules) (rules_of_part lexicon.now.tries part) }
        ensures { (line : LineValue) → let here = numbered_of lexicon.now place.now in IsAhead lexicon.now.lexicon.rules line here.at here.entrance self → LetIn lexicon.now line here taken (rules_of_part lexicon.now.tries part) result }
    {
        if taken > 0 {
            return self.enters;
        }
        match lexicon.tries().rules_of_part(part) {
            [first, ..] => lets_rule_in(lexicon.rules(), place, *first),
            [] => false,
        }
    }

    /// Whether the line may end with a form at the place that takes so many letters, where each key with such a form does there just what
    /// its rule does after these letters; `None` where that can't be told without looking at rules: some such form may not be entered, or
    /// the choices do not leave all of them free.
    pub fn end_by_rules(
        self,
        lexicon: &Lexicon,
        line: &Line,
        choices: &Choices,
        place: &Configuration,
        taken: u32,
    ) -> Option<bool>
        requires place { IsConfigurationIn lexicon.now line.now place.now }
        requires ahead { IsAhead lexicon.now.lexicon.rules line.now place.now.at (numbered_of lexicon.now place.now).entrance self }
        requires limit { place.now.at + taken ≤ self.limit }
        ensures { IfSome result (DoAsRules lexicon.now line.now choices.now (numbered_of lexicon.now place.now) taken) }
    {
        // The line is that of which the contract speaks.
        let _letters = &line.letters;
        if !self.lets_all_in(place, taken) {
            return None;
        }
        let may_end = leave_free(lexicon.rules(), choices, place, taken)?;
        Some(self.may_end && may_end)
    }

    /// What the key does at the place as far as the letters of the line, the blanks and the choices tell. It has no rule, goes no further
    /// than the limit, and its phase may begin.
    fn test_unchanged(
        self,
        lexicon: &Lexicon,
        line: &Line,
        choices: &Choices,
        place: &Configuration,
        key: Key,
    ) -> LetterTest
        requires place { IsConfigurationIn lexicon.now line.now place.now }
        requires ahead { IsAhead lexicon.now.lexicon.rules line.now place.now.at (numbered_of lexicon.now place.now).entrance self }
        requires possible { IsPossible lexicon.now line.now (numbered_of lexicon.now place.now) (key_meant key) }
        requires limit { place.now.at + key.taken ≤ self.limit }
        requires begins { MayBegin (numbered_of lexicon.now place.now).entrance key.phase }
        requires unchanged { key.rule ≡ 0 }
        ensures exact { IsLetterTestOf lexicon.now line.now choices.now (numbered_of lexicon.now place.now) (key_meant key) result }
    {
        if !self.fits(lexicon, line, choices, place, key) {
            return LetterTest::Refused;
        }
        let end = place.at as usize + key.taken as usize;
        if end < line.letters.len() {
            let last = last_taken(lexicon.rules(), line, place, key.taken);
            return LetterTest::LeadsOn {
                at: end as u32,
                entrance: Entrance::Plain(last),
            };
        }
        if self.may_end {
            LetterTest::Ends
        } else {
            LetterTest::Refused
        }
    }

    /// What the key with a rule does at the place, where the test of the way says what the rule does after its letters: the same, if the
    /// key fits the place.
    pub fn test_where_it_fits(
        self,
        lexicon: &Lexicon,
        line: &Line,
        choices: &Choices,
        place: &Configuration,
        way: Way,
    ) -> LetterTest
        requires place { IsConfigurationIn lexicon.now line.now place.now }
        requires ahead { IsAhead lexicon.now.lexicon.rules line.now place.now.at (numbered_of lexicon.now place.now).entrance self }
        requires possible { IsPossible lexicon.now line.now (numbered_of lexicon.now place.now) (key_meant way.key) }
        requires limit { place.now.at + way.key.taken ≤ self.limit }
        requires begins { MayBegin (numbered_of lexicon.now place.now).entrance way.key.phase }
        requires rule { 1 ≤ way.key.rule }
        requires test { IsRuleTest lexicon.now.lexicon.rules line.now (place.now.at + way.key.taken) self.may_end way.key.phase way.key.rule way.test }
        ensures exact { IsLetterTestOf lexicon.now line.now choices.now (numbered_of lexicon.now place.now) (key_meant way.key) result }
    {
        match way.test {
            LetterTest::Refused => LetterTest::Refused,
            test => {
                if self.fits(lexicon, line, choices, place, way.key) {
                    test
                } else {
                    LetterTest::Refused
                }
            }
        }
    }

    /// What the key does at the place as far as the letters of the line, the blanks and the choices tell. It has a rule, goes no further
    /// than the limit, and its phase may begin.
    fn test_rule(
        self,
        lexicon: &Lexicon,
        line: &Line,
        choices: &Choices,
        place: &Configuration,
        key: Key,
    ) -> LetterTest
        requires place { IsConfigurationIn lexicon.now line.now place.now }
        requires ahead { IsAhead lexicon.now.lexicon.rules line.now place.now.at (numbered_of lexicon.now place.now).entrance self }
        requires possible { IsPossible lexicon.now line.now (numbered_of lexicon.now place.now) (key_meant key) }
        requires limit { place.now.at + key.taken ≤ self.limit }
        requires begins { MayBegin (numbered_of lexicon.now place.now).entrance key.phase }
        requires rule { 1 ≤ key.rule }
        ensures exact { IsLetterTestOf lexicon.now line.now choices.now (numbered_of lexicon.now place.now) (key_meant key) result }
    {
        let end = place.at as usize + key.taken as usize;
        let test = rule_test(
            lexicon.rules(),
            line,
            end,
            self.may_end,
            key.phase,
            key.rule,
        );
        self.test_where_it_fits(lexicon, line, choices, place, Way { key, test })
    }

    /// What the key does at the place as far as the letters of the line, the blanks and the choices tell. It goes no further than the
    /// limit, and its phase may begin.
    pub fn test(
        self,
        lexicon: &Lexicon,
        line: &Line,
        choices: &Choices,
        place: &Configuration,
        key: Key,
    ) -> LetterTest
        requires place { IsConfigurationIn lexicon.now line.now place.now }
        requires ahead { IsAhead lexicon.now.lexicon.rules line.now place.now.at (numbered_of lexicon.now place.now).entrance self }
        requires possible { IsPossible lexicon.now line.now (numbered_of lexicon.now place.now) (key_meant key) }
        requires limit { place.now.at + key.taken ≤ self.limit }
        requires begins { MayBegin (numbered_of lexicon.now place.now).entrance key.phase }
        ensures exact { IsLetterTestOf lexicon.now line.now choices.now (numbered_of lexicon.now place.now) (key_meant key) result }
    {
        if key.rule == 0 {
            self.test_unchanged(lexicon, line, choices, place, key)
        } else {
            self.test_rule(lexicon, line, choices, place, key)
        }
    }
}
