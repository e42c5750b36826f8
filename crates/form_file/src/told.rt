ghost use Rattle.std.specs.Prelude.{◌≡◌, ◌<◌, ◌||◌, nat_lt, ◌≤◌, ◌^◌, [], length, map, replicate, true, IfOk, IfErr, OnOk, Some, IfSome, string_bytes};
ghost use Rattle.std.specs.List.{position};
ghost use Rattle.std.specs.Str.{bytes_eq};
ghost use Rattle.lexicon_definitions.specs.GrammarTexts.{grammar_of};
ghost use Rattle.lexicon_definitions.specs.GrammarFaults.{IsGrammarTextWithinLimits};
ghost use Rattle.lexicon_definitions.specs.Lexicons.{IsRuleSet, tree_of, compare_pairs};
ghost use Rattle.lexicon_definitions.specs.Limits.{IsRuleSetWithinLimits};
ghost use Rattle.lexicon_definitions.specs.Tries.{IsTrieOf};
ghost use Rattle.trie_text_definitions.specs.TrieForms.{phases_of};
ghost use Rattle.phase_automaton.specs.Automata.{Recognizes};
ghost use Rattle.lexicon_text_definitions.specs.FileLines.{Opening, Head as HeadLine, End, may_follow, Phase, Grammar, Plain, Rule as RuleLine, Form, fields_of, parts_of};
ghost use Rattle.lexicon_text_definitions.specs.FileContents.{Told as ToldValue, entries_from, nothing_told, rules_told, lexicon_told, compare_last as compare_last_of};
ghost use Rattle.lexicon_text_definitions.specs.FileSteps.{if_rising, passes_rule_limits as passes_rule_limits_of, take_triple as take_triple_of, take_line as take_line_of, take_head as take_head_of, take_end as take_end_of, take_phase as take_phase_of, take_grammar as take_grammar_of, take_plain as take_plain_of, take_rule as take_rule_of, take_kind as take_kind_of, take_parts as take_parts_of};
ghost use Rattle.form_file.specs.Told.{IsAnswer, IsLineAnswer, IsTextFault, HasBody, IsBody};
ghost use Rattle.form_file.specs.LimitedRules.{take_limited as take_limited_of};
ghost use Rattle.form_file.specs.Fields.{text_of_rest};
ghost use Rattle.form_file.specs.Contents.{lexicon_of};
ghost use Rattle.form_file.specs.Kinds.{kind_of};

mod form_lines;

use crate::cutting::{kind_and_rest, one_field, rule_parts, two_fields};
use crate::kind::Kind;
use crate::rules_so_far::RulesSoFar;
use crate::take_error::TakeError;
use crate::words::{read_letter, read_word};
use crate::{Contents, FileWhy};
use form_tags::Entry;
use lexicon_definitions::{MOST_PHASES, MOST_RULE_LETTERS};
use phase_automaton::{Automaton, GrammarError, read_grammar};
use phoneme::{Letter, Memory, Word};
use sandhi_rules::{Rule, RuleSet, is_phase_name, phase_named};
use shared_trie::StoreBuilder;
use std::alloc::Global;
use std::boxed::Box;
use std::cmp::Ordering;
use std::marker::Model;

/// What the lines so far told: the kind of the last line, the names of the phases, the grammar's text with its automaton, the
/// plain pairs, the rules, and the trie of the forms.
#[derive(Drop)]
pub struct Told {
    last: Kind,
    names: Vec<String>,
    grammar: Vec<u8>,
    automaton: Option<Automaton>,
    plain: Vec<(Letter, Letter)>,
    rules: Box<RulesSoFar>,
    forms: Box<StoreBuilder>,
    /// An entry into whose words those of the next line of a form are read.
    room: Option<Box<Entry>>,
}

impl Model for Told {
    ghost use Rattle.std.specs.Prelude.{map, string_bytes};
    ghost use Rattle.lexicon_text_definitions.specs.FileContents.{Told as ToldValue, entries_from};
    ghost use Rattle.form_file.specs.Kinds.{kind_of};
    ghost use Rattle.form_file.specs.Told.{IsKept};

    ghost Value = { ToldValue };

    ghost view = { λ t. record { last = kind_of t.last; names = map string_bytes t.names.items; grammar = t.grammar.items; plain = t.plain.items; rules = t.rules.value; forms = entries_from 0 t.forms.value } };

    ghost invariant = { λ t. IsKept (record { last = kind_of t.last; names = map string_bytes t.names.items; grammar = t.grammar.items; plain = t.plain.items; rules = t.rules.value; forms = entries_from 0 t.forms.value }) t.automaton t.forms.value };
}

/// The reason that comes from how a new one compares with the last before it.
fn rising(order: Ordering) -> Result<(), TakeError>
    ensures { (told : ToldValue) → IsAnswer (if_rising order told) result told }
{
    match order {
        Ordering::Less => Ok(()),
        Ordering::Equal => Err(FileWhy::Twice.into()),
        Ordering::Greater => Err(FileWhy::Falling.into()),
    }
}

/// How the last pair compares with a new one; `Less` where there is no pair yet.
fn compare_last_pair(pairs: &[(Letter, Letter)], pair: &(Letter, Letter)) -> Ordering
    ensures { result ≡ compare_last_of compare_pairs pairs.now pair.now }
{
    match pairs {
        [] => Ordering::Less,
        [.., last] => last.cmp(pair),
    }
}

/// Whether a part of the rule is too long.
fn is_long(rule: &Rule) -> bool
    ensures { result ≡ (nat_lt MOST_RULE_LETTERS (length rule.now.u) || nat_lt MOST_RULE_LETTERS (length rule.now.v) || nat_lt MOST_RULE_LETTERS (length rule.now.w)) }
{
    rule.u.len() > MOST_RULE_LETTERS
        || rule.v.len() > MOST_RULE_LETTERS
        || rule.w.len() > MOST_RULE_LETTERS
}

/// The automaton of a grammar's text over the phases with these names.
fn automaton_of(alloc: Global, text: &[u8], names: &[String]) -> Result<Automaton, TakeError>
    requires some { 0 < length names.now }
    requires few { length names.now ≤ MOST_PHASES }
    ensures text { OnOk result (IsGrammarTextWithinLimits (map string_bytes names.now) text.now) }
    ensures grammar { IfOk result (λ automaton. Recognizes automaton (grammar_of (map string_bytes names.now) text.now)) }
    ensures phases { IfOk result (λ automaton. automaton.phases ≡ length names.now) }
    ensures fault { IfErr result (λ error. IsTextFault error (map string_bytes names.now) text.now) }
{
    match read_grammar(alloc, text, names) {
        Ok(automaton) => Ok(automaton),
        Err(GrammarError::Fault(fault)) => Err(FileWhy::Grammar(fault).into()),
        Err(GrammarError::Memory) => Err(TakeError::Memory),
    }
}

/// So many phases without forms.
fn no_forms(alloc: Global, phases: u32) -> Result<Box<StoreBuilder>, Memory>
    requires { phases ≤ MOST_PHASES }
    ensures { IfOk result (λ forms. forms.value ≡ replicate phases []) }
{
    let forms = StoreBuilder::new(alloc, phases)?;
    Ok(Box::new(alloc, forms)?)
}

impl Told {
    pub(crate) fn new(alloc: Global) -> Result<Told, Memory>
        ensures { IfOk result (λ told. told ≡ nothing_told) }
    {
        let rules = Box::new(alloc, RulesSoFar::new(alloc))?;
        let forms = no_forms(alloc, 0)?;
        Ok(Told {
            last: Kind::Opening,
            names: Vec::new(alloc),
            grammar: Vec::new(alloc),
            automaton: None,
            plain: Vec::new(alloc),
            rules,
            forms,
            room: None,
        })
    }

    /// What the first line tells, which is nothing, of whatever version it is.
    pub fn after_head(alloc: Global) -> Result<Told, Memory>
        ensures { IfOk result (λ told. told ≡ record nothing_told { last = HeadLine }) }
    {
        let mut told = Told::new(alloc)?;
        told.last = Kind::Head;
        Ok(told)
    }

    /// The names of the phases, by number from 0.
    pub fn names(&self) -> &[String]
        ensures value { map string_bytes result.now ≡ self.now.names }
        ensures few { length self.now.names ≤ MOST_PHASES }
    {
        self.names.as_slice()
    }

    /// The rules, in their order.
    pub fn rules(&self) -> &[Rule]
        ensures { result.now ≡ self.now.rules }
    {
        self.rules.as_slice()
    }

    fn take_head(&mut self, line: &[u8]) -> Result<(), TakeError>
        requires { self.old.last ≡ Opening }
        ensures { IsAnswer (take_head_of self.old line.now) result self.new }
    {
        if line != b"slx 1".as_slice() {
            return Err(FileWhy::Head.into());
        }
        self.last = Kind::Head;
        Ok(())
    }

    /// The number of the phase with this name, counted from 0.
    pub fn phase_named(&self, name: &[u8]) -> Option<usize>
        ensures named { result ≡ position (bytes_eq name.now) self.now.names }
        ensures within { IfSome result (λ phase. phase < length self.now.names) }
        ensures few { length self.now.names ≤ MOST_PHASES }
    {
        phase_named(self.names.as_slice(), name)
    }

    /// Takes the line of a phase, with what comes after its blank. It may come next.
    pub fn take_phase(&mut self, alloc: Global, text: &[u8]) -> Result<(), TakeError>
        requires follows { may_follow self.old.last Phase ≡ true }
        requires fits { length text.now < 2 ^ 32 }
        ensures { IsAnswer (take_phase_of self.old (fields_of (Some text.now))) result self.new }
    {
        let Some(name) = one_field(text) else {
            return Err(FileWhy::Field.into());
        };
        if !is_phase_name(name) {
            return Err(FileWhy::Field.into());
        }
        if self.names.len() >= MOST_PHASES {
            return Err(FileWhy::Limit.into());
        }
        if self.phase_named(name).is_some() {
            return Err(FileWhy::Twice.into());
        }
        let Ok(name) = std::str::from_utf8(name) else {
            return Err(FileWhy::Field.into());
        };
        self.names.push(String::from_str(alloc, name)?)?;
        self.last = Kind::Phase;
        Ok(())
    }

    /// Keeps the grammar's text with its automaton, and the trie to which the forms of each phase are to be added.
    fn keep_grammar(&mut self, grammar: Vec<u8>, automaton: Automaton, forms: Box<StoreBuilder>)
        requires { IsBody self.old.names grammar.items (Some automaton) forms.value }
        ensures { self.new ≡ record self.old { last = Grammar; grammar = grammar.items; forms = entries_from 0 forms.value } }
    {
        self.grammar = grammar;
        self.automaton = Some(automaton);
        self.forms = forms;
        self.last = Kind::Grammar;
    }

    /// Takes the line of the grammar, with what comes after its blank. It may come next.
    pub fn take_grammar(&mut self, alloc: Global, text: &[u8]) -> Result<(), TakeError>
        requires follows { may_follow self.old.last Grammar ≡ true }
        requires fits { length text.now < 2 ^ 32 }
        ensures { IsLineAnswer (take_grammar_of self.old (Some text.now)) result self.new }
    {
        let names = self.names.as_slice();
        let forms = no_forms(alloc, names.len() as u32)?;
        let grammar = Vec::from_slice(alloc, text)?;
        let automaton = automaton_of(alloc, text, names)?;
        self.keep_grammar(grammar, automaton, forms);
        Ok(())
    }

    /// Takes the line of a plain pair, with what comes after its blank. It may come next.
    pub fn take_plain(&mut self, alloc: Global, text: &[u8]) -> Result<(), TakeError>
        requires follows { may_follow self.old.last Plain ≡ true }
        requires fits { length text.now < 2 ^ 32 }
        ensures { IsAnswer (take_plain_of self.old (fields_of (Some text.now))) result self.new }
    {
        let Some((left, right)) = two_fields(text) else {
            return Err(FileWhy::Field.into());
        };
        let left = read_letter(alloc, left)?;
        let right = read_letter(alloc, right)?;
        let pair = (left, right);
        rising(compare_last_pair(self.plain.as_slice(), &pair))?;
        self.plain.push(pair)?;
        self.last = Kind::Plain;
        Ok(())
    }

    /// Whether with this rule there are too many rules or leads, or a part of it is too long.
    fn passes_rule_limits(&self, u: &Word, v: &Word, w: &Word) -> bool
        ensures { result ≡ passes_rule_limits_of self.now u.now v.now w.now }
    {
        self.rules.is_full(v)
            || u.len() > MOST_RULE_LETTERS
            || v.len() > MOST_RULE_LETTERS
            || w.len() > MOST_RULE_LETTERS
    }

    fn take_triple(&mut self, u: Word, v: Word, w: Word) -> Result<(), TakeError>
        requires { may_follow self.old.last RuleLine ≡ true }
        ensures { IsAnswer (take_triple_of self.old u v w) result self.new }
    {
        if u.is_empty() || w.is_empty() {
            return Err(FileWhy::Strict.into());
        }
        if self.passes_rule_limits(&u, &v, &w) {
            return Err(FileWhy::Limit.into());
        }
        let rule = Rule::unlimited(self.names.len(), u, v, w);
        self.rules.add(rule)?;
        self.last = Kind::Rule;
        Ok(())
    }

    /// Takes the line of a rule, with what comes after its blank. It may come next.
    pub fn take_rule(&mut self, alloc: Global, text: &[u8]) -> Result<(), TakeError>
        requires follows { may_follow self.old.last RuleLine ≡ true }
        requires fits { length text.now < 2 ^ 32 }
        ensures { IsAnswer (take_rule_of self.old (fields_of (Some text.now))) result self.new }
    {
        let Some(field) = one_field(text) else {
            return Err(FileWhy::Field.into());
        };
        let Some((u, v, w)) = rule_parts(field) else {
            return Err(FileWhy::Field.into());
        };
        let u = read_word(alloc, u)?;
        let v = read_word(alloc, v)?;
        let w = read_word(alloc, w)?;
        self.take_triple(u, v, w)
    }

    /// Takes a rule with its sets of phases, as a later version tells it. Such a line may come next.
    pub fn take_limited(&mut self, rule: Rule) -> Result<(), TakeError>
        requires { may_follow self.old.last RuleLine ≡ true }
        ensures { IsAnswer (take_limited_of self.old rule) result self.new }
    {
        if rule.u.is_empty() || rule.w.is_empty() {
            return Err(FileWhy::Strict.into());
        }
        if is_long(&rule) {
            return Err(FileWhy::Limit.into());
        }
        self.rules.add_limited(rule)?;
        self.last = Kind::Rule;
        Ok(())
    }

    fn take_end(&mut self, rest: Option<&[u8]>) -> Result<(), TakeError>
        requires { may_follow self.old.last End ≡ true }
        ensures { IsAnswer (take_end_of self.old (text_of_rest rest.entry)) result self.new }
    {
        if rest.is_some() {
            return Err(FileWhy::Field.into());
        }
        self.last = Kind::End;
        Ok(())
    }

    /// Takes a line of a kind that may come next, with what comes after its blank.
    fn take_kind(&mut self, alloc: Global, kind: Kind, rest: Option<&[u8]>) -> Result<(), TakeError>
        requires follows { may_follow self.old.last (kind_of kind) ≡ true }
        requires fits { IfSome rest (λ text. length text.now < 2 ^ 32) }
        ensures { IsLineAnswer (take_kind_of self.old (kind_of kind) (text_of_rest rest.entry)) result self.new }
    {
        if kind == Kind::End {
            return self.take_end(rest);
        }
        let Some(text) = rest else {
            return Err(FileWhy::Field.into());
        };
        match kind {
            Kind::Phase => self.take_phase(alloc, text),
            Kind::Grammar => self.take_grammar(alloc, text),
            Kind::Plain => self.take_plain(alloc, text),
            Kind::Rule => self.take_rule(alloc, text),
            Kind::Form => self.take_form(alloc, text),
            Kind::Opening | Kind::Head | Kind::End => Err(FileWhy::Order.into()),
        }
    }

    /// Takes a line after the first.
    fn take_parts(&mut self, alloc: Global, line: &[u8]) -> Result<(), TakeError>
        requires { length line.now < 2 ^ 32 }
        ensures { IsLineAnswer (take_parts_of self.old (parts_of line.now)) result self.new }
    {
        let (name, rest) = kind_and_rest(line);
        let Some(kind) = Kind::named(name) else {
            return Err(FileWhy::Order.into());
        };
        if !kind.may_come_after(self.last) {
            return Err(FileWhy::Order.into());
        }
        self.take_kind(alloc, kind, rest)
    }

    /// Takes the next line, whether a line end comes after it or not.
    pub(crate) fn take_line(
        &mut self,
        alloc: Global,
        line: &[u8],
        ended: bool,
    ) -> Result<(), TakeError>
        requires { length line.now < 2 ^ 32 }
        ensures { IsLineAnswer (take_line_of self.old (record { bytes = line.now; ended = ended })) result self.new }
    {
        if self.last == Kind::End {
            return Err(FileWhy::Trailing.into());
        }
        if !ended {
            return Err(FileWhy::NoEnd.into());
        }
        // Nearly all lines are those of forms that come after others.
        if self.last == Kind::Form {
            if let [b'f', b'o', b'r', b'm', b' ', text @ ..] = line {
                return self.take_next_form(alloc, line, text);
            }
        }
        if std::str::from_utf8(line).is_err() {
            return Err(FileWhy::NotUtf8.into());
        }
        if self.last == Kind::Opening {
            return self.take_head(line);
        }
        self.take_parts(alloc, line)
    }

    /// The rule set, the automaton of its grammar, and the trie of the forms so far, where lines of the body were told.
    fn into_parts(self, alloc: Global) -> Result<(RuleSet, Automaton, Box<StoreBuilder>), Memory>
        requires body { HasBody self.last }
        requires set { IsRuleSet (rules_told self) }
        requires limits { IsRuleSetWithinLimits (rules_told self) }
        ensures rules { IfOk result (λ parts. parts.0 ≡ rules_told self) }
        ensures automaton { IfOk result (λ parts. Recognizes parts.1 (tree_of (rules_told self))) }
        ensures phases { IfOk result (λ parts. parts.1.phases ≡ length self.names) }
        ensures forms { IfOk result (λ parts. entries_from 0 parts.2.value ≡ self.forms) }
        ensures lists { IfOk result (λ parts. length parts.2.value ≡ length self.names) }
    {
        let Told {
            last: _,
            names,
            grammar,
            automaton,
            plain,
            rules,
            forms,
            room: _,
        } = self;
        let Some(automaton) = automaton else {
            unreachable!();
        };
        let rules = Box::into_inner(rules).into_rules();
        let rules = RuleSet::new(alloc, names, grammar, plain, rules)?;
        Ok((rules, automaton, forms))
    }

    /// The rule set with the automaton of its grammar, where lines of the body were told, but no end.
    pub fn into_rules(self, alloc: Global) -> Result<(RuleSet, Automaton), Memory>
        requires body { may_follow self.last End ≡ true }
        requires set { IsRuleSet (rules_told self) }
        requires limits { IsRuleSetWithinLimits (rules_told self) }
        ensures rules { IfOk result (λ parts. parts.0 ≡ rules_told self) }
        ensures automaton { IfOk result (λ parts. Recognizes parts.1 (tree_of (rules_told self))) }
        ensures phases { IfOk result (λ parts. parts.1.phases ≡ length self.names) }
    {
        let (rules, automaton, _) = self.into_parts(alloc)?;
        Ok((rules, automaton))
    }

    /// The kind of the last line.
    pub(crate) fn last_kind(&self) -> Kind
        ensures { kind_of result ≡ self.now.last }
    {
        self.last
    }

    /// The contents of the file, whose last line was its end.
    pub(crate) fn finish(self, alloc: Global) -> Result<Contents, Memory>
        requires ended { self.last ≡ End }
        requires set { IsRuleSet (rules_told self) }
        requires limits { IsRuleSetWithinLimits (rules_told self) }
        ensures ok { IfOk result (λ contents. lexicon_of contents ≡ lexicon_told self) }
        ensures trie { IfOk result (λ contents. IsTrieOf contents.store (phases_of contents.store)) }
        ensures automaton { IfOk result (λ contents. Recognizes contents.automaton (tree_of (rules_told self))) }
        ensures phases { IfOk result (λ contents. contents.automaton.phases ≡ length contents.rules.names) }
    {
        let (rules, automaton, forms) = self.into_parts(alloc)?;
        let store = Box::into_inner(forms).finish(alloc)?;
        Ok(Contents {
            rules,
            automaton,
            store,
        })
    }
}
