ghost use Rattle.std.specs.Prelude.{◌≡◌, ◌<◌, ◌≤◌, ◌++◌, IfOk, length, map, string_bytes};
ghost use Rattle.text_definitions.specs.Slp1.{slp1_of_word};
ghost use Rattle.lexicon_definitions.specs.Lexicons.{rule_of};
ghost use Rattle.segmentation_definitions.specs.PrintedAnswers.{name_of, printed_joint, printed_end};
ghost use Rattle.answer_printing.specs.Texts.{AreTextsOf, joined_phase_text, joint_text, phase_text, texts_of};

use latin_schemes::print_slp1;
use phoneme::Memory;
use sandhi_rules::{Rule, RuleSet, print_rule};
use std::alloc::Global;
use std::marker::Model;

/// What stands between two forms that are joined unchanged.
const JOINT: &[u8] = b" + ";

/// The texts of a rule in SLP1: its `u`, its `v`, and what stands between two forms that it joins, ` (u|v>w) `.
#[derive(Drop)]
struct RuleText {
    u: String,
    v: String,
    joint: String,
}

impl Model for RuleText {
    ghost use Rattle.std.specs.Prelude.{string_bytes};
    ghost use Rattle.answer_printing.specs.Texts.{RuleTextValue};

    ghost Value = { RuleTextValue };

    ghost view = { λ t. record { u = string_bytes t.u; v = string_bytes t.v; joint = string_bytes t.joint } };
}

/// A rule set with the texts of its rules and, as `[NAME] + `, of its phases, which are made once for all answers that are printed.
/// Most forms are joined unchanged to the next, and then what stands after the form's letters is one text.
#[derive(Drop)]
pub struct RuleTexts<'a> {
    rules: &'a RuleSet,
    texts: Vec<RuleText>,
    phases: Vec<String>,
}

impl<'a> Model for RuleTexts<'a> {
    ghost use Rattle.std.specs.Prelude.{map, string_bytes};
    ghost use Rattle.lexicon_definitions.specs.Lexicons.{RuleSet as RuleSetValue};
    ghost use Rattle.answer_printing.specs.Texts.{AreTextsOf};

    ghost Value = { RuleSetValue };

    ghost view = { λ t. t.rules.now };

    ghost invariant = { λ t. AreTextsOf t.rules.now t.texts.items (map string_bytes t.phases.items) };
}

/// What stands between two forms that the rule joins, ` (u|v>w) `.
fn print_joint(alloc: Global, rule: &Rule) -> Result<String, Memory>
    ensures { IfOk result (λ text. string_bytes text ≡ joint_text rule.now) }
{
    let notation = print_rule(alloc, rule)?;
    Ok(format!(in alloc; " ({notation}) ")?)
}

fn text_of_rule(alloc: Global, rule: &Rule) -> Result<RuleText, Memory>
    ensures { IfOk result (λ text. text ≡ texts_of rule.now) }
{
    Ok(RuleText {
        u: print_slp1(alloc, &rule.u)?,
        v: print_slp1(alloc, &rule.v)?,
        joint: print_joint(alloc, rule)?,
    })
}

fn texts_of_rules(alloc: Global, rules: &[Rule]) -> Result<Vec<RuleText>, Memory>
    ensures { IfOk result (λ texts. texts.items ≡ map texts_of rules.now) }
{
    let mut texts = Vec::with_capacity(alloc, rules.len())?;
    for rule in rules {
        texts.push(text_of_rule(alloc, rule)?)?;
    }
    Ok(texts)
}

/// `[NAME] + `, which stands after a form of the phase with this name that is joined unchanged to the next.
fn print_phase(alloc: Global, name: &str) -> Result<String, Memory>
    ensures { IfOk result (λ text. string_bytes text ≡ joined_phase_text name.now) }
{
    Ok(format!(in alloc; "[{name}] + ")?)
}

fn texts_of_phases(alloc: Global, names: &[String]) -> Result<Vec<String>, Memory>
    ensures { IfOk result (λ texts. map string_bytes texts.items ≡ map joined_phase_text (map string_bytes names.now)) }
{
    let mut texts = Vec::with_capacity(alloc, names.len())?;
    for name in names {
        texts.push(print_phase(alloc, name.as_str())?)?;
    }
    Ok(texts)
}

impl<'a> RuleTexts<'a> {
    /// The texts of the rules and the phases. Refused only for want of memory.
    pub fn new(alloc: Global, rules: &'a RuleSet) -> Result<RuleTexts<'a>, Memory>
        ensures ok { IfOk result (λ texts. texts ≡ rules.now) }
    {
        Ok(RuleTexts {
            rules,
            texts: texts_of_rules(alloc, rules.rules())?,
            phases: texts_of_phases(alloc, rules.phases())?,
        })
    }

    /// What stands between a form of the phase with this number, counted from 0, and the next where no rule joins them.
    pub(crate) fn joined_phase(&self, phase: u32) -> &[u8]
        requires { phase < length self.now.names }
        ensures { result.now ≡ phase_text (name_of self.now phase) ++ printed_joint self.now 0 }
    {
        self.phases[phase as usize].as_bytes()
    }

    /// What stands after a form of the phase with this number, counted from 0.
    pub(crate) fn phase(&self, phase: u32) -> &[u8]
        requires { phase < length self.now.names }
        ensures { result.now ≡ phase_text (name_of self.now phase) }
    {
        let joined = self.joined_phase(phase);
        &joined[..joined.len() - JOINT.len()]
    }

    /// The `u` of the rule with this number, counted from 1; empty for 0.
    pub(crate) fn u(&self, rule: u32) -> &[u8]
        requires { rule ≤ length self.now.rules }
        ensures { result.now ≡ slp1_of_word (rule_of self.now rule).u }
    {
        match rule {
            0 => &[],
            _ => self.texts[rule as usize - 1].u.as_bytes(),
        }
    }

    /// The `v` of the rule with this number, counted from 1; empty for 0.
    pub(crate) fn v(&self, rule: u32) -> &[u8]
        requires { rule ≤ length self.now.rules }
        ensures { result.now ≡ slp1_of_word (rule_of self.now rule).v }
    {
        match rule {
            0 => &[],
            _ => self.texts[rule as usize - 1].v.as_bytes(),
        }
    }

    /// What stands between two forms, by the number of the rule that joins them, counted from 1; 0 for no rule.
    pub(crate) fn joint(&self, rule: u32) -> &[u8]
        requires { rule ≤ length self.now.rules }
        ensures { result.now ≡ printed_joint self.now rule }
    {
        match rule {
            0 => JOINT,
            _ => self.texts[rule as usize - 1].joint.as_bytes(),
        }
    }

    /// What stands after the last form, by the number of its rule, counted from 1: what stands between two forms, without the blank at
    /// its end. Empty for 0.
    pub(crate) fn end(&self, rule: u32) -> &[u8]
        requires { rule ≤ length self.now.rules }
        ensures { result.now ≡ printed_end self.now rule }
    {
        if rule == 0 {
            return &[];
        }
        let joint = self.joint(rule);
        &joint[..joint.len() - 1]
    }
}
