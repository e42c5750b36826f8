ghost use Rattle.std.specs.Prelude.{◌≡◌, ◌+◌, ◌<◌, ◌≤◌, [], ◌∷◌, ◌++◌, length, map, IfOk, OnOk};
ghost use Rattle.segmentation_definitions.specs.PrintedAnswers.{printed_form, printed_steps};
ghost use Rattle.text_definitions.specs.Slp1.{slp1_of_word};
ghost use Rattle.lexicon_definitions.specs.Lexicons.{rule_of};
ghost use Rattle.derivation.specs.Steps.{StandIn, steps_of, step_after, letters_taken};
ghost use Rattle.answer_printing.specs.Fronts.{AreStarts, IsOpen, printed_form_and_joint, step_in};

use super::RuleTexts;
use super::printed_front::{PrintedFront, PrintedStep};
use derivation::Step;
use latin_schemes::print_slp1;
use phoneme::{Line, Memory};
use std::alloc::Global;
use std::marker::Model;

/// Appends a text that is often empty, as the `u` of a rule. Nothing is copied then, which is faster.
fn push_some(output: &mut Vec<u8>, text: &[u8]) -> Result<(), Memory>
    ensures { OnOk result (output.new.items ≡ output.old.items ++ text.now) }
{
    if text.is_empty() {
        return Ok(());
    }
    output.extend_from_slice(text)?;
    Ok(())
}

/// A line that is spelled once, with the texts of the rules: what is printed of steps of its answers is put together from both.
#[derive(Drop)]
pub(crate) struct SpelledLine<'a> {
    texts: &'a RuleTexts<'a>,
    line: &'a Line,
    spelled: String,
}

impl<'a> Model for SpelledLine<'a> {
    ghost use Rattle.std.specs.Prelude.{◌≡◌, string_bytes};
    ghost use Rattle.text_definitions.specs.Slp1.{slp1_of_word};
    ghost use Rattle.answer_printing.specs.Texts.{PrintedWith};

    ghost Value = { PrintedWith };

    ghost view = { λ s. record { rules = s.texts.now; letters = s.line.now.letters } };

    ghost invariant = { λ s. string_bytes s.spelled ≡ slp1_of_word s.line.now.letters };
}

impl<'a> SpelledLine<'a> {
    /// The line with these texts. Refused only for want of memory.
    pub(crate) fn new(
        alloc: Global,
        texts: &'a RuleTexts<'a>,
        line: &'a Line,
    ) -> Result<SpelledLine<'a>, Memory>
        ensures ok { IfOk result (λ spelled. spelled ≡ record { rules = texts.now; letters = line.now.letters }) }
    {
        Ok(SpelledLine {
            texts,
            line,
            spelled: print_slp1(alloc, &line.letters)?,
        })
    }

    /// The letters of the line that the step takes, in SLP1.
    fn spelled_letters(&self, step: &Step) -> &[u8]
        requires { step.now.at + step.now.taken ≤ length self.now.letters }
        ensures { result.now ≡ slp1_of_word (letters_taken self.now.letters step.now) }
    {
        let at = step.at as usize;
        let end = at + step.taken as usize;
        &self.spelled.as_bytes()[at..end]
    }

    /// The letters that the step takes, and before them the `v` of the rule with the number `before`; 0 stands for no rule.
    fn push_letters(&self, output: &mut Vec<u8>, before: u32, step: &Step) -> Result<(), Memory>
        requires before { before ≤ length self.now.rules.rules }
        requires within { step.now.at + step.now.taken ≤ length self.now.letters }
        ensures ok { OnOk result (output.new.items ≡ output.old.items ++ slp1_of_word ((rule_of self.now.rules before).v ++ letters_taken self.now.letters step.now)) }
    {
        push_some(output, self.texts.v(before))?;
        output.extend_from_slice(self.spelled_letters(step))?;
        Ok(())
    }

    /// `FORM[PHASE]`, for a step after the rule with the number `before`; 0 stands for no rule.
    fn push_form_and_phase(
        &self,
        output: &mut Vec<u8>,
        before: u32,
        step: &Step,
    ) -> Result<(), Memory>
        requires before { before ≤ length self.now.rules.rules }
        requires phase { step.now.phase < length self.now.rules.names }
        requires rule { step.now.rule ≤ length self.now.rules.rules }
        requires within { step.now.at + step.now.taken ≤ length self.now.letters }
        ensures ok { OnOk result (output.new.items ≡ output.old.items ++ printed_form self.now.rules (step_after self.now.rules self.now.letters before step.now)) }
    {
        self.push_letters(output, before, step)?;
        push_some(output, self.texts.u(step.rule))?;
        output.extend_from_slice(self.texts.phase(step.phase))?;
        Ok(())
    }

    /// `FORM[PHASE] + `, for a step without a rule after it.
    fn push_unchanged(&self, output: &mut Vec<u8>, before: u32, step: &Step) -> Result<(), Memory>
        requires before { before ≤ length self.now.rules.rules }
        requires phase { step.now.phase < length self.now.rules.names }
        requires rule { step.now.rule ≡ 0 }
        requires within { step.now.at + step.now.taken ≤ length self.now.letters }
        ensures ok { OnOk result (output.new.items ≡ output.old.items
            ++ printed_form_and_joint self.now.rules (step_after self.now.rules self.now.letters before step.now)) }
    {
        self.push_letters(output, before, step)?;
        output.extend_from_slice(self.texts.joined_phase(step.phase))?;
        Ok(())
    }

    /// `FORM[PHASE]` and what stands between the form and the next, for a step after the rule with the number `before`.
    fn push_form_and_joint(
        &self,
        output: &mut Vec<u8>,
        before: u32,
        step: &Step,
    ) -> Result<(), Memory>
        requires before { before ≤ length self.now.rules.rules }
        requires phase { step.now.phase < length self.now.rules.names }
        requires rule { step.now.rule ≤ length self.now.rules.rules }
        requires within { step.now.at + step.now.taken ≤ length self.now.letters }
        ensures ok { OnOk result (output.new.items ≡ output.old.items
            ++ printed_form_and_joint self.now.rules (step_after self.now.rules self.now.letters before step.now)) }
    {
        if step.rule == 0 {
            return self.push_unchanged(output, before, step);
        }
        self.push_form_and_phase(output, before, step)?;
        output.extend_from_slice(self.texts.joint(step.rule))?;
        Ok(())
    }

    /// Prints a step, after the rule with the number `before`, with what stands between it and the next.
    fn push_joined(&self, front: &mut PrintedFront, before: u32, step: &Step) -> Result<(), Memory>
        requires open { IsOpen self.now.rules self.now.letters front.old.steps.items before front.old.text.items }
        requires phase { step.now.phase < length self.now.rules.names }
        requires rule { step.now.rule ≤ length self.now.rules.rules }
        requires within { step.now.at + step.now.taken ≤ length self.now.letters }
        ensures open { OnOk result (IsOpen self.now.rules self.now.letters front.new.steps.items step.now.rule front.new.text.items) }
        ensures steps { OnOk result (map step_in front.new.steps.items ≡ map step_in front.old.steps.items ++ step.now ∷ []) }
    {
        let at = front.text.as_slice().len();
        front.steps.push(PrintedStep {
            step: *step,
            at,
            before,
        })?;
        self.push_form_and_joint(&mut front.text, before, step)?;
        Ok(())
    }

    /// Prints the last step, after the rule with the number `before`.
    fn push_last(&self, front: &mut PrintedFront, before: u32, step: &Step) -> Result<(), Memory>
        requires open { IsOpen self.now.rules self.now.letters front.old.steps.items before front.old.text.items }
        requires phase { step.now.phase < length self.now.rules.names }
        requires rule { step.now.rule ≤ length self.now.rules.rules }
        requires within { step.now.at + step.now.taken ≤ length self.now.letters }
        ensures starts { OnOk result (AreStarts self.now.rules self.now.letters front.new.steps.items front.new.text.items) }
        ensures text { OnOk result (front.new.text.items ≡ printed_steps self.now.rules (steps_of self.now.rules self.now.letters (map step_in front.old.steps.items ++ step.now ∷ []))) }
    {
        let at = front.text.as_slice().len();
        front.steps.push(PrintedStep {
            step: *step,
            at,
            before,
        })?;
        self.push_form_and_phase(&mut front.text, before, step)?;
        push_some(&mut front.text, self.texts.end(step.rule))?;
        Ok(())
    }

    /// Prints the forms with what stands between them and after the last, from what is printed of the answer before.
    pub(crate) fn print_steps(&self, front: &mut PrintedFront, steps: &[Step]) -> Result<(), Memory>
        requires starts { AreStarts self.now.rules self.now.letters front.old.steps.items front.old.text.items }
        requires stand { StandIn self.now.rules self.now.letters steps.now }
        requires some { 0 < length steps.now }
        ensures starts { OnOk result (AreStarts self.now.rules self.now.letters front.new.steps.items front.new.text.items) }
        ensures text { OnOk result (front.new.text.items ≡ printed_steps self.now.rules (steps_of self.now.rules self.now.letters steps.now)) }
    {
        let mut rule = front.keep(steps);
        let last = steps.len() - 1;
        for j in front.steps.len()..last {
            self.push_joined(front, rule, &steps[j])?;
            rule = steps[j].rule;
        }
        self.push_last(front, rule, &steps[last])?;
        Ok(())
    }
}
