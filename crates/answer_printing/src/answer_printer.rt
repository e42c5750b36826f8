ghost use Rattle.std.specs.Prelude.{◌≡◌, ◌<◌, ◌++◌, length, IfOk, OnOk};
ghost use Rattle.segmentation_definitions.specs.PrintedAnswers.{printed_answer, output_line};
ghost use Rattle.derivation.specs.Steps.{StandIn, steps_of};

use super::RuleTexts;
use super::printed_front::PrintedFront;
use super::spelled_line::SpelledLine;
use derivation::Step;
use itoa::Buffer;
use phoneme::{Line, Memory};
use std::alloc::Global;
use std::marker::Model;

/// Prints answers of a line: its letters are spelled once, and of each answer only the steps that differ from those of the answer
/// before.
#[derive(Drop)]
pub struct AnswerPrinter<'a> {
    line: SpelledLine<'a>,
    front: PrintedFront,
}

impl<'a> Model for AnswerPrinter<'a> {
    ghost use Rattle.answer_printing.specs.Texts.{PrintedWith};
    ghost use Rattle.answer_printing.specs.Fronts.{AreStarts};

    ghost Value = { PrintedWith };

    ghost view = { λ p. p.line };

    ghost invariant = { λ p. AreStarts p.line.rules p.line.letters p.front.steps.items p.front.text.items };
}

impl<'a> AnswerPrinter<'a> {
    /// A printer of answers of the line, over the rules of these texts. Refused only for want of memory.
    pub fn new(
        alloc: Global,
        texts: &'a RuleTexts<'a>,
        line: &'a Line,
    ) -> Result<AnswerPrinter<'a>, Memory>
        ensures ok { IfOk result (λ printer. printer ≡ record { rules = texts.now; letters = line.now.letters }) }
    {
        AnswerPrinter::over(alloc, texts, line, PrintedFront::new(alloc))
    }

    /// The same in the memory of a printed front, whatever was printed.
    pub fn over(
        alloc: Global,
        texts: &'a RuleTexts<'a>,
        line: &'a Line,
        front: PrintedFront,
    ) -> Result<AnswerPrinter<'a>, Memory>
        ensures ok { IfOk result (λ printer. printer ≡ record { rules = texts.now; letters = line.now.letters }) }
    {
        let mut front = front;
        front.clear();
        Ok(AnswerPrinter {
            line: SpelledLine::new(alloc, texts, line)?,
            front,
        })
    }

    /// Its printed front, whose memory may serve for another line.
    pub fn into_front(self) -> PrintedFront {
        self.front
    }

    /// Appends the line of an answer with its number in the listing, counted from 1, and the line's end: `N: FORM[PHASE]`, then
    /// ` + FORM[PHASE]` for each further form that is joined unchanged and ` (u|v>w) FORM[PHASE]` for one after a rule; a final
    /// rule stands at the end as ` (u|>w)`. Words are in SLP1. The layout is our own. Refused only for want of memory.
    pub fn push_answer(
        &mut self,
        output: &mut Vec<u8>,
        steps: &[Step],
        number: u64,
    ) -> Result<(), Memory>
        requires stand { StandIn self.old.rules self.old.letters steps.now }
        requires some { 0 < length steps.now }
        ensures unchanged { self.new ≡ self.old }
        ensures ok { OnOk result (output.new.items ≡ output.old.items
            ++ output_line (printed_answer self.old.rules number (steps_of self.old.rules self.old.letters steps.now))) }
    {
        if let Err(error) = self.line.print_steps(&mut self.front, steps) {
            // The text of the last step may be cut off, so the next answer is printed from its first step on.
            self.front.clear();
            return Err(error);
        }
        let mut digits = Buffer::new();
        output.extend_from_slice(digits.format(number).as_bytes())?;
        output.extend_from_slice(b": ")?;
        output.extend_from_slice(self.front.text.as_slice())?;
        output.push(b'\n')?;
        Ok(())
    }
}
