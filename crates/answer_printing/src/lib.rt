//! Answers and pages printed fast: what is printed of rules and phases is made once, the line is spelled once, and each answer is put
//! together from slices of these texts. The steps with which the answer before began are not printed anew. A page is printed from
//! where a search stands: at most so many answers, an answer a line, and whether one is left.
//!
//! Proved: `AnswerPrinter::push_answer` appends the printed line of the answer (`ok`), and is refused only for want of memory;
//! `RuleTexts::new` and `AnswerPrinter::new` make them for the rule set and the line that they are given (`ok`), and so does
//! `AnswerPrinter::over`, in the memory of what another printed (`ok`). `push_page` appends the printed page at the cursor of the
//! search (`ok`). `push_answers` appends the lines of the first answers after it, tells how many these are, where the search then
//! stands, and the steps of the last of them (`ok`). A caller that asks the search once more then has their page, by `page_full` or
//! `page_ended` of `proofs/PrintedPages.antt`. Both leave the printer as it was (`unchanged`), and are refused only for want of memory.
#![tactic(auto)]

mod answer_printer;
mod page_printing;
mod printed_front;
mod refusals;
mod rule_texts;
mod sharing;
mod spelled_line;

pub use answer_printer::AnswerPrinter;
pub use page_printing::{NextAnswers, push_answers, push_page, rest_line};
pub use printed_front::PrintedFront;
pub use refusals::{push_refusal, push_text_refusal};
pub use rule_texts::RuleTexts;
pub use sharing::rule_texts_are_shared;
