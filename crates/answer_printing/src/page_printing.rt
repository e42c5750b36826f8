ghost use Rattle.std.specs.Prelude.{◌≡◌, ◌≤◌, ◌++◌, List, Some, IfOk, OnOk};
ghost use Rattle.segmentation_definitions.specs.Derivations.{Step as AnswerStep};
ghost use Rattle.segmentation_definitions.specs.Listings.{AtAnswer};
ghost use Rattle.segmentation_definitions.specs.PrintedAnswers.{printed_answer, output_line, next_number, printed_rest};
ghost use Rattle.segmenter.specs.Searches.{IsCurrent};
ghost use Rattle.answer_printing.specs.Pages.{HasPrinted, HasPrintedPage};
ghost use Rattle.answer_printing.specs.Turns.{HasTurned};

use super::AnswerPrinter;
use derivation::Step;
use outside::Steps;
use phoneme::Memory;
use search_frames::SearchGuide;
use segmentation_definitions::LAST_ANSWER_NUMBER;
use segmenter::Search;

/// Appends the line of the answer at which the search stands.
fn push_current<D: SearchGuide>(
    output: &mut Vec<u8>,
    printer: &mut AnswerPrinter,
    search: &Search<D>,
    number: u64,
) -> Result<(), Memory>
    requires rules { search.now.searched.lexicon.rules ≡ printer.old.rules }
    requires line { search.now.line.letters ≡ printer.old.letters }
    ensures unchanged { printer.new ≡ printer.old }
    ensures ok { OnOk result ((answer : List AnswerStep) → search.now.cursor ≡ AtAnswer answer
        → output.new.items ≡ output.old.items ++ output_line (printed_answer printer.old.rules number answer)) }
{
    match search.current() {
        None => Ok(()),
        Some(steps) => printer.push_answer(output, steps, number),
    }
}

/// Keeps the steps of the answer at which the search stands.
fn keep_current<D: SearchGuide>(search: &Search<D>, last: &mut Vec<Step>) -> Result<(), Memory>
    ensures ok { OnOk result ((answer : List AnswerStep) → search.now.cursor ≡ AtAnswer answer
        → IsCurrent search.now (Some last.new.items)) }
{
    let Some(steps) = search.current() else {
        return Ok(());
    };
    last.clear();
    last.extend_from_slice(steps)?;
    Ok(())
}

/// Moves to the next answer and appends its line. False where no answer is left; then nothing is appended, and the search stands
/// past the last.
fn push_next<D: SearchGuide, L>(
    output: &mut Vec<u8>,
    printer: &mut AnswerPrinter,
    search: &mut Search<D>,
    number: u64,
    steps: &mut Steps<L>,
) -> Result<bool, Memory>
    requires rules { search.old.searched.lexicon.rules ≡ printer.old.rules }
    requires line { search.old.line.letters ≡ printer.old.letters }
    ensures unchanged { printer.new ≡ printer.old }
    ensures ok { IfOk result (HasTurned search.old search.new number output.old.items output.new.items) }
{
    if !search.advance(steps) {
        return Ok(false);
    }
    push_current(output, printer, search, number)?;
    Ok(true)
}

/// The number of the next answer.
fn number_of_next(number: u64) -> u64
    requires { number ≤ LAST_ANSWER_NUMBER }
    ensures { result ≡ next_number number }
{
    LAST_ANSWER_NUMBER.min(number + 1)
}

/// The next answers that are asked for: at most `count`, the first of which has the number `number`, counted from 1.
#[derive(Clone, Copy)]
pub struct NextAnswers {
    pub number: u64,
    pub count: u32,
}

/// The last line of a list that may have been cut off: `more` where something is left, else `end`.
pub fn rest_line(more: bool) -> &'static str
    ensures { result.now ≡ printed_rest more }
{
    if more { "more\n" } else { "end\n" }
}

/// Appends the last line of a page.
fn push_rest(output: &mut Vec<u8>, more: bool) -> Result<(), Memory>
    ensures ok { OnOk result (output.new.items ≡ output.old.items ++ printed_rest more) }
{
    output.extend_from_slice(rest_line(more).as_bytes())?;
    Ok(())
}

/// Appends the answers that are asked for, after where the search stands, an answer a line with its number, and tells how many
/// these are. Where they are as many as `count`, the search then stands at the last of them, or where it stood if `count` is 0;
/// else it stands past the last answer. `last` is then the steps of the last answer that was printed; it stays as it was where no
/// answer was printed. Refused only for want of memory.
pub fn push_answers<D: SearchGuide, L>(
    output: &mut Vec<u8>,
    printer: &mut AnswerPrinter,
    search: &mut Search<D>,
    asked: NextAnswers,
    last: &mut Vec<Step>,
    steps: &mut Steps<L>,
) -> Result<u32, Memory>
    requires rules { search.old.searched.lexicon.rules ≡ printer.old.rules }
    requires line { search.old.line.letters ≡ printer.old.letters }
    requires number { asked.number ≤ LAST_ANSWER_NUMBER }
    ensures unchanged { printer.new ≡ printer.old }
    ensures ok { IfOk result (HasPrinted search.old search.new asked.number asked.count output.old.items output.new.items
        last.old.items last.new.items) }
{
    let mut next = asked.number;
    for printed in 0..asked.count {
        if !push_next(output, printer, search, next, steps)? {
            return Ok(printed);
        }
        keep_current(search, last)?;
        next = number_of_next(next);
    }
    Ok(asked.count)
}

/// Appends a page: the answers that are asked for, after where the search stands, an answer a line with its number, then `more`
/// where an answer is left and `end` where no answer is. Refused only for want of memory.
pub fn push_page<D: SearchGuide, L>(
    output: &mut Vec<u8>,
    printer: &mut AnswerPrinter,
    search: &mut Search<D>,
    asked: NextAnswers,
    steps: &mut Steps<L>,
) -> Result<(), Memory>
    requires rules { search.old.searched.lexicon.rules ≡ printer.old.rules }
    requires line { search.old.line.letters ≡ printer.old.letters }
    requires number { asked.number ≤ LAST_ANSWER_NUMBER }
    ensures unchanged { printer.new ≡ printer.old }
    ensures ok { OnOk result (HasPrintedPage search.old asked.number asked.count output.old.items output.new.items) }
{
    let mut next = asked.number;
    for _ in 0..asked.count {
        if !push_next(output, printer, search, next, steps)? {
            push_rest(output, false)?;
            return Ok(());
        }
        next = number_of_next(next);
    }
    let more = search.advance(steps);
    push_rest(output, more)?;
    Ok(())
}
