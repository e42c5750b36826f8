ghost use Rattle.std.specs.Prelude.{◌≡◌, ℕ, IfOk};
ghost use Rattle.demo_definitions.specs.DrawnTexts.{text_of_number};
ghost use Rattle.demo_definitions.specs.SourceContents.{line_spelled};
ghost use Rattle.run_definitions.specs.DemoOutcomes.{AreDemoCounts};
ghost use Rattle.demo_counts.specs.Inputs.{AreInput, counts_told};

use crate::counting::count_answers;
use crate::draws::Draws;
use crate::sources::build;
use crate::stems::{StemText, draw_stems, stem_file};
use crate::text::draw_text;
use annotated_trie::Lexicon;
use form_file::Contents;
use lexicon_builder::BuiltLexicon;
use phoneme::{Line, Memory};
use std::alloc::Global;
use std::thread::Threads;
use text_line::{LineError, Scheme, read_line};

/// What is counted of the input of a number.
#[derive(Clone, Copy)]
pub struct DemoCounts {
    /// The different stems.
    pub stems: u32,
    /// The lines of forms of their lexicon.
    pub forms: u32,
    /// The letters of the text.
    pub letters: u32,
    /// The answers on the page of the text before the first answer, at most `DEMO_PAGE`.
    pub answers: u32,
    /// Whether an answer is left after them.
    pub more: bool,
}

/// The line of the text of a number, which has no fault.
fn read_text(alloc: Global, text: &[u8]) -> Result<Line, Memory>
    requires { (number : ℕ) × (text.now ≡ text_of_number number) }
    ensures ok { IfOk result (λ line. (number : ℕ) → text.now ≡ text_of_number number → line ≡ line_spelled number) }
{
    match read_line(alloc, Scheme::Slp1, text) {
        Ok(line) => Ok(line),
        Err(LineError::Memory) => Err(Memory),
        Err(LineError::Spell(_)) => unreachable!(),
        Err(LineError::NoLetters) => unreachable!(),
        Err(LineError::TooLong) => unreachable!(),
    }
}

/// What is counted of the stems and the text of a number.
fn count_input(
    rt: &(impl Threads + Sync),
    alloc: Global,
    stems: &[StemText],
    text: &[u8],
) -> Result<DemoCounts, Memory>
    requires { (number : ℕ) × AreInput number stems.now text.now }
    ensures ok { IfOk result (λ counts. (number : ℕ) → AreInput number stems.now text.now → AreDemoCounts number (counts_told counts)) }
{
    let bytes = stem_file(alloc, stems)?;
    let line = read_text(alloc, text)?;
    let BuiltLexicon { contents, lines } = build(rt, alloc, bytes.as_slice())?;
    let Contents {
        rules,
        automaton,
        store,
    } = contents;
    let lexicon = Lexicon::build(alloc, store, rules, automaton)?;
    let page = count_answers(alloc, &lexicon, &line)?;
    Ok(DemoCounts {
        stems: stems.len() as u32,
        forms: lines,
        letters: line.letters.len() as u32,
        answers: page.answers,
        more: page.more,
    })
}

/// Makes an input from the number, and counts what is in it: drawn stems with the rule file and the table file that all numbers
/// share, and a drawn text (own). Refused only for want of memory.
pub fn count_demo(
    rt: &(impl Threads + Sync),
    alloc: Global,
    number: u64,
) -> Result<DemoCounts, Memory>
    ensures ok { IfOk result (λ counts. AreDemoCounts number (counts_told counts)) }
{
    let mut draws = Draws::new(number);
    let stems = draw_stems(alloc, &mut draws)?;
    let text = draw_text(alloc, &mut draws, stems.as_slice())?;
    count_input(rt, alloc, stems.as_slice(), text.as_slice())
}
