ghost use Rattle.std.specs.Prelude.{◌≡◌, [], ◌∷◌, map, IfOk, None, string_bytes};
ghost use Rattle.run_definitions.specs.SplitOutcomes.{IsSplitOutcome};
ghost use Rattle.command_words.specs.Meant.{word_meant};
ghost use Rattle.commands.specs.Ends.{Wrote};
ghost use Rattle.commands.specs.RunEnds.{devices, Ran};
ghost use Rattle.commands.specs.Splits.{text_lines, IsPrintedSplit, WritesSplit};

use super::ending::{finish, refuse_text};
use super::opening::open_lexicon;
use super::status::Status;
use annotated_trie::Lexicon;
use answer_printing::rest_line;
use command_words::SplitWords;
use outside::{Gate, Shelf, Sink, Steps};
use phoneme::{Line, Memory};
use reader_choices::Choices;
use search_split::page_split;
use std::alloc::Global;
use std::thread::Threads;
use summary_chart::Chart;
use text_line::{Scheme, read_line};

/// The texts, a line each.
fn print_lines_of(alloc: Global, texts: &[String]) -> Result<String, Memory>
    ensures ok { IfOk result (λ output. string_bytes output ≡ text_lines (map string_bytes texts.now)) }
{
    let mut output = String::new(alloc);
    for text in texts {
        output.push_str(text.as_str())?;
        output.push_str("\n")?;
    }
    Ok(output)
}

/// The page of the line's first answers, whose parts were listed side by side, and then whether an answer is left.
fn print_split<R: Threads + Sync, G: Gate + Sync>(
    rt: &R,
    alloc: Global,
    lexicon: &Lexicon,
    line: &Line,
    words: &SplitWords<'_>,
    gate: &G,
) -> Result<String, Memory>
    ensures ok { IfOk result (λ output. IsPrintedSplit lexicon.now.lexicon line.now words.now.count (string_bytes output)) }
{
    let choices = Choices::new(alloc);
    let mut steps = Steps::<()>::new();
    let chart = Chart::build(alloc, lexicon, line, &choices, &mut steps)?;
    let page = page_split(
        rt,
        alloc,
        lexicon,
        line,
        &choices,
        &chart,
        words.depth,
        words.count,
        gate,
    )?;
    let mut output = print_lines_of(alloc, page.answers.as_slice())?;
    output.push_str(rest_line(page.more))?;
    Ok(output)
}

/// Writes the page of the text's line, or refuses the text.
fn write_split<R: Threads + Sync, O: Sink, G: Gate + Sync>(
    rt: &R,
    alloc: Global,
    lexicon: &Lexicon,
    words: &SplitWords<'_>,
    out: &mut O,
    gate: &G,
) -> Status
    ensures { Wrote (WritesSplit words.now.text.name.now words.now.count lexicon.now.lexicon) result (O.written out.old) (O.written out.new) (O.faults out.old) (O.faults out.new) }
{
    let line = match read_line(alloc, Scheme::Slp1, words.text.name.as_bytes()) {
        Ok(line) => line,
        Err(error) => match error.fault() {
            Ok(fault) => return refuse_text(alloc, fault, out),
            Err(Memory) => return Status::Memory,
        },
    };
    match print_split(rt, alloc, lexicon, &line, words, gate) {
        Ok(output) => finish(out, output.as_bytes(), Status::Done),
        Err(Memory) => Status::Memory,
    }
}

/// `split LEX TEXT N DEPTH`: reads the lexicon and the text, and writes one page of the answers, whose parts are listed side by side.
pub(crate) fn run_split<R: Threads + Sync, H: Shelf, O: Sink, G: Gate + Sync>(
    rt: &R,
    alloc: Global,
    words: &SplitWords<'_>,
    shelf: &mut H,
    out: &mut O,
    gate: &G,
) -> Status
    ensures { Ran (IsSplitOutcome (word_meant words.now.lex) words.now.text.name.now words.now.count) (word_meant words.now.lex ∷ []) None result
        (devices (H.files shelf.old) (H.failed_reads shelf.old) (H.failed_writes shelf.old) (O.written out.old) (O.faults out.old))
        (devices (H.files shelf.new) (H.failed_reads shelf.new) (H.failed_writes shelf.new) (O.written out.new) (O.faults out.new)) }
{
    match open_lexicon(alloc, &words.lex, shelf, out) {
        Ok(lexicon) => write_split(rt, alloc, &*lexicon, words, out, gate),
        Err(status) => status,
    }
}
