ghost use Rattle.std.specs.Prelude.{◌≡◌, [], IfOk, OnOk};
ghost use Rattle.search_frames.specs.Guided.{IsGuideOf};
ghost use Rattle.search_frames.specs.Stacks.{IsStack};
ghost use Rattle.summary_chart.specs.Charts.{CoversPlace, says_of};
ghost use Rattle.summary_chart.specs.PlaceWays.{IsChartOf};
ghost use Rattle.text_line.specs.Values.{scheme_of};
ghost use Rattle.batch_reader.specs.Desks.{IsDesk};
ghost use Rattle.batch_reader.specs.Replies.{IsReadIn, IsReply, IsReplyTo, ArePortionReplies, HasReply, HasLineReply};

use super::asked::{Asked, Portion, TextLine};
use super::printing::push_number;
use annotated_trie::Lexicon;
use answer_printing::{
    AnswerPrinter, NextAnswers, PrintedFront, RuleTexts, push_page, push_text_refusal,
};
use outside::{Gate, NoGate, Steps};
use phoneme::{Line, Memory};
use reader_choices::Choices;
use search_frames::{Resumption, new_stack};
use segmenter::Search;
use std::alloc::Global;
use summary_chart::Chart;
use text_line::{TextFault, read_line};

/// What all lines are answered by: the lexicon with the texts of its rules, which are made once, the most answers of a page, and
/// the gate that each worker passes.
#[derive(Drop)]
pub(crate) struct Replier<'a, G: Gate> {
    pub lexicon: &'a Lexicon,
    pub texts: &'a RuleTexts<'a>,
    pub count: u32,
    pub gate: &'a G,
    pub ghost same_rules: { texts.now ≡ lexicon.now.lexicon.rules },
}

/// Room for a search and its printing, whose memory serves again from line to line: the stack of the search, and what was printed of the last
/// answer.
#[derive(Drop)]
pub(crate) struct SearchRoom {
    stack: Resumption,
    front: PrintedFront,
}

/// What a worker keeps from line to line: its chart, whose memory serves again, and room for a search.
#[derive(Drop)]
pub(crate) struct Desk {
    chart: Chart,
    room: SearchRoom,
}

impl Desk {
    /// A desk on which no line was read. Refused only for want of memory.
    pub fn new(alloc: Global, lexicon: &Lexicon) -> Result<Desk, Memory>
        ensures { IfOk result IsDesk }
    {
        let room = SearchRoom {
            stack: new_stack(alloc, lexicon, 0)?,
            front: PrintedFront::new(alloc),
        };
        Ok(Desk {
            chart: Chart::new(alloc),
            room,
        })
    }
}

/// The line that is read in the text, or the text's fault.
#[tactic(auto, using(text_line::proofs::FaultsTold::fault_told))]
fn read_text(alloc: Global, text: &TextLine<'_>) -> Result<Result<Line, TextFault>, Memory>
    ensures { IfOk result (IsReadIn (scheme_of text.now.scheme) text.now.bytes.now) }
{
    match read_line(alloc, text.scheme, text.bytes) {
        Ok(line) => Ok(Ok(line)),
        Err(error) => Ok(Err(error.fault()?)),
    }
}

impl<'a, G: Gate> Replier<'a, G> {
    /// Appends the page of the line's first answers, found under the chart and numbered from 1, and gives the room back.
    fn push_under(
        &self,
        alloc: Global,
        output: &mut Vec<u8>,
        line: &Line,
        choices: &Choices,
        chart: &Chart,
        room: SearchRoom,
    ) -> Result<SearchRoom, Memory>
        requires none { choices.now ≡ [] }
        requires guide { IsGuideOf self.now.lexicon.now line.now choices.now (CoversPlace chart.now.table) (says_of chart.now.table) }
        requires chart { IsChartOf self.now.lexicon.now line.now choices.now chart.now }
        requires stack { IsStack room.stack }
        ensures stack { IfOk result (λ room. IsStack room.stack) }
        ensures ok { OnOk result (HasReply self.now.lexicon.now.lexicon self.now.count line.now output.old.items output.new.items) }
    {
        let mut search = Search::over(self.lexicon, line, choices, chart, room.stack)?;
        let mut printer = AnswerPrinter::over(alloc, self.texts, line, room.front)?;
        let asked = NextAnswers {
            number: 1,
            count: self.count,
        };
        let mut steps = Steps::<()>::new();
        push_page(output, &mut printer, &mut search, asked, &mut steps)?;
        let stack = search.into_resumption();
        Ok(SearchRoom {
            stack,
            front: printer.into_front(),
        })
    }

    /// Appends the page of the line's first answers, found under the desk's chart and numbered from 1, and gives the desk back.
    fn push_page_of(
        &self,
        alloc: Global,
        output: &mut Vec<u8>,
        line: &Line,
        desk: Desk,
    ) -> Result<Desk, Memory>
        requires { IsDesk desk }
        ensures desk { IfOk result IsDesk }
        ensures ok { OnOk result (HasReply self.now.lexicon.now.lexicon self.now.count line.now output.old.items output.new.items) }
    {
        let choices = Choices::new(alloc);
        let mut steps = Steps::<()>::new();
        let chart = desk
            .chart
            .rebuilt(alloc, self.lexicon, line, &choices, &mut steps)?;
        let room = self.push_under(alloc, output, line, &choices, &chart, desk.room)?;
        Ok(Desk { chart, room })
    }

    /// Appends the reply to a line of a text, which is read first: its page, or why it is no line.
    fn push_reply(
        &self,
        alloc: Global,
        output: &mut Vec<u8>,
        text: &TextLine<'_>,
        desk: Desk,
    ) -> Result<Desk, Memory>
        requires { IsDesk desk }
        ensures desk { IfOk result IsDesk }
        ensures ok { OnOk result (HasLineReply self.now.lexicon.now.lexicon self.now.count text.now output.old.items output.new.items) }
    {
        match read_text(alloc, text)? {
            Ok(line) => self.push_page_of(alloc, output, &line, desk),
            Err(fault) => {
                push_text_refusal(alloc, output, fault)?;
                Ok(desk)
            }
        }
    }

    /// Appends the reply to each line of the portion after its number.
    fn push_replies(
        &self,
        alloc: Global,
        output: &mut Vec<u8>,
        portion: &Portion<'_>,
        desk: Desk,
    ) -> Result<Desk, Memory>
        requires none { output.old.items ≡ [] }
        requires desk { IsDesk desk }
        ensures desk { IfOk result IsDesk }
        ensures ok { OnOk result (ArePortionReplies self.now.lexicon.now.lexicon self.now.count portion.now.number portion.now.lines.now output.new.items) }
    {
        let mut desk = desk;
        let mut number = portion.number;
        for line in portion.lines {
            push_number(alloc, output, number)?;
            desk = self.push_reply(alloc, output, line, desk)?;
            number += 1;
        }
        Ok(desk)
    }

    /// The reply to what is asked, by a worker that passes the gate with its place before it begins, and the worker's desk, which is kept from line
    /// to line. Places are counted from 0.
    pub fn reply(
        &self,
        alloc: Global,
        asked: &Asked<'_>,
        place: u64,
        desk: Desk,
    ) -> Result<(Vec<u8>, Desk), Memory>
        requires { IsDesk desk }
        ensures ok { IfOk result (λ given. IsReplyTo self.now.lexicon.now.lexicon self.now.count asked.now given.0.items) }
        ensures desk { IfOk result (λ given. IsDesk given.1) }
    {
        self.gate.pass(place);
        let mut output = Vec::new(alloc);
        let kept = match asked {
            Asked::Line(line) => self.push_page_of(alloc, &mut output, line, desk)?,
            Asked::Portion(portion) => self.push_replies(alloc, &mut output, portion, desk)?,
        };
        Ok((output, kept))
    }
}

/// The printed page of the line's first answers, at most `count`, numbered from 1: the line's reply, where it is answered alone. Refused
/// only for want of memory.
pub fn first_page(
    alloc: Global,
    lexicon: &Lexicon,
    line: &Line,
    count: u32,
) -> Result<Vec<u8>, Memory>
    ensures ok { IfOk result (λ text. IsReply lexicon.now.lexicon count line.now text.items) }
{
    let texts = RuleTexts::new(alloc, lexicon.rules())?;
    let replier = Replier {
        lexicon,
        texts: &texts,
        count,
        gate: &NoGate,
    };
    let desk = Desk::new(alloc, lexicon)?;
    let mut page = Vec::new(alloc);
    replier.push_page_of(alloc, &mut page, line, desk)?;
    Ok(page)
}
