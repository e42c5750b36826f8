ghost use Rattle.std.specs.Prelude.{◌≡◌, ◌+◌, ◌^◌, ◌<◌, length, map, IfOk, OnOk, OnErr};
ghost use Rattle.std.specs.List.{concat};
ghost use Rattle.outside.specs.Answers.{OnFailedWrite};
ghost use Rattle.outside.specs.Counts.{Rose};
ghost use Rattle.text_line.specs.Values.{scheme_of};
ghost use Rattle.batch_reader.specs.Replies.{ArePortionReplies};
ghost use Rattle.batch_reader.specs.Serving.{WroteReplies, WroteFirstReplies};

use super::answering::answer_all;
use super::asked::TextLine;
use super::block::{cut_block, cut_portions};
use super::printing::write_replies;
use super::replier::Replier;
use annotated_trie::Lexicon;
use answer_printing::RuleTexts;
use outside::{Gate, Sink, WriteError};
use phoneme::Memory;
use std::alloc::Global;
use std::thread::Threads;
use text_line::Scheme;

/// How the lines of a text are answered: over this lexicon, in this scheme, by pages of at most `count` answers. A worker passes
/// the gate before it answers some lines that come one after another, a line alone where there are few.
#[derive(Drop)]
pub struct Batch<'a, G: Gate> {
    pub lexicon: &'a Lexicon,
    pub scheme: Scheme,
    pub count: u32,
    pub gate: &'a G,
}

impl<'a, G: Gate + Sync> Batch<'a, G> {
    /// The replies to the lines of a block, the first of which has this number: each after its number, in one or more pieces.
    fn answer_block<R: Threads + Sync>(
        &self,
        rt: &R,
        alloc: Global,
        rule_texts: &RuleTexts<'_>,
        number: u64,
        lines: &[TextLine<'_>],
    ) -> Result<Vec<Vec<u8>>, Memory>
        requires texts { rule_texts.now ≡ self.now.lexicon.now.lexicon.rules }
        requires number { number + length lines.now < 2 ^ 64 }
        ensures { IfOk result (λ pieces. ArePortionReplies self.now.lexicon.now.lexicon self.now.count number lines.now
            (concat (map (λ piece. piece.items) pieces.items))) }
    {
        let replier = Replier {
            lexicon: self.lexicon,
            texts: rule_texts,
            count: self.count,
            gate: self.gate,
        };
        let portions = cut_portions(alloc, number, lines)?;
        answer_all(rt, alloc, &replier, portions.as_slice())
    }

    /// Writes the reply to each line of the text after its number, counted from 1: the page of its first answers, or `?` and why it
    /// is no line. The text is cut at each line end; what follows the last line end is a line only where it is not empty. The replies
    /// of a block are written before the next block is begun.
    pub fn serve<R: Threads + Sync, O: Sink>(
        &self,
        rt: &R,
        alloc: Global,
        text: &[u8],
        sink: &mut O,
    ) -> Result<(), WriteError>
        requires { length text.now < 2 ^ 32 }
        ensures ok { OnOk result (WroteReplies self.now.lexicon.now.lexicon (scheme_of self.now.scheme) self.now.count text.now
            (O.written sink.old) (O.written sink.new)) }
        ensures prefix { OnErr result (WroteFirstReplies self.now.lexicon.now.lexicon (scheme_of self.now.scheme) self.now.count text.now
            (O.written sink.old) (O.written sink.new)) }
        ensures fault { OnFailedWrite result (Rose (O.faults sink.old) (O.faults sink.new)) }
    {
        let rule_texts = RuleTexts::new(alloc, self.lexicon.rules())?;
        let mut rest = text;
        let mut number = 1;
        while !rest.is_empty() {
            let (lines, following) = cut_block(alloc, self.scheme, rest)?;
            let pieces = self.answer_block(rt, alloc, &rule_texts, number, lines.as_slice())?;
            write_replies(sink, pieces.as_slice())?;
            number += lines.len() as u64;
            rest = following;
        }
        Ok(())
    }
}
