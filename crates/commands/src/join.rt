ghost use Rattle.std.specs.Prelude.{◌≡◌, ◌<◌, ◌^◌, [], ◌∷◌, length, IfOk, None, string_bytes};
ghost use Rattle.chain_definitions.specs.Chains.{IsChain};
ghost use Rattle.run_definitions.specs.JoinOutcomes.{printed_answer, IsJoinOutcome};
ghost use Rattle.command_words.specs.Meant.{word_meant};
ghost use Rattle.commands.specs.Ends.{Wrote};
ghost use Rattle.commands.specs.RunEnds.{devices, Ran};
ghost use Rattle.commands.specs.Joins.{IsPrintedJoined, WritesChain};

use super::check::print_overlap;
use super::ending::{finish, refuse_chain};
use super::opening::open_lexicon;
use super::status::Status;
use annotated_trie::Lexicon;
use command_words::JoinWords;
use joiner::{ChainError, Joined, Link, join_chain, read_chain};
use latin_schemes::print_slp1;
use outside::{Shelf, Sink};
use phoneme::Memory;
use std::alloc::Global;

/// The line that says whether the chain is an answer for the word that it derives.
fn answer_line(answer: bool) -> &'static str
    ensures { result.now ≡ printed_answer answer }
{
    if answer { "answer\n" } else { "no answer\n" }
}

/// The word that the chain derives and whether it is an answer, a line each; or the line of its first overlap.
fn print_joined(alloc: Global, lexicon: &Lexicon, links: &[Link]) -> Result<String, Memory>
    requires { IsChain lexicon.now.lexicon links.now }
    ensures ok { IfOk result (λ output. IsPrintedJoined lexicon.now.lexicon links.now (string_bytes output)) }
{
    let rules = lexicon.rules();
    match join_chain(alloc, lexicon, links)? {
        Joined::Text { word, answer } => {
            let word = print_slp1(alloc, &word)?;
            let whether = answer_line(answer);
            Ok(format!(in alloc; "text {word}\n{whether}")?)
        }
        Joined::Overlap(overlap) => print_overlap(alloc, rules, &overlap),
    }
}

/// Writes what the chain of the text is joined to, or refuses the text.
fn write_chain<O: Sink>(alloc: Global, lexicon: &Lexicon, chain: &str, out: &mut O) -> Status
    requires { length chain.now < 2 ^ 28 }
    ensures { Wrote (WritesChain chain.now lexicon.now.lexicon) result (O.written out.old) (O.written out.new) (O.faults out.old) (O.faults out.new) }
{
    let links = match read_chain(alloc, lexicon, chain.as_bytes()) {
        Ok(links) => links,
        Err(ChainError::Fault(fault)) => return refuse_chain(alloc, fault, out),
        Err(ChainError::Memory) => return Status::Memory,
    };
    match print_joined(alloc, lexicon, links.as_slice()) {
        Ok(output) => finish(out, output.as_bytes(), Status::Done),
        Err(Memory) => Status::Memory,
    }
}

/// `join LEX CHAIN`: reads the lexicon, and then the text of the chain, and writes what the chain is joined to.
pub(crate) fn run_join<H: Shelf, O: Sink>(
    alloc: Global,
    words: &JoinWords<'_>,
    shelf: &mut H,
    out: &mut O,
) -> Status
    ensures { Ran (IsJoinOutcome (word_meant words.now.lex) words.now.chain.name.now) (word_meant words.now.lex ∷ []) None result
        (devices (H.files shelf.old) (H.failed_reads shelf.old) (H.failed_writes shelf.old) (O.written out.old) (O.faults out.old))
        (devices (H.files shelf.new) (H.failed_reads shelf.new) (H.failed_writes shelf.new) (O.written out.new) (O.faults out.new)) }
{
    match open_lexicon(alloc, &words.lex, shelf, out) {
        Ok(lexicon) => write_chain(alloc, &*lexicon, words.chain.name, out),
        Err(status) => status,
    }
}
