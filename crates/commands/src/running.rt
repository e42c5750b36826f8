ghost use Rattle.std.specs.Prelude.{◌≡◌, ◌⊎◌, ℕ, List, [], map, string_bytes, Some, None};
ghost use Rattle.outside.specs.Counts.{Rose};
ghost use Rattle.outside.specs.Files.{Files, told_without};
ghost use Rattle.lexicon_definitions.specs.Lexicons.{Lexicon};
ghost use Rattle.run_definitions.specs.Commands.{FileWord, Read, AreWordsOf, AreOfNoCommand};
ghost use Rattle.run_definitions.specs.Commands.{DoWrite, WriteNoFile, ReadNoFile, DoReadInput, files_of, out_of};
ghost use Rattle.run_definitions.specs.ReadOutcomes.{IsToldWhereServed};
ghost use Rattle.command_words.specs.Meant.{command_meant};
ghost use Rattle.run_definitions.specs.Ends as ends;
ghost use Rattle.run_definitions.specs.LexiconTells.{Holds, DoesTell};
ghost use Rattle.run_definitions.specs.Outcomes.{Outcome, IsOutcome, IsSoFar};
ghost use Rattle.commands.specs.Headline.{WroteAll, WrotePrefix, IsNoFault, MayEndNoCommand};
ghost use Rattle.commands.specs.Faults.{TellsEnd};
ghost use Rattle.commands.specs.RunEnds.{devices};
ghost use Rattle.commands.specs.Sessions.{source_told, RanCommand};
ghost use Rattle.commands.specs.ReadFaults.{ReadsFailed, LacksFile};
ghost use Rattle.commands.specs.RepliedSoFar.{IsRepliedTo};

use super::annotate::run_annotate;
use super::batch::run_batch;
use super::check::run_check;
use super::convert::run_convert;
use super::demo::run_demo;
use super::ending::finish;
use super::join::run_join;
use super::migrate::run_migrate;
use super::read::run_read;
use super::reread::run_reread;
use super::segment::run_segment;
use super::source_files::run_build;
use super::split::run_split;
use super::status::Status;
use command_words::{Command, command_of};
use outside::{Gate, Shelf, Sink, Source};
use phoneme::Memory;
use std::alloc::Global;
use std::thread::Threads;

/// What the workers of a command are given: the threads that they run in, and the gate that each of them passes.
#[derive(Drop)]
struct Workers<'a, R, G> {
    rt: &'a R,
    gate: &'a G,
}

/// Does what the command says.
fn run_command<R: Threads + Sync, H: Shelf, I: Source, O: Sink, G: Gate + Sync>(
    workers: &Workers<'_, R, G>,
    alloc: Global,
    command: &Command<'_>,
    shelf: &mut H,
    input: &mut I,
    out: &mut O,
) -> Status
    ensures ran { RanCommand (command_meant command.now) (input.new ≡ input.old) result
        (devices (H.files shelf.old) (H.failed_reads shelf.old) (H.failed_writes shelf.old) (O.written out.old) (O.faults out.old))
        (devices (H.files shelf.new) (H.failed_reads shelf.new) (H.failed_writes shelf.new) (O.written out.new) (O.faults out.new))
        (source_told (I.left input.old) (I.faults input.old)) (source_told (I.left input.new) (I.faults input.new)) }
    ensures unused_shelf { files_of (command_meant command.now) ≡ [] → out_of (command_meant command.now) ≡ None
        → shelf.new ≡ shelf.old }
    ensures failed_reads { files_of (command_meant command.now) ≡ [] → H.failed_reads shelf.new ≡ H.failed_reads shelf.old }
{
    let rt = workers.rt;
    let gate = workers.gate;
    match command {
        Command::Segment { lex, scheme, text } => {
            run_segment(alloc, lex, *scheme, text.name, shelf, out)
        }
        Command::Check { lex } => run_check(alloc, lex, shelf, out),
        Command::Build(words) => run_build(rt, alloc, words, shelf, out),
        Command::Read { lex } => run_read(alloc, lex, shelf, input, out),
        Command::Batch(words) => run_batch(rt, alloc, words, shelf, out, gate),
        Command::Demo { number } => run_demo(rt, alloc, *number, out),
        Command::Convert(words) => run_convert(alloc, words, shelf, out),
        Command::Join(words) => run_join(alloc, words, shelf, out),
        Command::Split(words) => run_split(rt, alloc, words, shelf, out, gate),
        Command::Annotate(words) => run_annotate(alloc, words, shelf, out),
        Command::Reread(words) => run_reread(alloc, words, shelf, out),
        Command::Migrate(words) => run_migrate(alloc, words, shelf, out),
    }
}

/// Does what the words of the command line say, over the devices, and answers how the run ended. `words` are the
/// program's words without its name. `usage` and the refusals of files, texts, chains and bookmarks are written to `out`, a line each; where a
/// file is not read nothing is written. Each worker that answers a line for `batch` or a part for `split` passes the
/// gate first.
pub fn run<R: Threads + Sync, H: Shelf, I: Source, O: Sink, G: Gate + Sync>(
    rt: &R,
    alloc: Global,
    words: &Vec<String>,
    shelf: &mut H,
    input: &mut I,
    out: &mut O,
    gate: &G,
) -> Status
    // The headline: over devices that tell their content, the run wrote all the output of the outcome, left its files and ended
    // with its exit status, unless memory ran out or a device failed. The input is to be told only where a session is served.
    ensures outcome { IsNoFault result → (files : Files) (old : List ℕ) → H.files shelf.old ≡ Some files
        → O.written out.old ≡ Some old
        → IsToldWhereServed (map string_bytes words.now.items) files (I.left input.old)
        → WroteAll (IsOutcome (map string_bytes words.now.items) files (I.left input.old))
        (H.files shelf.new) old (O.written out.new) result }
    // And the fault that the status carries is the outcome's.
    ensures fault { IsNoFault result → (files : Files) (old : List ℕ) → H.files shelf.old ≡ Some files
        → O.written out.old ≡ Some old
        → IsToldWhereServed (map string_bytes words.now.items) files (I.left input.old)
        → TellsEnd (IsOutcome (map string_bytes words.now.items) files (I.left input.old)) result }
    ensures missing { result ≡ Status.ReadFault → (files : Files) (old : List ℕ) → H.files shelf.old ≡ Some files
        → O.written out.old ≡ Some old
        → ReadsFailed (map string_bytes words.now.items) (H.failed_reads shelf.old) (H.failed_reads shelf.new)
        (I.faults input.old) (I.faults input.new)
        ⊎ WroteAll (IsOutcome (map string_bytes words.now.items) files (I.left input.old))
        (H.files shelf.new) old (O.written out.new) result }

    // After a fault or want of memory, a prefix of that output: for `read` and `batch` a prefix of the replies to some first lines,
    // which begin it. Where the input of `read` was not read to its end, just the replies to the complete lines that were taken.
    ensures prefix { (files : Files) → H.files shelf.old ≡ Some files
        → IsToldWhereServed (map string_bytes words.now.items) files (I.left input.old)
        → WrotePrefix (IsSoFar (map string_bytes words.now.items) files (I.left input.old)) (O.written out.old) (O.written out.new) }
    ensures replies { result ≡ Status.ReadFault → (lex : FileWord) → AreWordsOf (Read lex) (map string_bytes words.now.items)
        → (files : Files) (bytes old : List ℕ) → H.files shelf.old ≡ Some files → I.left input.old ≡ Some bytes
        → O.written out.old ≡ Some old
        → IsRepliedTo lex files bytes old (I.left input.new) (O.written out.new) }
    ensures read_fault_output { result ≡ Status.ReadFault → (DoReadInput (map string_bytes words.now.items) → ⊥)
        → O.written out.new ≡ O.written out.old }

    // When each refusal comes.
    ensures usage { result ≡ Status.Usage → AreOfNoCommand (map string_bytes words.now.items) }
    ensures no_command { AreOfNoCommand (map string_bytes words.now.items) → MayEndNoCommand result }
    ensures read_fault { result ≡ Status.ReadFault
        → ReadsFailed (map string_bytes words.now.items) (H.failed_reads shelf.old) (H.failed_reads shelf.new)
        (I.faults input.old) (I.faults input.new)
        ⊎ LacksFile (map string_bytes words.now.items) (H.files shelf.old) }
    ensures write_fault { result ≡ Status.WriteFault → Rose (O.faults out.old) (O.faults out.new)
        ⊎ ((written : FileWord) × DoWrite (map string_bytes words.now.items) written
        × Rose (H.failed_writes shelf.old) (H.failed_writes shelf.new)) }

    // What becomes of the files: all stay but one that the words write, and this too where the outcome ends otherwise than
    // well or a file was not read. Where the output was not written, the files are those of the outcome.
    ensures files { WriteNoFile (map string_bytes words.now.items) → H.files shelf.new ≡ H.files shelf.old }
    ensures other_files { (written : FileWord) → DoWrite (map string_bytes words.now.items) written
        → told_without (H.files shelf.new) written.name ≡ told_without (H.files shelf.old) written.name }
    ensures done_files { (files : Files) (outcome : Outcome) → H.files shelf.old ≡ Some files
        → IsOutcome (map string_bytes words.now.items) files (I.left input.old) outcome → (outcome.end ≡ ends.Done → ⊥)
        → H.files shelf.new ≡ H.files shelf.old }
    ensures read_fault_files { result ≡ Status.ReadFault → H.files shelf.new ≡ H.files shelf.old }
    ensures write_fault_files { result ≡ Status.WriteFault → (written : FileWord) → DoWrite (map string_bytes words.now.items) written
        → (files : Files) → H.files shelf.old ≡ Some files
        → (Rose (H.failed_writes shelf.old) (H.failed_writes shelf.new) × (O.written out.new ≡ O.written out.old))
        ⊎ ((outcome : Outcome) × IsOutcome (map string_bytes words.now.items) files (I.left input.old) outcome
        × (H.files shelf.new ≡ Some outcome.files)) }

    // What stays: whatever the words do not use. The source stays also where `read` finds no lexicon in its file.
    ensures failed_writes { WriteNoFile (map string_bytes words.now.items)
        → H.failed_writes shelf.new ≡ H.failed_writes shelf.old }
    ensures failed_reads { ReadNoFile (map string_bytes words.now.items)
        → H.failed_reads shelf.new ≡ H.failed_reads shelf.old }
    ensures unused_shelf { ReadNoFile (map string_bytes words.now.items) → WriteNoFile (map string_bytes words.now.items)
        → shelf.new ≡ shelf.old }
    ensures input { (DoReadInput (map string_bytes words.now.items) → ⊥) → input.new ≡ input.old }
    ensures unread_input { (lex : FileWord) → AreWordsOf (Read lex) (map string_bytes words.now.items) → (files : Files)
        → H.files shelf.old ≡ Some files
        → (input.new ≡ input.old) ⊎ ((lexicon : Lexicon) × DoesTell files lex.name (Holds lexicon)) }
{
    match command_of(alloc, words.as_slice()) {
        Ok(Some(command)) => {
            let workers = Workers { rt, gate };
            run_command(&workers, alloc, &command, shelf, input, out)
        }
        Ok(None) => finish(out, b"usage\n", Status::Usage),
        Err(Memory) => Status::Memory,
    }
}
