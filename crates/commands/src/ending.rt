ghost use Rattle.joiner.specs.Faults as chains;
ghost use Rattle.run_definitions.specs.Refusals.{file_refusal, text_refusal, chain_refusal};
ghost use Rattle.commands.specs.Headline.{IsNoFault};
ghost use Rattle.text_line.specs.Values.{text_fault};
ghost use Rattle.commands.specs.Ends.{Finishes, Refuses};
ghost use Rattle.commands.specs.Faults.{file_fault};

use super::refusal::{print_chain_refusal, print_file_refusal, print_text_refusal};
use super::status::{AnyFault, Status};
use command_words::PlacedWord;
use joiner::ChainFault;
use outside::{Sink, WriteError, write_all};
use phoneme::Memory;
use std::alloc::Global;
use text_line::TextFault;

/// Writes the output, and then ends with the status.
pub(crate) fn finish<O: Sink>(out: &mut O, output: &[u8], status: Status) -> Status
    requires { IsNoFault status }
    ensures { Finishes status result (O.written out.old) (O.written out.new) (O.faults out.old) (O.faults out.new) output.now }
{
    match write_all(out, output) {
        Ok(()) => status,
        Err(WriteError::Failed) => Status::WriteFault,
        Err(WriteError::Memory) => Status::Memory,
    }
}

/// Writes the refusal of the file that this word names.
pub(crate) fn refuse_file<O: Sink>(
    alloc: Global,
    word: &PlacedWord<'_>,
    fault: AnyFault,
    out: &mut O,
) -> Status
    ensures { Refuses (Status.BadFile word.now.place fault) result (O.written out.old) (O.written out.new) (O.faults out.old) (O.faults out.new) (file_refusal word.now.name.now (file_fault fault)) }
{
    match print_file_refusal(alloc, word.name, fault) {
        Ok(output) => finish(
            out,
            output.as_bytes(),
            Status::BadFile {
                word: word.place,
                fault,
            },
        ),
        Err(Memory) => Status::Memory,
    }
}

/// Writes the refusal of the text.
pub(crate) fn refuse_text<O: Sink>(alloc: Global, fault: TextFault, out: &mut O) -> Status
    ensures { Refuses (Status.BadText fault) result (O.written out.old) (O.written out.new) (O.faults out.old) (O.faults out.new) (text_refusal (text_fault fault)) }
{
    match print_text_refusal(alloc, fault) {
        Ok(output) => finish(out, output.as_bytes(), Status::BadText { fault }),
        Err(Memory) => Status::Memory,
    }
}

/// Writes the refusal of the text of a chain.
pub(crate) fn refuse_chain<O: Sink>(alloc: Global, fault: ChainFault, out: &mut O) -> Status
    ensures { Refuses (Status.BadChain fault) result (O.written out.old) (O.written out.new) (O.faults out.old) (O.faults out.new) (chain_refusal (chains.fault_of fault)) }
{
    match print_chain_refusal(alloc, fault) {
        Ok(output) => finish(out, output.as_bytes(), Status::BadChain { fault }),
        Err(Memory) => Status::Memory,
    }
}
