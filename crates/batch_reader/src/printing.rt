ghost use Rattle.std.specs.Prelude.{◌≡◌, ◌++◌, map, OnOk, OnErr, codes};
ghost use Rattle.std.specs.Fmt.{decimal};
ghost use Rattle.std.specs.List.{concat};
ghost use Rattle.outside.specs.Answers.{OnFailedWrite};
ghost use Rattle.outside.specs.Counts.{Rose};
ghost use Rattle.outside.specs.Told.{bytes_after, GrowsByPrefix};
ghost use Rattle.segmentation_definitions.specs.PrintedAnswers.{output_line};

use outside::{Sink, WriteError, write_all};
use phoneme::Memory;
use std::alloc::Global;

/// Appends `line I`.
pub(crate) fn push_number(alloc: Global, output: &mut Vec<u8>, number: u64) -> Result<(), Memory>
    ensures { OnOk result (output.new.items ≡ output.old.items ++ output_line (codes "line " ++ decimal number)) }
{
    output.extend_from_slice(format!(in alloc; "line {number}\n")?.as_bytes())?;
    Ok(())
}

/// Writes the replies one after another; where it stops, a prefix of them was written.
pub(crate) fn write_replies<O: Sink>(sink: &mut O, replies: &[Vec<u8>]) -> Result<(), WriteError>
    ensures ok { OnOk result (O.written sink.new ≡ bytes_after (O.written sink.old) (concat (map (λ reply. reply.items) replies.now))) }
    ensures prefix { OnErr result (GrowsByPrefix (O.written sink.old) (O.written sink.new) (concat (map (λ reply. reply.items) replies.now))) }
    ensures fault { OnFailedWrite result (Rose (O.faults sink.old) (O.faults sink.new)) }
    ensures faults { OnOk result (O.faults sink.new ≡ O.faults sink.old) }
{
    for reply in replies {
        write_all(sink, reply.as_slice())?;
    }
    Ok(())
}
