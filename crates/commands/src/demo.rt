ghost use Rattle.std.specs.Prelude.{◌≡◌, ℕ, [], Option, None, string_bytes, IfOk};
ghost use Rattle.outside.specs.Files.{Files};
ghost use Rattle.demo_counts.specs.Inputs.{counts_told};
ghost use Rattle.run_definitions.specs.DemoOutcomes.{printed_demo, IsDemoOutcome};
ghost use Rattle.commands.specs.Demos.{IsPrintedDemo};
ghost use Rattle.commands.specs.RunEnds.{devices, Ran};

use super::ending::finish;
use super::status::Status;
use answer_printing::rest_line;
use demo_counts::{DemoCounts, count_demo};
use outside::Sink;
use phoneme::Memory;
use std::alloc::Global;
use std::thread::Threads;

/// The counts, a line each, and then whether an answer is left.
fn print_counts(alloc: Global, counts: DemoCounts) -> Result<String, Memory>
    ensures ok { IfOk result (λ output. string_bytes output ≡ printed_demo (counts_told counts)) }
{
    let DemoCounts {
        stems,
        forms,
        letters,
        answers,
        more,
    } = counts;
    let rest = rest_line(more);
    Ok(format!(in alloc;
        "stems {stems}\nforms {forms}\nletters {letters}\nanswers {answers}\n{rest}"
    )?)
}

/// What `demo` writes for the number.
fn demo(rt: &(impl Threads + Sync), alloc: Global, number: u64) -> Result<String, Memory>
    ensures ok { IfOk result (λ output. IsPrintedDemo number (string_bytes output)) }
{
    let counts = count_demo(rt, alloc, number)?;
    Ok(print_counts(alloc, counts)?)
}

/// `demo NUMBER`: makes an input from the number, and writes what is counted of it.
pub(crate) fn run_demo<O: Sink>(
    rt: &(impl Threads + Sync),
    alloc: Global,
    number: u64,
    out: &mut O,
) -> Status
    ensures { (files : Option Files) (failed_reads failed_writes : ℕ) → Ran (IsDemoOutcome number) [] None result
        (devices files failed_reads failed_writes (O.written out.old) (O.faults out.old))
        (devices files failed_reads failed_writes (O.written out.new) (O.faults out.new)) }
{
    match demo(rt, alloc, number) {
        Ok(output) => finish(out, output.as_bytes(), Status::Done),
        Err(Memory) => Status::Memory,
    }
}
