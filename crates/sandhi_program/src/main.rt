//! Yuzudeck's program: makes the devices, runs the words of the command line by `run` of `commands`, of which all is proved that the
//! program claims, and ends with the exit status. What it tells a person on standard error besides is tested, but
//! for the clauses of `Explanation::of`.
#![tactic(auto)]

mod escaped;
mod explanation;
mod notes;
mod ready_reader;
#[cfg(test)]
mod tests;
mod usage;

use commands::{Status, run};
use explanation::{Explanation, LastFaults};
use notes::tell_before;
use outside::{DiskShelf, InputSource, NoGate, OutputSink};
use phoneme::Memory;
use ready_reader::ReadyReader;
use std::env;
use std::io::{ErrorKind, Input};
use std::process::ExitCode;
use usage::tell_usage;

/// The words of the command line without the program's name. The list is empty, which is no command, where one of them is not UTF-8.
fn words_of(rt: &HostRuntime) -> Result<Vec<String>, Memory> {
    match env::args(rt) {
        Ok(args) => Ok(args.skip(1).collect(rt.alloc())?),
        Err(error) if error.kind() == ErrorKind::OutOfMemory => Err(Memory),
        Err(_not_text) => Ok(Vec::new(rt.alloc())),
    }
}

/// Tells a person on standard error what the output alone doesn't say of how the run ended.
fn tell_after(rt: &impl Eprint, words: &[String], status: &Status, faults: &LastFaults<'_>) {
    if matches!(status, Status::Usage) {
        tell_usage(rt, words);
    }
    if let Some(explanation) = Explanation::of(status, faults) {
        // Nobody is left to tell where standard error fails too.
        let _ = eprintln!(rt; "sandhi: {explanation}");
    }
}

fn main(rt: HostRuntime) -> ExitCode {
    let Ok(words) = words_of(&rt) else {
        let _ = eprintln!(rt; "sandhi: {}", Explanation::Memory);
        return ExitCode::from(Status::Memory.exit_code());
    };
    let mut shelf = DiskShelf::new(&rt);
    let mut out = OutputSink::new(&rt);
    let is_session = tell_before(&rt, &words);
    let mut input = InputSource::new(&rt, ReadyReader::new(&rt, rt.reader(), !is_session));
    let status = run(
        &rt,
        rt.alloc(),
        &words,
        &mut shelf,
        &mut input,
        &mut out,
        &NoGate,
    );
    let faults = LastFaults {
        disk: shelf.last_fault(),
        input: input.last_fault(),
        output: out.last_fault(),
    };
    tell_after(&rt, &words, &status, &faults);
    ExitCode::from(status.exit_code())
}
