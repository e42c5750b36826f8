ghost use Rattle.std.specs.Prelude.{◌≡◌, Some, None};
ghost use Rattle.commands.specs.declared.status.Status.TheVariants as ended;
ghost use Rattle.sandhi_program.specs.declared.explanation.Explanation.TheVariants as told;

use super::escaped::Escaped;
use commands::Status;
use outside::DiskFault;
use session_definitions::MOST_INPUT_BYTES;
use std::fmt;
use std::io::{self, ErrorKind};

/// What the devices of the machine keep of their last faults.
#[derive(Clone, Copy)]
pub struct LastFaults<'a> {
    pub disk: Option<&'a DiskFault>,
    pub input: Option<io::Error>,
    pub output: Option<io::Error>,
}

/// What a person is told on standard error of how a run ended, in one line.
#[derive(Clone, Copy)]
pub enum Explanation<'a> {
    Memory,
    UnreadFile(&'a DiskFault),
    UnreadInput(io::Error),
    UnwrittenFile(&'a DiskFault),
    UnwrittenOutput(io::Error),
    TooMuch,
}

impl<'a> Explanation<'a> {
    /// What is told of this status. Nothing is told where the output alone says enough, and where standard output is a pipe
    /// that nobody reads any more: whoever closed it has what was wanted.
    pub fn of(status: &Status, faults: &LastFaults<'a>) -> Option<Explanation<'a>>
        ensures done { status.now ≡ ended.Done → result ≡ None }
        ensures memory { status.now ≡ ended.Memory → result ≡ Some told.Memory }
        ensures too_much { status.now ≡ ended.TooMuch → result ≡ Some told.TooMuch }
    {
        match status {
            Status::Memory => Some(Explanation::Memory),
            Status::ReadFault => match faults.input {
                Some(cause) => Some(Explanation::UnreadInput(cause)),
                None => Some(Explanation::UnreadFile(faults.disk?)),
            },
            Status::WriteFault => match faults.output {
                Some(cause) if cause.kind() == ErrorKind::BrokenPipe => None,
                Some(cause) => Some(Explanation::UnwrittenOutput(cause)),
                None => Some(Explanation::UnwrittenFile(faults.disk?)),
            },
            Status::TooMuch => Some(Explanation::TooMuch),
            Status::Done
            | Status::Usage
            | Status::BadFile { .. }
            | Status::BadText { .. }
            | Status::BadChain { .. }
            | Status::NoAnswer
            | Status::Several { .. }
            | Status::BadMark => None,
        }
    }
}

impl fmt::Display for Explanation<'_> {
    fn fmt<W: fmt::Write>(&self, f: &mut fmt::Formatter<W>) -> fmt::Result {
        match self {
            Explanation::Memory => write!(f, "there was not enough memory"),
            Explanation::UnreadFile(fault) => write_fault(f, "read", fault),
            Explanation::UnreadInput(cause) => {
                write!(f, "cannot read the input: {}", Cause(*cause))
            }
            Explanation::UnwrittenFile(fault) => write_fault(f, "write", fault),
            Explanation::UnwrittenOutput(cause) => {
                write!(f, "cannot write the output: {}", Cause(*cause))
            }
            Explanation::TooMuch => {
                write!(f, "the input has more than {MOST_INPUT_BYTES} bytes")
            }
        }
    }
}

/// Writes what could not be done with a file, which file it is where this is known, and why.
fn write_fault<W: fmt::Write>(
    f: &mut fmt::Formatter<W>,
    what: &str,
    fault: &DiskFault,
) -> fmt::Result {
    match &fault.name {
        Some(name) => write!(f, "cannot {what} '{}': ", Escaped(name.as_str()))?,
        None => write!(f, "cannot {what} a file: ")?,
    }
    if fault.is_of_new_file {
        write!(f, "no new file can be made beside it: ")?;
    }
    write!(f, "{}", Cause(fault.cause))
}

/// Why a call on a file or a stream failed, in plain words where the cause is a common one.
#[derive(Clone, Copy)]
struct Cause(io::Error);

impl fmt::Display for Cause {
    fn fmt<W: fmt::Write>(&self, f: &mut fmt::Formatter<W>) -> fmt::Result {
        match plain_words(self.0.kind()) {
            Some(words) => write!(f, "{words}"),
            None => write!(f, "{}", self.0),
        }
    }
}

/// A common cause in plain words; the system's own words are kept for the others.
fn plain_words(kind: ErrorKind) -> Option<&'static str> {
    match kind {
        ErrorKind::NotFound => Some("there is no such file or folder"),
        ErrorKind::PermissionDenied => Some("permission denied"),
        ErrorKind::IsADirectory => Some("it is a folder"),
        ErrorKind::NotADirectory => Some("a part of its path is no folder"),
        ErrorKind::ReadOnlyFilesystem => Some("the disk is read-only"),
        ErrorKind::StorageFull => Some("the disk is full"),
        ErrorKind::QuotaExceeded => Some("the disk quota is used up"),
        ErrorKind::FileTooLarge => Some("the file would be too large"),
        ErrorKind::FilesystemLoop | ErrorKind::TooManyLinks => Some("too many links lead to it"),
        ErrorKind::InvalidFilename => Some("the name is too long"),
        ErrorKind::BrokenPipe => Some("nobody reads it any more"),
        ErrorKind::WriteZero => Some("it takes no byte"),
        ErrorKind::TimedOut => Some("it blocked for a day"),
        _ => None,
    }
}
