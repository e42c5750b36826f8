ghost use Rattle.std.specs.Prelude.{◌≡◌};
ghost use Rattle.commands.specs.Headline.{exit_status};

use annotation::NoteWhy;
use derivation::Key;
use joiner::ChainFault;
use lexicon_file::FileFault;
use more_schemes::ConvertFault;
use paradigms::{StemFault, TableFault};
use rule_file::RuleFault;
use text_line::TextFault;

/// How a run ended, and with which fault.
#[derive(Drop)]
pub enum Status {
    /// All input of the command was read and all output written.
    Done,
    /// Want of memory.
    Memory,
    /// The words are not those of a command.
    Usage,
    /// A file could not be read, or is not there.
    ReadFault,
    /// The output, or the file that the command makes, could not be written.
    WriteFault,
    /// The file whose name is the word at this place, counted from 0, is refused.
    BadFile { word: u32, fault: AnyFault },
    /// The text is refused.
    BadText { fault: TextFault },
    /// The input of a session is too long, and no line of its first bytes ends the session.
    TooMuch,
    /// The text of a chain is refused.
    BadChain { fault: ChainFault },
    /// A line with its choices has no answer.
    NoAnswer,
    /// A line with its choices has several answers, of which these are the keys of the first two.
    Several { first: Vec<Key>, second: Vec<Key> },
    /// The text of a bookmark is refused.
    BadMark,
}

/// Why a file is refused: it has more than `MOST_FILE_BYTES` bytes, or a fault of its format. The fault of stems with the
/// number 0 is that the lexicon of the sources is too large.
#[derive(Clone, Copy)]
pub enum AnyFault {
    Large,
    Lexicon(FileFault),
    Rules(RuleFault),
    Tables(TableFault),
    Stems(StemFault),
    Spelling(ConvertFault),
    Note(NoteWhy),
}

impl Status {
    /// The exit status of the process: 0 for `Done`, 1 `Memory`, 2 `Usage`, 3 `ReadFault`, 4 `WriteFault`, 5 `BadFile`,
    /// 6 `BadText`, 7 `TooMuch`, 9 `BadChain`, 10 `NoAnswer`, 11 `Several` and 12 `BadMark`.
    pub fn exit_code(&self) -> u8
        ensures { result ≡ exit_status self.now }
    {
        match self {
            Status::Done => 0,
            Status::Memory => 1,
            Status::Usage => 2,
            Status::ReadFault => 3,
            Status::WriteFault => 4,
            Status::BadFile { .. } => 5,
            Status::BadText { .. } => 6,
            Status::TooMuch => 7,
            Status::BadChain { .. } => 9,
            Status::NoAnswer => 10,
            Status::Several { .. } => 11,
            Status::BadMark => 12,
        }
    }
}
