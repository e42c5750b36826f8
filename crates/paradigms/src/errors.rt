ghost use Rattle.std.specs.Prelude.{◌≡◌};
ghost use Rattle.paradigms.specs.declared.errors.TableError.TheVariants.{Memory as TableMemory};
ghost use Rattle.paradigms.specs.declared.errors.StemError.TheVariants.{Memory as StemMemory};

use phoneme::Memory;
use std::fmt;
use thiserror::Error;

/// Why a record of a table file is refused. The first reason in this order counts.
#[derive(Clone, Copy, Debug)]
pub enum TableWhy {
    Fields,
    Tag,
    Phase,
    Spelling,
    Limit,
    Twice,
}

impl TableWhy {
    /// The reason in words.
    fn text(self) -> &'static str {
        match self {
            TableWhy::Fields => "not the fields of a table's record",
            TableWhy::Tag => "not a tag",
            TableWhy::Phase => "not a phase",
            TableWhy::Spelling => "not SLP1",
            TableWhy::Limit => "over a limit",
            TableWhy::Twice => "twice",
        }
    }
}

impl fmt::Display for TableWhy {
    fn fmt<W: fmt::Write>(&self, f: &mut fmt::Formatter<W>) -> fmt::Result {
        f.write_str(self.text())
    }
}

impl std::error::Error for TableWhy {}

/// Why a record of a stem file is refused. The first reason in this order counts.
#[derive(Clone, Copy, Debug)]
pub enum StemWhy {
    Fields,
    Spelling,
    UnknownClass,
    Short,
    Limit,
    Twice,
}

impl StemWhy {
    /// The reason in words.
    fn text(self) -> &'static str {
        match self {
            StemWhy::Fields => "not the fields of a stem's record",
            StemWhy::Spelling => "not a stem in SLP1",
            StemWhy::UnknownClass => "not a class of the tables",
            StemWhy::Short => "too short for a row of its class",
            StemWhy::Limit => "over a limit",
            StemWhy::Twice => "twice",
        }
    }
}

impl fmt::Display for StemWhy {
    fn fmt<W: fmt::Write>(&self, f: &mut fmt::Formatter<W>) -> fmt::Result {
        f.write_str(self.text())
    }
}

impl std::error::Error for StemWhy {}

/// The first fault of a table file: its record, counted from 1, and why this is refused.
#[derive(Clone, Copy, Debug, Error)]
#[error("record {number}: {why}")]
pub struct TableFault {
    pub number: u32,
    pub why: TableWhy,
}

/// The first fault of a stem file: its record, counted from 1, and why this is refused.
#[derive(Clone, Copy, Debug, Error)]
#[error("record {number}: {why}")]
pub struct StemFault {
    pub number: u32,
    pub why: StemWhy,
}

/// Why a table file was not read.
#[derive(Clone, Copy, Debug, Error)]
pub enum TableError {
    #[error(transparent)]
    Fault(TableFault),
    #[error("out of memory")]
    Memory,
}

impl From<Memory> for TableError {
    ghost from_gives = { λ _ e. e ≡ TableMemory };

    fn from(_refused: Memory) -> TableError {
        TableError::Memory
    }
}

/// Why a stem file was not read.
#[derive(Clone, Copy, Debug, Error)]
pub enum StemError {
    #[error(transparent)]
    Fault(StemFault),
    #[error("out of memory")]
    Memory,
}

impl From<Memory> for StemError {
    ghost from_gives = { λ _ e. e ≡ StemMemory };

    fn from(_refused: Memory) -> StemError {
        StemError::Memory
    }
}
