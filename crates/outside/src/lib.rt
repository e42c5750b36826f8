//! The outside as the program sees it: files (`Shelf`), input (`Source`) and output (`Sink`) as traits with counts of
//! faults, each as a device in memory and as an adapter over the machine; the gate before a piece of work, of which
//! nothing is claimed; and the count of steps by which costs are bounded.
//!
//! What is proved, by the names of the contracts, of every device:
//!
//! - `Shelf::read`: the first bytes under the name (`value`, `most`), or `missing`. `Shelf::write`: the new files (`ok`);
//!   after an error the others stay (`others`).
//! - `Source::read`: the next bytes (`ok`, `bound`, `end`) at the front of the buffer, and nothing else changes in it
//!   (`rest`, `buffer`); an error takes nothing (`unchanged`).
//! - `Sink::write`: the first bytes, one at least (`ok`, `some`, `bound`); an error takes nothing (`unchanged`).
//!   `write_all`: all of them (`ok`), or a prefix (`prefix`).
//! - All of them fail only where their count rose (`fault`), and a count neither falls (`never_falls`) nor rises
//!   elsewhere (`faults`, `reads`, `writes`).
//! - The devices in memory fail exactly at the calls that they are given (`failing`), and say all that a call leaves.
//! - `Steps::new` and `Steps::tick` give 0 and one more.
//!
//! The adapters tell no bytes, so no public clause shows what they do with those of a real file or stream. Their private
//! functions are proved over any reader and any writer; tests of `sandhi_program` and the scripts in `samples` show the rest. They
//! try again what a signal interrupted or what would have blocked, and keep their last fault, of which no clause speaks, for a message
//! to a person.
#![tactic(auto)]

mod disk_shelf;
mod gate;
mod input_source;
mod memory_shelf;
mod memory_sink;
mod memory_source;
mod output_sink;
mod refused;
mod replacing;
mod retrying;
mod schedule;
mod shelf;
mod sink;
mod source;
mod steps;

pub use disk_shelf::{DiskFault, DiskShelf};
pub use gate::{Gate, NoGate};
pub use input_source::InputSource;
pub use memory_shelf::MemoryShelf;
pub use memory_sink::MemorySink;
pub use memory_source::MemorySource;
pub use output_sink::OutputSink;
pub use replacing::are_one_file;
pub use shelf::{Shelf, ShelfError};
pub use sink::{Sink, WriteError, write_all};
pub use source::{Failed, Source};
pub use steps::Steps;
