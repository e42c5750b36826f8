//! Rule files (own format, TOML; rules after Huet 2005): the rule set of such a file, or its first fault.
//!
//! Proved of `read`, and so of `read_rules`: the answer is the one that `IsReadAs` of `rule_file_definitions` gives the
//! bytes, the rule set (`ok`) or the first fault (`fault`), unless memory is wanting; `read` gives besides the automaton of
//! the grammar (`automaton`), over the phases of the rule set (`phases`). That a lawful file is read where memory suffices is
//! tested.
#![tactic(auto)]

mod classes;
mod contents;
mod cutting;
mod document;
mod entries;
mod entry_error;
mod error;
mod fields;
mod limits;
mod notation;
mod pattern;
mod phases;
mod plain;
mod reading;
mod rules_so_far;

pub use contents::RuleFile;
pub use error::{RuleError, RuleFault, RuleWhy};
pub use reading::{read, read_rules};
