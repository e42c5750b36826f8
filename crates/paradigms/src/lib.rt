//! Paradigm tables and stems, read from CSV, and the inflection of stems by tables (own format, after Huet's lexicons of
//! inflected forms).
//!
//! Proved of `read_tables` and `read_stems`: the answer is the one that `tables_of` and `stems_of` of
//! `paradigm_file_definitions` give the bytes, the content (`ok`) or the first fault (`fault`), unless memory is wanting; each
//! stem that is read has a form for each row of its class (`inflectable`), which is what `inflect` and `inflect_all` ask for.
//! Proved of `inflect`: one entry for each row, in order, by the definition of inflection (`ok`). Proved of `inflect_all`, which
//! spreads the stems over several threads: the entries of all stems, in order (`ok`). `rows` and `list` give what was read, and
//! `tables_are_shared` shows that threads may hand over and share it. That files are read and stems inflected where memory
//! suffices is tested.
#![tactic(auto)]

mod errors;
mod fields;
mod inflection;
mod reading;
mod record_error;
mod records;
mod row;
mod row_fields;
mod sharing;
mod stem;
mod stem_fields;
mod stems;
mod tables;
mod words;

pub use errors::{StemError, StemFault, StemWhy, TableError, TableFault, TableWhy};
pub use form_tags::Entry;
pub use inflection::{inflect, inflect_all};
pub use reading::{read_stems, read_tables};
pub use row::Row;
pub use sharing::tables_are_shared;
pub use stem::Stem;
pub use stems::Stems;
pub use tables::Tables;
