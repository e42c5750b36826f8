//! The spelling schemes IAST and Harvard-Kyoto, read and printed; and texts that are converted from one of six schemes to another.
//!
//! Proved of `read_iast` and `read_hk`: the word that the text spells (`ok`), or the text's first fault with its place
//! (`fault`), by the definitions of `more_scheme_definitions`; nothing else but want of memory refuses a text. Of
//! `print_iast` and `print_hk`: the spelling of the word (`ok`), which spells this word again by a law of
//! `more_scheme_definitions`. Of `convert`: the text in the other scheme (`ok`), or its first fault with the line and the place
//! (`fault`), by the definitions of `conversion_definitions`. `AnyScheme::named` answers just the scheme of a name (`named`).
#![tactic(auto)]

mod any_scheme;
mod conversion;
mod convert_error;
mod harvard_kyoto_front;
mod iast_front;
mod marks;
mod print;
mod read;
mod scheme;

pub use any_scheme::AnyScheme;
pub use conversion::convert;
pub use convert_error::{ConvertError, ConvertFault};
pub use print::{print_hk, print_iast};
pub use read::{read_hk, read_iast};
