//! The spelling schemes that are written in ASCII, SLP1, WX and Velthuis, read and printed.
//!
//! Proved of `read_slp1`, `read_slp1_over`, `read_wx` and `read_velthuis`: the word that the text spells (`ok`), or the text's first fault
//! with its place (`fault`), by the definitions of `text_definitions`; nothing else but want of memory refuses a text. Of
//! `print_slp1`, `print_wx` and `print_velthuis`: the spelling of the word (`ok`), which spells this word again by a law of
//! `text_definitions`. `push_slp1` appends what `print_slp1` prints (`ok`). Of `read_slp1_front_over`: the word that so many first bytes spell (`spelled`), after which no byte comes or one that is
//! no letter (`longest`). `SpellFault::place` is the place that the fault names.
#![tactic(auto)]

mod byte_scheme;
mod slp1;
mod spell_error;
mod spell_fault;
mod velthuis;
mod velthuis_front;
mod velthuis_print;
mod wx;

pub use slp1::{print_slp1, push_slp1, read_slp1, read_slp1_front_over, read_slp1_over};
pub use spell_error::SpellError;
pub use spell_fault::SpellFault;
pub use velthuis::read_velthuis;
pub use velthuis_print::print_velthuis;
pub use wx::{print_wx, read_wx};
