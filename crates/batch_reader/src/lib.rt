//! The lines of a text answered, each by its printed page: a block of lines at a time is answered at once, and its replies are written
//! before the next block is begun. A worker for each processor, begun by the runtime's join, takes the next portion of the block that no other has
//! taken, and reads and answers its lines.
//!
//! Proved of `Batch::serve`, over any sink: where it succeeds, the replies to all lines of the text were written, each after its
//! number, in the order of the lines (`ok`), however many threads there were; wherever it stops, a prefix of the replies to some first
//! lines was written (`prefix`); it fails only where the sink counted a fault (`fault`). `read_all` gives a reply for each of
//! some lines, in their order, and each is the page that the line has when it is answered alone by `first_page` (`ok`); both are refused
//! only for want of memory.
//!
//! A law beside them: under a chart each move of a search is within the bound that `advance` and `skip` of `segmenter` state
//! (`moves_under_a_chart_are_bounded`).
//!
//! That two lines are answered at once is only tested, in `sandhi_program`, by a gate at which the worker of the first line waits for that
//! of the second.
//! No clause speaks of the gate, of the workers, of the order in which they take portions, or of time.
#![tactic(auto)]

mod answering;
mod asked;
mod batch;
mod block;
mod bounded_moves;
mod printing;
mod replier;

pub use answering::read_all;
pub use batch::Batch;
pub use bounded_moves::moves_under_a_chart_are_bounded;
pub use replier::first_page;
