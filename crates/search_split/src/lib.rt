//! A listing cut into parts: the answers of one front each, which is the list of the first keys of an answer. Each part can be listed
//! by itself, from the place in the search that it keeps, so several workers may list one listing at once (own).
//!
//! Proved of `split`: it gives the first fronts after that of a part, or from the first on, as many as are asked for, in the order of
//! their answers, and says whether a front is left; each part keeps a search that stands at the first answer of its front (`ok`). It is
//! refused only for want of memory. `page_split` gives the text of each answer on the page of so many before the first, after its
//! number, and says whether an answer is left, whatever the number of threads (`ok`): workers list the parts of the next 16 fronts side
//! by side, each taking one part after another, until the page is full or no front is left.
//!
//! What the workers tell one another, which part is taken and how many answers of each part are listed, only saves work: where too
//! little was listed of a part, the rest is listed when the page is put together. That two parts are listed at once is only tested, by
//! a gate at which the worker of the first part waits for that of the second. No clause speaks of the gate, of the workers or of time.
#![tactic(auto)]

mod block;
mod fronts;
mod lister;
mod listing;
mod page;
mod paging;
mod part;
mod progress;
mod splitting;
mod start;
mod starting;
mod workers;

pub use page::Page;
pub use paging::page_split;
pub use part::{Part, Parts};
pub use splitting::split;
