//! The search for the answers of a line: it lists them one after another in their order, from any of them on (a backtracking
//! search whose stack is a value that can be kept, after Huet 2005).
//!
//! Proved: contracts see a `Search` as its lexicon, line and choices and its cursor in the listing. `new` stands before the
//! first answer (`ok`). `advance` moves to the next one (`moved`), or past the last exactly where no answer is left (`ended`), under
//! any guide that never says false of what stands in an answer; it takes no memory. `current` gives the steps of the answer at the
//! cursor (`answer`). `save` and `into_resumption` keep the cursor (`ok`), and `go_on` stands there again (`ok`). `resume`
//! stands at the answer with the given keys, or before the first where no keys are given (`over`, `at`), and answers `NotAnAnswer`
//! only where no answer has them (`not_an_answer`). `skip` moves to the least later answer whose first keys are others (`moved`),
//! or past the last exactly where there is no such answer (`ended`). Under a guide that is known to be exact, as a chart is (`known` of
//! `SearchGuide`), `advance` and `skip` take at most `advance_bound` steps (`steps`), dead ends or not: twelve times the letters of
//! the line, times the phases, times the at most 65 nodes on the way along a form, times one more than the most choices at a node.
//! A step is a child looked up in a trie, a choice looked at, or a question to the guide.
#![tactic(auto)]

mod finding;
mod keyed;
mod resuming;
mod search;
mod shown_lexicon;

pub use resuming::ResumeError;
pub use search::Search;
