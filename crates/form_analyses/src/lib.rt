//! The analyses of a form of a phase, found by a walk along the tries, and their printed texts.
//!
//! Proved: `analyses_of_form` gives the analyses of the form in the phase, rising as the lexicon has them, and none where there is no
//! such form (`ok`); `print_analysis` gives `STEM TAG` (`ok`). Both are refused only for want of memory.
#![tactic(auto)]

mod finding;
mod printing;

pub use finding::analyses_of_form;
pub use printing::print_analysis;
