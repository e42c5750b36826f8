//! Texts that are converted from one of six spelling schemes to another, as definitions in `specs/`.
#![tactic(auto)]
