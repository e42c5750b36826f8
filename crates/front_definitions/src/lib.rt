//! The fronts of answers, by which a listing is cut into parts that stand one after another, as definitions in `specs/` with no
//! code: the front of an answer is its first keys, as many as a depth (own).
//!
//! Proved: a listing has one list of fronts, and one list of the next fronts after one (`one_list_of_fronts`); the answers of one front
//! stand together in the listing, and fronts come in the order of their answers (`answers_of_a_front_stand_together`); the next fronts
//! from the first on are the first ones of all (`next_fronts_are_front_of_list`).
#![tactic(auto)]

mod laws;

pub use laws::{
    answers_of_a_front_stand_together, next_fronts_are_front_of_list, one_list_of_fronts,
};
