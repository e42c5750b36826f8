//! The frames of a search over tries (own; after the backtracking search of Huet 2005): which keys may follow at a configuration,
//! one after another in their order, and whether one leads on or ends the line. The state of a search is a value, which can
//! be kept and gone on from later (`Resumption`).
//!
//! Proved: `turn` brings a frame to its next key that leads on or ends the line, leaves out only keys with which no path begins, and
//! tells what the key does (`turn`); it begins after the key at which the frame stands, and counts a step for each phase, each letter
//! that is walked, each group of rules, each rule, each way that is kept and each question to the guide, at most `steps_of_frame` in all
//! (`steps`). A `SearchGuide` may keep, from some places, all ways that are worth a try there: each path from there begins with one of
//! them, and they rise (`ways`). `open_frame` has a frame stand at a configuration (`placed`, `place`), and `seek` brings it to a given
//! key, or answers false where the key neither leads on nor ends the line there, whatever the reader chooses (`found`, `refused`).
//! `test_key` says whether a key leads on, and where to, or ends the line, or neither (`exact`), and `test_letters` says the same as far as
//! the letters, the blanks and the choices tell, whatever the grammar says (`exact`). None of them changes what stands before its level
//! (`changes`). `Resumption::copy` gives the same in every field (`ok`). `Ahead::of` says what the line tells of every form that begins at
//! a place; `Ahead::test` says by this what `test_letters` says of a key (`exact`), `Ahead::end_by_rules` that keys which take so many letters
//! do there just what their rules do, `Ahead::lets_part_in` whether forms with the rules of a part may be entered there, and `rule_test` what
//! a rule does after so many letters, wherever the form begins.
#![tactic(auto)]

mod ahead;
mod configuration;
mod cursor;
mod frame;
mod frame_turns;
mod guiding;
mod judging;
mod letter_testing;
mod line_tests;
mod opening;
mod resumption;
mod rooms;
mod search_space;
mod seeking;
mod sharing;
mod testing;
mod turning;
mod walking;
mod way;
mod way_turns;

pub use ahead::{Ahead, is_written, may_begin, rule_test};
pub use configuration::Configuration;
pub use cursor::Cursor;
pub use frame::{Frame, NODES_OF_FRAME};
pub use frame_turns::turn;
pub use guiding::{SearchGuide, ToTry};
pub use letter_testing::{LetterTest, test_letters};
pub use opening::open_frame;
pub use resumption::Resumption;
pub use rooms::{new_stack, renewed_stack};
pub use search_space::SearchSpace;
pub use seeking::seek;
pub use sharing::resumptions_are_shared;
pub use testing::{Test, test_key};
pub use walking::supplied_letters;
pub use way::{MOST_WAYS, Way};
