//! Reading sessions, as definitions in `specs/`: what a line of the input asks for (`request_of`), what is replied to it and
//! how the session stands after it (`IsReply`), and what is written for a whole input and how the session ends (`IsSession`).
//!
//! Proved: a line has one reply at most (`a_line_has_one_reply`), lines have one list of replies
//! (`lines_have_one_list_of_replies`), and so an input has one session (`an_input_has_one_session`). What is replied to some
//! first lines begins what is written for all of them (`first_replies_begin_all_replies`). For one line and one list of choices
//! the pages up to `end` are together the listing, wherever they are cut (`pages_to_the_end_are_the_listing`), whatever other
//! replies stand between them that keep the place (`requests_between_pages_keep_the_place`); and a session prints just such replies
//! between two changes of its line or its choices (`a_session_prints_the_listing`). No state that a session reaches is past the last
//! answer (`no_state_is_past_the_last`), and what `mark` prints there is read back and resumes it (`a_mark_resumes_its_state`).
#![tactic(auto)]

mod laws;
mod limits;
mod page_laws;
mod state_laws;

pub use laws::{
    a_line_has_one_reply, an_input_has_one_session, first_replies_begin_all_replies,
    lines_have_one_list_of_replies,
};
pub use limits::{MOST_INPUT_BYTES, MOST_PAGE, MOST_SESSION_LINE_BYTES};
pub use page_laws::{
    a_session_prints_the_listing, pages_to_the_end_are_the_listing,
    requests_between_pages_keep_the_place,
};
pub use state_laws::{a_mark_resumes_its_state, no_state_is_past_the_last};
