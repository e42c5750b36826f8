//! Small cases that are followed by hand, as whole listings, summaries and pages, texts of chains, and a run of `migrate`, which show that
//! the definitions of segmentation, of chains and of runs mean what they should. Nothing rests on them.
#![tactic(auto)]

mod cases;
mod runs;
#[cfg(test)]
mod tests;

pub use cases::{
    a_blank_may_stand_inside_a_seam, a_blank_stands_at_a_seam, a_configuration_knows_the_phases,
    a_final_rule_changes_the_end, a_form_may_change_at_both_ends, a_front_ends_at_a_configuration,
    a_rule_is_limited_to_phases, a_rule_may_bar_a_chain, a_segment_may_take_no_letter,
    a_summary_has_each_item_once, an_answer_is_listed_once, an_overlap_derives_no_word,
    ca_and_iti_are_ceti, choices_are_of_items, pages_follow_one_another,
    phases_are_a_word_of_the_grammar, the_smaller_rule_is_first, the_worked_lexicons_are_lexicons,
    these_steps_derive_no_word,
};
pub use runs::{a_small_lexicon_is_migrated, lexicon_files_are_refused_by_line_and_reason};
