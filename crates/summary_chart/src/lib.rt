//! The chart of a line (own; for the summary of Goyal and Huet 2016): of each configuration of a search, whether it stands in an
//! answer, as a set of the grammar's states for each number of letters derived and each entrance; and besides, from places that have
//! few of them, the ways on from there, while there is room. One walk along the trie in a phase, at a number of letters and an entrance,
//! serves all states there; where no choice is made it serves all phases that do the same from there, those in which the letters that the
//! rule before supplies lead to the same node and that no rule tells apart. In the pass forward it serves them also from a later letter on,
//! after which they come to the same node. What the rules of a node do after a form is found once for all
//! forms that end so, wherever they begin; where many of them may come next, once for each part of them, since nodes share parts. After a
//! letter, where a form that takes no letter of the line may be entered by some rules alone, that holds of each part by itself: by its rules
//! all may be entered, or none. And what all forms do that go on from a node along the line is kept for each node that a walk came to, so that
//! a later walk ends there. Where the ways of a place are kept its walk is not made again, neither for the chart, nor for its summary, nor by
//! a search that the chart guides. Of places that have many ways, but few that lead to an answer, these may be kept, as the pass back finds
//! them.
//!
//! Proved: a chart is a guide of a search that never says false of what stands in an answer (`guide` of `Chart::build`), and says
//! true of nothing else (`exact`). Its table has just the places that a search comes to and from which there is a path to an answer, and
//! what it keeps for places of the table are ways from there, among which is each that ends the line or leads on to a place of the table
//! (`chart`); which other ways are among them is in no clause of a chart. It is made within
//! the stated number of steps (`steps`, and `bound`), of which each phase, node, rule and way that is looked at or kept takes one. It keeps
//! one set, of four bytes and a bit, for each number of letters and entrance (`stored`), and at most one way or stop, of 24 bytes, for each
//! seven of these sets and each phase (`few`); for which places it keeps ways is in no clause. As a `SearchGuide` it tells those that it
//! keeps: in the order of their keys, with one of which each path to an answer begins (its `ways`); and what is known of it makes it exact
//! (`charts_are_exact`). Its summary has the item of each step of some answer, once and in order, and nothing else (`ok` of
//! `Chart::summary`), in a stated number of steps, of which each item takes two (`steps`, and `bound`, which is that of the chart). Threads
//! may share a chart (`charts_are_shared`).
#![tactic(auto)]

mod alike;
mod chart;
mod collected;
mod collecting;
mod gathering;
mod guiding;
mod items;
mod laws;
mod leading_states;
mod listing;
mod living_work;
mod longer;
mod memo;
mod passes;
mod place_ways;
mod room;
mod same_effect;
mod same_u;
mod sharing;
mod site;
mod sought;
mod spreading;
mod state_set;
mod state_steps;
mod summary;
mod table;
mod walk_memo;
mod walking;

pub use chart::Chart;
pub use laws::charts_are_exact;
pub use sharing::charts_are_shared;
