//! Each node of a trie with its choices, the rules whose `u` leads from the node to a form's end (the choice points of Huet
//! 2005); and a lexicon as it is searched, with the automaton of its grammar and the tries of its forms.
//!
//! Proved: contracts see an `Annotated` as the trie and the choices of each node. `annotate` gives each node just the rules that
//! are its choices, rising (`ok`); `choice_count`, `choice` and `most_choices` read them, and `choices_with` those whose `w` begins
//! with a letter (`value`). `choice` and `choices_with` take one step (`steps`). Nodes with the same `list_number` have the same choices
//! (`same`). The choices of a node are just the rules of its `parts`, as `rules_of_part` tells them (`value`), no rule is in two of
//! these, and the rules of one have one `u` (`parts` and `one_u` of `IsAnnotatedTrie`). A `Lexicon` is always that of its rules, forms and
//! automaton, which is its invariant (`searched` of `rules`); threads may share it (`lexicons_are_shared`). Of phases that no rule tells
//! apart, it tells the first (`alike` and `first` of `alike_phase`).
#![tactic(auto)]

mod alike_phases;
mod annotated;
mod annotating;
mod groups;
mod lexicon;
mod node_choices;
mod node_suffixes;
mod rule_groups;
mod rule_lists;
mod rule_parts;
mod sharing;
mod suffixes;

pub use annotated::Annotated;
pub use annotating::annotate;
pub use lexicon::Lexicon;
pub use sharing::lexicons_are_shared;
