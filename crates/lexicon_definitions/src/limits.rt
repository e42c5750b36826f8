/// A lexicon has at most this many phases.
pub const MOST_PHASES: usize = 16;

/// A phase's name has at most this many bytes.
pub const MOST_NAME_BYTES: usize = 16;

/// A grammar text has at most this many bytes.
pub const MOST_GRAMMAR_BYTES: usize = 1_024;

/// A grammar text has at most this many names of phases.
pub const MOST_GRAMMAR_NAMES: usize = 60;

/// A grammar has at most this many states.
pub const MOST_GRAMMAR_STATES: usize = 32;

/// A rule set has at most this many rules.
pub const MOST_RULES: usize = 4_000;

/// Each of a rule's three parts has at most this many letters.
pub const MOST_RULE_LETTERS: usize = 8;

/// The rules of a rule set have at most this many different leads.
pub const MOST_LEADS: usize = 256;

/// A form, and a stem, has at most this many letters.
pub const MOST_FORM_LETTERS: usize = 64;

/// A lexicon has at most this many pairs of a form and an analysis of it.
pub const MOST_FORM_LINES: usize = 600_000;
