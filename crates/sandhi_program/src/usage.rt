/// The name of each command, its line of usage, and what a person may want to know of it.
static COMMANDS: [(&str, &str); 12] = [
    (
        "segment",
        "segment [--in SCHEME] LEX TEXT    (SCHEME is slp1, wx, velthuis or devanagari; without it slp1)",
    ),
    ("check", "check LEX"),
    (
        "build",
        "build RULES TABLES STEMS OUT    (OUT is replaced, also where it is one of the three)",
    ),
    (
        "read",
        "read LEX    (a reading session: one command a line on standard input)",
    ),
    (
        "batch",
        "batch LEX SCHEME FILE N    (the first N answers, 1 to 1000, for each line of FILE)",
    ),
    (
        "demo",
        "demo NUMBER    (counts the answers of an input that is made from the number)",
    ),
    (
        "convert",
        "convert FROM TO FILE OUT    (a text from scheme to scheme: slp1, wx, velthuis, devanagari, iast or hk)",
    ),
    (
        "join",
        "join LEX CHAIN    (CHAIN is an answer as it is printed, without its number, in quotes)",
    ),
    (
        "split",
        "split LEX TEXT N DEPTH    (the first N answers, 1 to 1000; fronts of DEPTH steps, 1 to 8, are listed side by side)",
    ),
    (
        "annotate",
        "annotate LEX MARK OUT    (MARK is what a session writes for `mark`, in quotes; its one answer is written to OUT as a note)",
    ),
    (
        "reread",
        "reread LEX FILE    (the answer of a note that `annotate` wrote, where it still holds)",
    ),
    (
        "migrate",
        "migrate LEX OUT    (a lexicon file of any version, in the newest one)",
    ),
];

/// Whether the first word is this name.
fn is_first_word(words: &[String], name: &str) -> bool {
    match words.first() {
        Some(word) => word.as_str() == name,
        None => false,
    }
}

/// Tells a person the commands, a line each. Where the first word is the name of a command its line comes first; the others
/// always come in the same order.
pub fn tell_usage(rt: &impl Eprint, words: &[String]) {
    // Nobody is left to tell where standard error fails too; so here and below.
    let _ = eprintln!(rt; "usage:");
    for (name, line) in &COMMANDS {
        if is_first_word(words, name) {
            let _ = eprintln!(rt; "  sandhi {line}");
        }
    }
    for (name, line) in &COMMANDS {
        if !is_first_word(words, name) {
            let _ = eprintln!(rt; "  sandhi {line}");
        }
    }
    let _ = eprintln!(rt; "Words after `--` are never options.");
}
