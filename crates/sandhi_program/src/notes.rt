use super::escaped::Escaped;
use command_words::{BuildWords, Command, PlacedWord, command_of};
use outside::are_one_file;
use phoneme::Memory;
use std::io::IsTerminal;

/// Tells a person what is to be known before a run: that `build` would replace one of its sources, and that `read` is loading
/// its lexicon, where a person sits at a terminal. Answers whether it is to be told when the lexicon is loaded.
pub fn tell_before(rt: &HostRuntime, words: &[String]) -> bool {
    let command = match command_of(rt.alloc(), words) {
        Ok(Some(command)) => command,
        // The run itself refuses words of no command, and tells where memory is wanting.
        Ok(None) | Err(Memory) => return false,
    };
    match command {
        Command::Build(words) => {
            warn_of_sources(rt, &words);
            false
        }
        Command::Read { lex } if rt.stdin().is_terminal() && rt.stderr().is_terminal() => {
            let _ = eprintln!(rt; "sandhi: loading '{}'", Escaped(lex.name));
            true
        }
        _ => false,
    }
}

/// A line for each source that is the file to be written, whatever their names are.
fn warn_of_sources(rt: &HostRuntime, words: &BuildWords<'_>) {
    for source in [words.rules, words.tables, words.stems] {
        warn_of_source(rt, source, words.out);
    }
}

fn warn_of_source(rt: &HostRuntime, source: PlacedWord<'_>, out: PlacedWord<'_>) {
    if are_one_file(rt, source.name, out.name) {
        let _ = eprintln!(rt;
            "sandhi: OUT is the source '{}' too, which the lexicon will replace",
            Escaped(source.name)
        );
    }
}
