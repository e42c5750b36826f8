ghost use Rattle.std.specs.Prelude.{◌≡◌, ◌≤◌, ◌↔◌, List, ℕ, codes, length, map, string_bytes, All, IsTrue, IfSome, IfNone, IfOk};
ghost use Rattle.run_definitions.specs.declared.limits.TheConstants.{MOST_WORD_BYTES};
ghost use Rattle.run_definitions.specs.Commands.{Command as DefinedCommand, AreWordsOf, AreOfNoCommand, GiveScheme, Takes, name_of_command};
ghost use Rattle.text_definitions.specs.Schemes as defined;
ghost use Rattle.text_line.specs.Values.{scheme_of};
ghost use Rattle.command_words.specs.Meant.{command_meant, given_meant};

use super::annotate_words::AnnotateWords;
use super::batch_words::BatchWords;
use super::build_words::BuildWords;
use super::convert_words::ConvertWords;
use super::demo_number::demo_number_of;
use super::given::{Given, given_of};
use super::join_words::JoinWords;
use super::migrate_words::MigrateWords;
use super::placed_word::PlacedWord;
use super::reread_words::RereadWords;
use super::split_words::SplitWords;
use more_schemes::AnyScheme;
use phoneme::Memory;
use run_definitions::{MOST_SPLIT_DEPTH, MOST_WORD_BYTES};
use session_definitions::MOST_PAGE;
use std::alloc::Global;
use text_line::{Scheme, count_up_to};

/// A command with its arguments.
#[derive(Clone, Copy)]
pub enum Command<'a> {
    /// The lexicon file, the scheme of the text, and the text.
    Segment {
        lex: PlacedWord<'a>,
        scheme: Scheme,
        text: PlacedWord<'a>,
    },
    /// The lexicon file.
    Check {
        lex: PlacedWord<'a>,
    },
    /// The three source files, and the file to write.
    Build(BuildWords<'a>),
    /// The lexicon file.
    Read {
        lex: PlacedWord<'a>,
    },
    /// The lexicon file, the text file with its scheme, and the size of a page.
    Batch(BatchWords<'a>),
    /// The number from which an input is made.
    Demo {
        number: u64,
    },
    /// The two schemes, the text file, and the file to write.
    Convert(ConvertWords<'a>),
    /// The lexicon file, and the text of a chain.
    Join(JoinWords<'a>),
    /// The lexicon file, the text, the size of the page, and the depth to which the search is divided.
    Split(SplitWords<'a>),
    /// The lexicon file, the text of a bookmark, and the file to write.
    Annotate(AnnotateWords<'a>),
    /// The lexicon file, and the file of a note.
    Reread(RereadWords<'a>),
    /// The lexicon file, and the file to write.
    Migrate(MigrateWords<'a>),
}

/// Whether no word is too long.
fn are_within_limit(words: &[String]) -> bool
    ensures { IsTrue result ↔ All (λ word. length (string_bytes word) ≤ MOST_WORD_BYTES) words.now }
{
    for word in words {
        if word.len() > MOST_WORD_BYTES {
            return false;
        }
    }
    true
}

/// The scheme that the values of `--in` give.
fn scheme_given(values: &[&str]) -> Option<Scheme>
    ensures some { IfSome result (λ scheme. GiveScheme (map (λ value. value.now) values.now) (scheme_of scheme)) }
    ensures none { IfNone result ((scheme : defined.Scheme) → GiveScheme (map (λ value. value.now) values.now) scheme → ⊥) }
{
    match values {
        [] => Some(Scheme::Slp1),
        [value] => Scheme::named(value.as_bytes()),
        [_, _, ..] => None,
    }
}

/// `segment` with what is given.
fn segment_with<'a>(given: &Given<'a>) -> Option<Command<'a>>
    ensures some { IfSome result (λ command. (name_of_command (command_meant command) ≡ codes "segment")
        × Takes (command_meant command) (given_meant given.now).values (given_meant given.now).arguments) }
    ensures none { IfNone result ((command : DefinedCommand) → name_of_command command ≡ codes "segment"
        → Takes command (given_meant given.now).values (given_meant given.now).arguments → ⊥) }
{
    match (given.values.as_slice(), given.arguments.as_slice()) {
        (values, [lex, text]) => Some(Command::Segment {
            lex: *lex,
            scheme: scheme_given(values)?,
            text: *text,
        }),
        _ => None,
    }
}

/// `check` with what is given.
fn check_with<'a>(given: &Given<'a>) -> Option<Command<'a>>
    ensures some { IfSome result (λ command. (name_of_command (command_meant command) ≡ codes "check")
        × Takes (command_meant command) (given_meant given.now).values (given_meant given.now).arguments) }
    ensures none { IfNone result ((command : DefinedCommand) → name_of_command command ≡ codes "check"
        → Takes command (given_meant given.now).values (given_meant given.now).arguments → ⊥) }
{
    match (given.values.as_slice(), given.arguments.as_slice()) {
        ([], [lex]) => Some(Command::Check { lex: *lex }),
        _ => None,
    }
}

/// `build` with what is given.
fn build_with<'a>(given: &Given<'a>) -> Option<Command<'a>>
    ensures some { IfSome result (λ command. (name_of_command (command_meant command) ≡ codes "build")
        × Takes (command_meant command) (given_meant given.now).values (given_meant given.now).arguments) }
    ensures none { IfNone result ((command : DefinedCommand) → name_of_command command ≡ codes "build"
        → Takes command (given_meant given.now).values (given_meant given.now).arguments → ⊥) }
{
    match (given.values.as_slice(), given.arguments.as_slice()) {
        ([], [rules, tables, stems, out]) => Some(Command::Build(BuildWords {
            rules: *rules,
            tables: *tables,
            stems: *stems,
            out: *out,
        })),
        _ => None,
    }
}

/// `read` with what is given.
fn read_with<'a>(given: &Given<'a>) -> Option<Command<'a>>
    ensures some { IfSome result (λ command. (name_of_command (command_meant command) ≡ codes "read")
        × Takes (command_meant command) (given_meant given.now).values (given_meant given.now).arguments) }
    ensures none { IfNone result ((command : DefinedCommand) → name_of_command command ≡ codes "read"
        → Takes command (given_meant given.now).values (given_meant given.now).arguments → ⊥) }
{
    match (given.values.as_slice(), given.arguments.as_slice()) {
        ([], [lex]) => Some(Command::Read { lex: *lex }),
        _ => None,
    }
}

/// `batch` with what is given.
fn batch_with<'a>(given: &Given<'a>) -> Option<Command<'a>>
    ensures some { IfSome result (λ command. (name_of_command (command_meant command) ≡ codes "batch")
        × Takes (command_meant command) (given_meant given.now).values (given_meant given.now).arguments) }
    ensures none { IfNone result ((command : DefinedCommand) → name_of_command command ≡ codes "batch"
        → Takes command (given_meant given.now).values (given_meant given.now).arguments → ⊥) }
{
    match (given.values.as_slice(), given.arguments.as_slice()) {
        ([], [lex, scheme, file, count]) => {
            let scheme = Scheme::named(scheme.name.as_bytes())?;
            let count = count_up_to(4, MOST_PAGE, count.name.as_bytes())?;
            Some(Command::Batch(BatchWords {
                lex: *lex,
                scheme,
                file: *file,
                count,
            }))
        }
        _ => None,
    }
}

/// `demo` with what is given.
fn demo_with<'a>(given: &Given<'a>) -> Option<Command<'a>>
    ensures some { IfSome result (λ command. (name_of_command (command_meant command) ≡ codes "demo")
        × Takes (command_meant command) (given_meant given.now).values (given_meant given.now).arguments) }
    ensures none { IfNone result ((command : DefinedCommand) → name_of_command command ≡ codes "demo"
        → Takes command (given_meant given.now).values (given_meant given.now).arguments → ⊥) }
{
    match (given.values.as_slice(), given.arguments.as_slice()) {
        ([], [word]) => Some(Command::Demo {
            number: demo_number_of(word.name)?,
        }),
        _ => None,
    }
}

/// `convert` with what is given.
fn convert_with<'a>(given: &Given<'a>) -> Option<Command<'a>>
    ensures some { IfSome result (λ command. (name_of_command (command_meant command) ≡ codes "convert")
        × Takes (command_meant command) (given_meant given.now).values (given_meant given.now).arguments) }
    ensures none { IfNone result ((command : DefinedCommand) → name_of_command command ≡ codes "convert"
        → Takes command (given_meant given.now).values (given_meant given.now).arguments → ⊥) }
{
    match (given.values.as_slice(), given.arguments.as_slice()) {
        ([], [input, output, file, out]) => {
            let input = AnyScheme::named(input.name.as_bytes())?;
            let output = AnyScheme::named(output.name.as_bytes())?;
            Some(Command::Convert(ConvertWords {
                input,
                output,
                file: *file,
                out: *out,
            }))
        }
        _ => None,
    }
}

/// `join` with what is given.
fn join_with<'a>(given: &Given<'a>) -> Option<Command<'a>>
    ensures some { IfSome result (λ command. (name_of_command (command_meant command) ≡ codes "join")
        × Takes (command_meant command) (given_meant given.now).values (given_meant given.now).arguments) }
    ensures none { IfNone result ((command : DefinedCommand) → name_of_command command ≡ codes "join"
        → Takes command (given_meant given.now).values (given_meant given.now).arguments → ⊥) }
{
    match (given.values.as_slice(), given.arguments.as_slice()) {
        ([], [lex, chain]) => Some(Command::Join(JoinWords {
            lex: *lex,
            chain: *chain,
        })),
        _ => None,
    }
}

/// `split` with what is given.
fn split_with<'a>(given: &Given<'a>) -> Option<Command<'a>>
    ensures some { IfSome result (λ command. (name_of_command (command_meant command) ≡ codes "split")
        × Takes (command_meant command) (given_meant given.now).values (given_meant given.now).arguments) }
    ensures none { IfNone result ((command : DefinedCommand) → name_of_command command ≡ codes "split"
        → Takes command (given_meant given.now).values (given_meant given.now).arguments → ⊥) }
{
    match (given.values.as_slice(), given.arguments.as_slice()) {
        ([], [lex, text, count, depth]) => {
            let count = count_up_to(4, MOST_PAGE, count.name.as_bytes())?;
            let depth = count_up_to(1, MOST_SPLIT_DEPTH, depth.name.as_bytes())?;
            Some(Command::Split(SplitWords {
                lex: *lex,
                text: *text,
                count,
                depth,
            }))
        }
        _ => None,
    }
}

/// `annotate` with what is given.
fn annotate_with<'a>(given: &Given<'a>) -> Option<Command<'a>>
    ensures some { IfSome result (λ command. (name_of_command (command_meant command) ≡ codes "annotate")
        × Takes (command_meant command) (given_meant given.now).values (given_meant given.now).arguments) }
    ensures none { IfNone result ((command : DefinedCommand) → name_of_command command ≡ codes "annotate"
        → Takes command (given_meant given.now).values (given_meant given.now).arguments → ⊥) }
{
    match (given.values.as_slice(), given.arguments.as_slice()) {
        ([], [lex, mark, out]) => Some(Command::Annotate(AnnotateWords {
            lex: *lex,
            mark: *mark,
            out: *out,
        })),
        _ => None,
    }
}

/// `reread` with what is given.
fn reread_with<'a>(given: &Given<'a>) -> Option<Command<'a>>
    ensures some { IfSome result (λ command. (name_of_command (command_meant command) ≡ codes "reread")
        × Takes (command_meant command) (given_meant given.now).values (given_meant given.now).arguments) }
    ensures none { IfNone result ((command : DefinedCommand) → name_of_command command ≡ codes "reread"
        → Takes command (given_meant given.now).values (given_meant given.now).arguments → ⊥) }
{
    match (given.values.as_slice(), given.arguments.as_slice()) {
        ([], [lex, file]) => Some(Command::Reread(RereadWords {
            lex: *lex,
            file: *file,
        })),
        _ => None,
    }
}

/// `migrate` with what is given.
fn migrate_with<'a>(given: &Given<'a>) -> Option<Command<'a>>
    ensures some { IfSome result (λ command. (name_of_command (command_meant command) ≡ codes "migrate")
        × Takes (command_meant command) (given_meant given.now).values (given_meant given.now).arguments) }
    ensures none { IfNone result ((command : DefinedCommand) → name_of_command command ≡ codes "migrate"
        → Takes command (given_meant given.now).values (given_meant given.now).arguments → ⊥) }
{
    match (given.values.as_slice(), given.arguments.as_slice()) {
        ([], [lex, out]) => Some(Command::Migrate(MigrateWords {
            lex: *lex,
            out: *out,
        })),
        _ => None,
    }
}

/// The command of this name that takes what is given.
fn command_with<'a>(name: &str, given: &Given<'a>) -> Option<Command<'a>>
    ensures some { IfSome result (λ command. (name.now ≡ name_of_command (command_meant command))
        × Takes (command_meant command) (given_meant given.now).values (given_meant given.now).arguments) }
    ensures none { IfNone result ((command : DefinedCommand) → name.now ≡ name_of_command command
        → Takes command (given_meant given.now).values (given_meant given.now).arguments → ⊥) }
{
    match name {
        "segment" => segment_with(given),
        "check" => check_with(given),
        "build" => build_with(given),
        "read" => read_with(given),
        "batch" => batch_with(given),
        "demo" => demo_with(given),
        "convert" => convert_with(given),
        "join" => join_with(given),
        "split" => split_with(given),
        "annotate" => annotate_with(given),
        "reread" => reread_with(given),
        "migrate" => migrate_with(given),
        _ => None,
    }
}

/// The command that the words give, with its arguments, if they give one.
pub fn command_of(alloc: Global, words: &[String]) -> Result<Option<Command<'_>>, Memory>
    ensures command { IfOk result (λ read. IfSome read (λ command. AreWordsOf (command_meant command) (map string_bytes words.now))) }
    ensures none { IfOk result (λ read. IfNone read (AreOfNoCommand (map string_bytes words.now))) }
{
    let [name, following @ ..] = words else {
        return Ok(None);
    };
    if following.len() >= u32::MAX as usize {
        return Ok(None);
    }
    if !are_within_limit(following) {
        return Ok(None);
    }
    match given_of(alloc, following)? {
        Some(given) => Ok(command_with(name.as_str(), &given)),
        None => Ok(None),
    }
}
