ghost use Rattle.std.specs.Prelude.{◌≡◌, ◌≤◌, [], ◌∷◌, ◌++◌, length, All, IfOk, OnOk, None, string_bytes};
ghost use Rattle.lexicon_definitions.specs.Rules.{printed_rule};
ghost use Rattle.lexicon_definitions.specs.declared.limits.TheConstants.{MOST_FORM_LINES};
ghost use Rattle.lexicon_definitions.specs.Lexicons.{rule_of};
ghost use Rattle.lexicon_definitions.specs.Limits.{count_lines};
ghost use Rattle.trie_text_definitions.specs.TrieForms.{phases_of, count_pairs as count_pairs_of};
ghost use Rattle.segmentation_definitions.specs.Derivations.{IsRuleNumber};
ghost use Rattle.segmentation_definitions.specs.PrintedAnswers.{output_line};
ghost use Rattle.form_file.specs.Contents.{lexicon_of};
ghost use Rattle.run_definitions.specs.Overlaps.{AreFirstOverlaps, printed_counts, printed_overlap, printed_overlaps};
ghost use Rattle.run_definitions.specs.CheckOutcomes.{IsCheckOutcome};
ghost use Rattle.command_words.specs.Meant.{word_meant};
ghost use Rattle.commands.specs.Ends.{Wrote};
ghost use Rattle.commands.specs.RunEnds.{devices, Ran};
ghost use Rattle.commands.specs.LexiconFiles.{IsBuildable};
ghost use Rattle.commands.specs.Checks.{CanBePrinted, IsPrintedCheck, WritesCheck};

use super::ending::finish;
use super::opening::open_contents;
use super::status::Status;
use answer_printing::rest_line;
use command_words::PlacedWord;
use latin_schemes::print_slp1;
use lexicon_file::Contents;
use outside::{Shelf, Sink};
use phoneme::Memory;
use run_definitions::CHECK_OVERLAPS;
use sandhi_rules::{RuleSet, print_rule};
use shared_trie::Store;
use std::alloc::Global;
use strictness::{Overlap, overlaps};
use trie_checks::count_pairs;

/// The first overlaps of a lexicon, and whether one is left after them.
#[derive(Drop)]
struct FirstOverlaps {
    overlaps: Vec<Overlap>,
    more: bool,
}

/// The first overlaps of a lexicon. One more is asked for than may be printed, so that it is known whether one is left.
fn first_overlaps(alloc: Global, rules: &RuleSet, store: &Store) -> Result<FirstOverlaps, Memory>
    requires { length store.now.roots ≡ length rules.now.names }
    ensures ok { IfOk result (λ found. AreFirstOverlaps (record { rules = rules.now; phases = phases_of store.now }) CHECK_OVERLAPS found.overlaps.items found.more) }
{
    let mut overlaps = overlaps(alloc, store, rules, CHECK_OVERLAPS + 1)?;
    let more = overlaps.len() > CHECK_OVERLAPS as usize;
    overlaps.truncate(CHECK_OVERLAPS as usize);
    Ok(FirstOverlaps { overlaps, more })
}

/// The notation of the rule with this number, counted from 1.
fn print_rule_of(alloc: Global, rules: &RuleSet, number: u32) -> Result<String, Memory>
    requires { IsRuleNumber rules.now number }
    ensures ok { IfOk result (λ text. string_bytes text ≡ printed_rule (rule_of rules.now number)) }
{
    match rules.rule(number) {
        Some(rule) => print_rule(alloc, rule),
        None => Ok(String::new(alloc)),
    }
}

/// The line of an overlap.
pub(crate) fn print_overlap(
    alloc: Global,
    rules: &RuleSet,
    overlap: &Overlap,
) -> Result<String, Memory>
    requires { CanBePrinted rules.now overlap.now }
    ensures ok { IfOk result (λ text. string_bytes text ≡ output_line (printed_overlap rules.now overlap.now)) }
{
    let phase = rules.phases()[overlap.phase as usize].as_str();
    let form = print_slp1(alloc, &overlap.form)?;
    let before = print_rule_of(alloc, rules, overlap.before)?;
    let after = print_rule_of(alloc, rules, overlap.after)?;
    Ok(format!(in alloc; "overlap {phase} {form} {before} {after}\n")?)
}

/// Appends the lines of the overlaps.
fn push_overlaps(
    alloc: Global,
    output: &mut String,
    rules: &RuleSet,
    overlaps: &[Overlap],
) -> Result<(), Memory>
    requires { All (CanBePrinted rules.now) overlaps.now }
    ensures ok { OnOk result (string_bytes output.new ≡ string_bytes output.old ++ printed_overlaps rules.now overlaps.now) }
{
    for overlap in overlaps {
        let line = print_overlap(alloc, rules, overlap)?;
        output.push_str(line.as_str())?;
    }
    Ok(())
}

/// How many lines of forms the lexicon has: as many as its trie has pairs of a form and a delta.
fn count_forms(alloc: Global, store: &Store) -> Result<u32, Memory>
    requires pairs { count_pairs_of store.now ≡ count_lines (phases_of store.now) }
    requires few { count_lines (phases_of store.now) ≤ MOST_FORM_LINES }
    ensures ok { IfOk result (λ count. count ≡ count_lines (phases_of store.now)) }
{
    let count = count_pairs(alloc, store)?;
    Ok(count)
}

/// The lines that say how many phases, rules and form lines the lexicon has.
fn print_counts(alloc: Global, rules: &RuleSet, store: &Store) -> Result<String, Memory>
    requires pairs { count_pairs_of store.now ≡ count_lines (phases_of store.now) }
    requires few { count_lines (phases_of store.now) ≤ MOST_FORM_LINES }
    ensures ok { IfOk result (λ text. string_bytes text ≡ printed_counts (record { rules = rules.now; phases = phases_of store.now })) }
{
    let phases = rules.phases().len();
    let count = rules.rules().len();
    let forms = count_forms(alloc, store)?;
    Ok(format!(in alloc; "phases {phases}\nrules {count}\nforms {forms}\n")?)
}

/// The counts of the lexicon, its first overlaps a line each, then `more` or `end`.
fn print_check(alloc: Global, contents: &Contents) -> Result<String, Memory>
    requires { IsBuildable contents.now }
    ensures ok { IfOk result (λ output. IsPrintedCheck (lexicon_of contents.now) (string_bytes output)) }
{
    let found = first_overlaps(alloc, &contents.rules, &contents.store)?;
    let mut output = print_counts(alloc, &contents.rules, &contents.store)?;
    push_overlaps(
        alloc,
        &mut output,
        &contents.rules,
        found.overlaps.as_slice(),
    )?;
    output.push_str(rest_line(found.more))?;
    Ok(output)
}

/// Writes the counts of the lexicon and its first overlaps.
fn write_check<O: Sink>(alloc: Global, contents: &Contents, out: &mut O) -> Status
    requires { IsBuildable contents.now }
    ensures { Wrote (WritesCheck (lexicon_of contents.now)) result (O.written out.old) (O.written out.new) (O.faults out.old) (O.faults out.new) }
{
    match print_check(alloc, contents) {
        Ok(output) => finish(out, output.as_bytes(), Status::Done),
        Err(Memory) => Status::Memory,
    }
}

/// `check LEX`: reads the lexicon, and writes its counts and its first overlaps.
pub(crate) fn run_check<H: Shelf, O: Sink>(
    alloc: Global,
    lex: &PlacedWord<'_>,
    shelf: &mut H,
    out: &mut O,
) -> Status
    ensures { Ran (IsCheckOutcome (word_meant lex.now)) (word_meant lex.now ∷ []) None result
        (devices (H.files shelf.old) (H.failed_reads shelf.old) (H.failed_writes shelf.old) (O.written out.old) (O.faults out.old))
        (devices (H.files shelf.new) (H.failed_reads shelf.new) (H.failed_writes shelf.new) (O.written out.new) (O.faults out.new)) }
{
    match open_contents(alloc, lex, shelf, out) {
        Ok(contents) => write_check(alloc, &*contents, out),
        Err(status) => status,
    }
}
