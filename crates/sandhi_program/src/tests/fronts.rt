//! The first part of a small listing: the front by which it is told, and that another front is left.

use super::ALL_A;
use annotated_trie::Lexicon;
use commands::read_lexicon;
use outside::Steps;
use phoneme::{Line, Memory};
use reader_choices::Choices;
use search_split::{Parts, split};
use std::alloc::Global;
use std::test::Fail;
use summary_chart::Chart;
use text_line::{Scheme, read_line};

/// The part of the first front of one step.
fn first_part(alloc: Global, lexicon: &Lexicon, line: &Line) -> Result<Parts, Memory> {
    let choices = Choices::new(alloc);
    let mut steps = Steps::<()>::new();
    let chart = Chart::build(alloc, lexicon, line, &choices, &mut steps)?;
    split(alloc, lexicon, line, &choices, &chart, None, 1, 1)
}

#[test]
fn the_first_part_has_its_front(rt: HostRuntime) -> Result<(), Fail> {
    let alloc = rt.alloc();
    let Ok(lexicon) = read_lexicon(alloc, ALL_A.as_bytes()) else {
        panic!(rt; "no lexicon");
    };
    let Ok(line) = read_line(alloc, Scheme::Slp1, b"aaa") else {
        panic!(rt; "no line");
    };
    let parts = first_part(alloc, &*lexicon, &line)?;
    assert!(rt; parts.more);
    let [part] = parts.list.as_slice() else {
        panic!(rt; "not one part");
    };
    let [key] = part.front.as_slice() else {
        panic!(rt; "not one key");
    };
    assert_eq!(rt; key.phase, 0);
    assert_eq!(rt; key.taken, 2);
    assert_eq!(rt; key.rule, 0);
    Ok(())
}
