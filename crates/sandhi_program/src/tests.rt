//! Runs over devices in memory, which show what no file and no terminal shows: calls that fail, and in which order lines are read and
//! replies written; and inputs that no worked row holds. What the commands write is shown by the worked rows of the repository, on real files.

ghost use Rattle.std.specs.Prelude.{◌<◌, None};

mod fronts;
mod meeting;
mod scripted_clock;
mod scripted_input;
mod scripted_printer;
mod streams;

use commands::{Status, run};
use outside::{Failed, MemoryShelf, MemorySink, MemorySource, NoGate, Sink, Source, WriteError};
use std::process::Abort;
use std::sync::atomic::{AtomicU64, Ordering};
use std::test::Fail;
use std::thread::Threads;

const CETI: &str =
    "slx 1\nphase word\ngrammar word+\nrule a|i>e\nform word iti iti ind\nform word ca ca ind\nend\n";

const NASTI: &str =
    "slx 1\nphase word\ngrammar word+\nrule a|a>A\nrule a|A>A\nform word asti as pr.ac.3.sg\nform word Asti Asti ind\nform word na na ind\nend\n";

const ALL_A: &str =
    "slx 1\nphase word\ngrammar word+\nplain a a\nform word a a ind\nform word aa aa ind\nend\n";

const RULES: &str =
    "phases = [\"noun\", \"ind\"]\ngrammar = \"(ind | noun)+\"\nplain = [\"a <k>\"]\nrules = [\"a|i>e\"]\n[classes]\nk = \"kc\"\n";

const TABLES: &str = "a,m.sg.ins,noun,,1,ena\nu,ind,ind,,0,\n";

const STEMS: &str = "nara,a\niti,u\n";

const LEXICON: &str =
    "slx 2\nphase noun\nphase ind\ngrammar (ind | noun)+\nplain a k\nplain a c\nrule a|i>e\nnode 0::ind -\nnode 3:a:m.sg.ins -\nnode - a=1\nnode - i=0\nnode - R=2\nnode - t=3\nnode - e=4\nnode - i=5\nnode - r=6\nnode - a=8\nnode - n=9\nroot noun 10\nroot ind 7\nend\n";

const NOTE: &str =
    "{\"choices\":[\"+2.1.0.Asti\"],\"segments\":[{\"at\":0,\"form\":\"na\",\"lead\":0,\"phase\":\"word\",\"rule\":2,\"tags\":[\"na ind\"],\"taken\":1},{\"at\":2,\"form\":\"Asti\",\"lead\":1,\"phase\":\"word\",\"rule\":0,\"tags\":[\"Asti ind\"],\"taken\":3}],\"text\":\"nAsti\",\"version\":1}\n";

const SEVERAL: &str = "several\n1: na[word] (a|a>A) asti[word]\n2: na[word] (a|A>A) Asti[word]\n";

const PAGED: &str = "text slp1 nAsti\npage 1\npage 1\npage 1\n";

const PAGED_OUT: &str =
    "ok\n1: na[word] (a|a>A) asti[word]\nmore\n2: na[word] (a|A>A) Asti[word]\nend\nend\n";

/// What fails, by the number of the call, counted from 1, where 0 is none.
#[derive(Clone, Copy)]
enum Failing {
    Shelf(u64),
    Source(u64),
    /// A call of the sink; both streams give and take so many bytes a call.
    Sink(u64, usize),
}

impl Failing {
    fn call_of_shelf(self) -> u64 {
        match self {
            Failing::Shelf(call) => call,
            Failing::Source(_) | Failing::Sink(_, _) => 0,
        }
    }

    fn call_of_source(self) -> u64 {
        match self {
            Failing::Source(call) => call,
            Failing::Shelf(_) | Failing::Sink(_, _) => 0,
        }
    }

    fn call_of_sink(self) -> u64 {
        match self {
            Failing::Sink(call, _) => call,
            Failing::Shelf(_) | Failing::Source(_) => 0,
        }
    }

    /// How many bytes the streams give and take a call.
    fn piece(self) -> usize
        ensures { 0 < result }
    {
        match self {
            Failing::Sink(_, piece) => piece.max(1),
            Failing::Shelf(_) | Failing::Source(_) => 4_096,
        }
    }
}

/// The words with a `/` between them, what fails, the exit status, what is written, and what OUT has, where it is there.
static FAULTS: [(&str, Failing, u8, &str, Option<&str>); 44] = [
    ("build/r/t/s/o", Failing::Shelf(1), 3, "", None),
    ("build/r/t/s/o", Failing::Shelf(2), 3, "", None),
    ("build/r/t/s/o", Failing::Shelf(3), 3, "", None),
    ("build/r/t/s/o", Failing::Shelf(4), 4, "", None),
    ("build/r/t/s/o", Failing::Sink(1, 7), 4, "", Some(LEXICON)),
    (
        "build/r/t/s/o",
        Failing::Sink(2, 3),
        4,
        "for",
        Some(LEXICON),
    ),
    ("read/l7", Failing::Shelf(1), 3, "", None),
    ("read/l7", Failing::Source(1), 3, "", None),
    ("read/l7", Failing::Source(2), 3, PAGED_OUT, None),
    ("read/l7", Failing::Sink(2, 4_096), 4, "ok\n", None),
    ("read/l7", Failing::Sink(0, 1), 0, PAGED_OUT, None),
    ("batch/l7/slp1/f/1", Failing::Shelf(1), 3, "", None),
    ("batch/l7/slp1/f/1", Failing::Shelf(2), 3, "", None),
    ("batch/l7/slp1/f/1", Failing::Sink(1, 4_096), 4, "", None),
    ("segment/l1/ceti", Failing::Shelf(1), 3, "", None),
    ("segment/l1/ceti", Failing::Sink(1, 7), 4, "", None),
    ("segment/l1/ceti", Failing::Sink(2, 7), 4, "1: ca[w", None),
    ("check/l1", Failing::Shelf(1), 3, "", None),
    ("check/l1", Failing::Sink(2, 7), 4, "phases ", None),
    ("convert/slp1/iast/f/o", Failing::Shelf(1), 3, "", None),
    ("convert/slp1/iast/f/o", Failing::Shelf(2), 4, "", None),
    (
        "convert/slp1/iast/f/o",
        Failing::Sink(1, 7),
        4,
        "",
        Some("n\u{101}sti\n"),
    ),
    ("demo/0", Failing::Sink(1, 7), 4, "", None),
    ("join/l1/iti[word]", Failing::Shelf(1), 3, "", None),
    ("join/l1/iti[word]", Failing::Sink(1, 7), 4, "", None),
    ("join/l1/iti[word]", Failing::Sink(2, 7), 4, "text it", None),
    (
        "join/l1/ca[word] +",
        Failing::Sink(2, 7),
        4,
        "bad cha",
        None,
    ),
    ("split/l1/ceti/9/1", Failing::Shelf(1), 3, "", None),
    ("split/l1/ceti/9/1", Failing::Sink(1, 7), 4, "", None),
    ("split/l1/ceti/9/1", Failing::Sink(2, 7), 4, "1: ca[w", None),
    (
        "annotate/l7/1;nAsti;+2.1.0.Asti;0;/o",
        Failing::Shelf(1),
        3,
        "",
        None,
    ),
    (
        "annotate/l7/1;nAsti;+2.1.0.Asti;0;/o",
        Failing::Shelf(2),
        4,
        "",
        None,
    ),
    (
        "annotate/l7/1;nAsti;+2.1.0.Asti;0;/o",
        Failing::Sink(1, 7),
        4,
        "",
        Some(NOTE),
    ),
    (
        "annotate/l7/1;nAsti;+2.1.0.Asti;0;/o",
        Failing::Sink(2, 7),
        4,
        "segment",
        Some(NOTE),
    ),
    (
        "annotate/l7/1;nAsti;;0;/o",
        Failing::Shelf(2),
        11,
        SEVERAL,
        None,
    ),
    (
        "annotate/l7/1;nAsti;;0;/o",
        Failing::Sink(2, 7),
        4,
        "several",
        None,
    ),
    (
        "annotate/l7/1;nAsti;-2.1.0.asti,-2.1.0.Asti;0;/o",
        Failing::Shelf(2),
        10,
        "no answer\n",
        None,
    ),
    (
        "annotate/l7/1;nAsti;-2.1.0.asti,-2.1.0.Asti;0;/o",
        Failing::Sink(2, 7),
        4,
        "no answ",
        None,
    ),
    ("annotate/l7/x/o", Failing::Shelf(2), 12, "bad mark\n", None),
    ("annotate/l7/x/o", Failing::Sink(1, 7), 4, "", None),
    ("reread/l7/n", Failing::Shelf(1), 3, "", None),
    ("reread/l7/n", Failing::Shelf(2), 3, "", None),
    ("reread/l7/n", Failing::Sink(2, 7), 4, "1: na[w", None),
    ("reread/l7/f", Failing::Sink(2, 7), 4, "bad fil", None),
];

/// The words, as they are written with a `/` between them.
fn words_of<R: AllocGlobal>(rt: &R, text: &str) -> Result<Vec<String>, Fail> {
    let alloc = rt.alloc();
    let mut words = Vec::new(alloc);
    for word in text.split('/') {
        words.push(String::from_str(alloc, word)?)?;
    }
    Ok(words)
}

/// A shelf with lexicons, the sources of one, a text, and a note, of which this call fails.
fn shelf_of<R: AllocGlobal>(rt: &R, failing: u64) -> Result<MemoryShelf, Fail> {
    let mut shelf = MemoryShelf::new(rt.alloc(), vec![in rt.alloc(); failing]?);
    for (name, text) in [
        ("l1", CETI),
        ("l7", NASTI),
        ("r", RULES),
        ("t", TABLES),
        ("s", STEMS),
        ("f", "nAsti\n"),
        ("n", NOTE),
    ] {
        shelf.put(name, text.as_bytes())?;
    }
    Ok(shelf)
}

/// Whether the file of this name has this text, or is not there.
fn holds(shelf: &MemoryShelf, name: &str, text: Option<&str>) -> bool {
    match (shelf.get(name), text) {
        (Some(bytes), Some(text)) => bytes == text.as_bytes(),
        (None, None) => true,
        _ => false,
    }
}

#[test]
fn devices_fail_at_each_call(rt: HostRuntime) -> Result<(), Fail> {
    let alloc = rt.alloc();
    for (words, failing, exit, output, out) in &FAULTS {
        let piece = failing.piece();
        let mut shelf = shelf_of(&rt, failing.call_of_shelf())?;
        let input = PAGED.as_bytes().to_vec(alloc)?;
        let mut source = MemorySource::new(input, piece, vec![in alloc; failing.call_of_source()]?);
        let mut sink = MemorySink::new(alloc, piece, vec![in alloc; failing.call_of_sink()]?);
        let words = words_of(&rt, words)?;
        let status = run(
            &rt,
            alloc,
            &words,
            &mut shelf,
            &mut source,
            &mut sink,
            &NoGate,
        );
        assert_eq!(rt; status.exit_code(), *exit);
        assert_eq!(rt; sink.bytes(), output.as_bytes());
        assert!(rt; holds(&shelf, "o", *out));
        assert!(rt; holds(&shelf, "s", Some(STEMS)));
    }
    Ok(())
}

/// The words over one file `l` and an input write this and end so.
fn ends_with<R: Threads + Sync + AllocGlobal + Abort>(
    rt: &R,
    words: &str,
    file: &[u8],
    input: Vec<u8>,
    output: &[u8],
    exit: u8,
) -> Result<(), Fail> {
    let alloc = rt.alloc();
    let mut shelf = MemoryShelf::new(alloc, Vec::new(alloc));
    shelf.put("l", file)?;
    let mut source = MemorySource::new(input, 65_536, Vec::new(alloc));
    let mut sink = MemorySink::new(alloc, 65_536, Vec::new(alloc));
    let words = words_of(rt, words)?;
    let status = run(
        rt,
        alloc,
        &words,
        &mut shelf,
        &mut source,
        &mut sink,
        &NoGate,
    );
    assert_eq!(rt; sink.bytes(), output);
    assert_eq!(rt; status.exit_code(), exit);
    Ok(())
}

/// What comes first in the input of a session, how many equal bytes come after it and which, what comes last, what is
/// written, and the exit status.
static INPUTS: [(&str, usize, u8, &str, &str, u8); 6] = [
    (
        "",
        65_537,
        b'a',
        "\npage 1\n",
        "? long line\n? no text\n",
        0,
    ),
    ("page 1\r\n", 0, b'a', "hello", "? no text\n? word\n", 0),
    ("quit\n", 16_777_216, b'\n', "", "bye\n", 0),
    ("quit\n", 16_777_216, b'a', "", "bye\n", 0),
    (
        "page 1\n",
        16_777_209,
        b'a',
        "",
        "? no text\n? long line\n",
        0,
    ),
    ("page 1\n", 16_777_210, b'a', "", "? no text\n", 7),
];

fn inputs_that_are_long_or_cut<R: Threads + Sync + AllocGlobal + Abort>(
    rt: &R,
) -> Result<(), Fail> {
    let alloc = rt.alloc();
    for (first, count, byte, last, output, exit) in &INPUTS {
        let mut input = first.as_bytes().to_vec(alloc)?;
        input.extend_from_slice(&vec![in alloc; *byte; *count]?)?;
        input.extend_from_slice(last.as_bytes())?;
        ends_with(
            rt,
            "read/l",
            NASTI.as_bytes(),
            input,
            output.as_bytes(),
            *exit,
        )?;
    }
    Ok(())
}

fn push_times(text: &mut String, times: u32, part: &str) -> Result<(), Fail> {
    for _ in 0..times {
        text.push_str(part)?;
    }
    Ok(())
}

/// A grammar of nothing but brackets is refused, of as many bytes as a grammar may have and of one more.
fn grammars_of_brackets<R: Threads + Sync + AllocGlobal + Abort>(rt: &R) -> Result<(), Fail> {
    let alloc = rt.alloc();
    for count in [1_024, 1_025] {
        let mut file = String::from_str(alloc, "slx 1\nphase word\ngrammar ")?;
        push_times(&mut file, count, "(")?;
        file.push_str("\nend\n")?;
        ends_with(
            rt,
            "check/l",
            file.as_bytes(),
            Vec::new(alloc),
            b"bad file l line 3: Grammar\n",
            5,
        )?;
    }
    Ok(())
}

/// A lexicon file that is cut at a byte, or of which a byte is damaged, is refused at the line of the byte.
fn files_that_are_cut_or_damaged<R: Threads + Sync + AllocGlobal + Abort>(
    rt: &R,
) -> Result<(), Fail> {
    let alloc = rt.alloc();
    let whole = CETI.as_bytes();
    let mut line = 1u32;
    for (place, byte) in whole.iter().enumerate() {
        let cut = format!(in alloc; "bad file l line {line}: NoEnd\n")?;
        let empty = Vec::new(alloc);
        ends_with(rt, "check/l", &whole[..place], empty, cut.as_bytes(), 5)?;
        let mut damaged = Vec::from_slice(alloc, whole)?;
        damaged[place] = 0xFF;
        let why = if place + 1 == whole.len() {
            "NoEnd"
        } else {
            "NotUtf8"
        };
        let refusal = format!(in alloc; "bad file l line {line}: {why}\n")?;
        let empty = Vec::new(alloc);
        ends_with(
            rt,
            "check/l",
            damaged.as_slice(),
            empty,
            refusal.as_bytes(),
            5,
        )?;
        if *byte == b'\n' {
            line = line.saturating_add(1);
        }
    }
    Ok(())
}

/// A source that gives a line `hello` in each of three calls, and fails where the reply to a line before is not written yet.
#[derive(Drop)]
struct PromptSource<'a> {
    lines: MemorySource,
    given: u64,
    replies: &'a AtomicU64,
    faults: u64,
}

impl<'a> Source for PromptSource<'a> {
    ghost left = { λ _. None };

    ghost faults = { λ s. s.faults };

    fn read(&mut self, buf: &mut [u8]) -> Result<usize, Failed> {
        let more_faults = self.faults.saturating_add(1);
        if self.replies.load(Ordering::SeqCst) < self.given {
            self.faults = more_faults;
            return Err(Failed);
        }
        match self.lines.read(buf) {
            Ok(count) => {
                self.given = self.given.saturating_add(1);
                Ok(count)
            }
            Err(Failed) => {
                self.faults = more_faults;
                Err(Failed)
            }
        }
    }
}

/// A sink that counts the lines that it took.
#[derive(Drop)]
struct CountingSink<'a> {
    inner: MemorySink,
    lines: &'a AtomicU64,
}

impl<'a> Sink for CountingSink<'a> {
    ghost written = { λ _. None };

    ghost faults = { λ s. s.inner.faults };

    fn write(&mut self, bytes: &[u8]) -> Result<usize, WriteError> {
        let count = self.inner.write(bytes)?;
        for byte in &bytes[..count] {
            if *byte == b'\n' {
                self.lines.fetch_add(1, Ordering::SeqCst);
            }
        }
        Ok(count)
    }
}

/// Each reply of a session is written before the next line is read.
fn a_source_that_waits_for_replies<R: Threads + Sync + AllocGlobal + Abort>(
    rt: &R,
) -> Result<(), Fail> {
    let alloc = rt.alloc();
    let mut shelf = shelf_of(rt, 0)?;
    let words = words_of(rt, "read/l7")?;
    let replies = AtomicU64::new(0);
    let lines = "hello\nhello\nhello\n".as_bytes().to_vec(alloc)?;
    let mut source = PromptSource {
        lines: MemorySource::new(lines, 6, Vec::new(alloc)),
        given: 0,
        replies: &replies,
        faults: 0,
    };
    let mut sink = CountingSink {
        inner: MemorySink::new(alloc, 4_096, Vec::new(alloc)),
        lines: &replies,
    };
    let status = run(
        rt,
        alloc,
        &words,
        &mut shelf,
        &mut source,
        &mut sink,
        &NoGate,
    );
    assert!(rt; matches!(status, Status::Done));
    assert_eq!(rt; sink.inner.bytes(), b"? word\n? word\n? word\n".as_slice());
    Ok(())
}

#[test]
fn inputs_and_files_are_long_cut_or_damaged(rt: HostRuntime) -> Result<(), Fail> {
    inputs_that_are_long_or_cut(&rt)?;
    grammars_of_brackets(&rt)?;
    files_that_are_cut_or_damaged(&rt)?;
    a_source_that_waits_for_replies(&rt)
}
