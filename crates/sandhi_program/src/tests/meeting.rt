//! A gate at which the worker of the first line of a batch, or of the first part of a page, waits for that of the second, which shows that
//! two are at work at once. It counts who passes: each of the two once, and nobody else.

use super::{ALL_A, shelf_of, words_of};
use commands::{Status, run};
use outside::{Gate, MemorySink, MemorySource};
use std::sync::atomic::{AtomicBool, AtomicU64, Ordering};
use std::test::Fail;

/// How often the first worker looks whether the second has passed.
const MOST_TURNS: u32 = 100_000_000;

/// A gate of two pieces of work. The worker of piece 0 turns in it until that of piece 1 has passed, or for so long that it gives up.
#[derive(Drop)]
struct Meeting {
    /// How often piece 0, piece 1 and any other have passed.
    passes: [AtomicU64; 3],
    met: AtomicBool,
}

impl Meeting {
    fn new() -> Meeting {
        Meeting {
            passes: [AtomicU64::new(0), AtomicU64::new(0), AtomicU64::new(0)],
            met: AtomicBool::new(false),
        }
    }

    /// How often pieces with this number have passed.
    fn count(&self, piece: u64) -> u64 {
        self.passes[piece.min(2) as usize].load(Ordering::SeqCst)
    }

    /// Whether both pieces were in the gate at once, each passed it just once, and no other did.
    fn has_seen_both(&self) -> bool {
        let once = self.count(0) == 1 && self.count(1) == 1 && self.count(2) == 0;
        once && self.met.load(Ordering::SeqCst)
    }
}

impl Gate for Meeting {
    fn pass(&self, piece: u64) {
        self.passes[piece.min(2) as usize].fetch_add(1, Ordering::SeqCst);
        if piece != 0 {
            return;
        }
        for _ in 0..MOST_TURNS {
            if self.count(1) > 0 {
                self.met.store(true, Ordering::SeqCst);
                return;
            }
        }
    }
}

#[test]
fn two_lines_are_answered_at_once(rt: HostRuntime) -> Result<(), Fail> {
    let alloc = rt.alloc();
    let mut shelf = shelf_of(&rt, 0)?;
    shelf.put("two", b"ceti\nceti\n")?;
    let mut source = MemorySource::new(Vec::new(alloc), 1, Vec::new(alloc));
    let mut sink = MemorySink::new(alloc, 4_096, Vec::new(alloc));
    let gate = Meeting::new();
    let words = words_of(&rt, "batch/l1/slp1/two/2")?;
    let status = run(
        &rt,
        alloc,
        &words,
        &mut shelf,
        &mut source,
        &mut sink,
        &gate,
    );
    assert!(rt; matches!(status, Status::Done));
    assert!(rt; gate.has_seen_both());
    Ok(())
}

#[test]
fn two_parts_are_listed_at_once(rt: HostRuntime) -> Result<(), Fail> {
    let alloc = rt.alloc();
    let mut shelf = shelf_of(&rt, 0)?;
    shelf.put("l", ALL_A.as_bytes())?;
    let mut source = MemorySource::new(Vec::new(alloc), 1, Vec::new(alloc));
    let mut sink = MemorySink::new(alloc, 4_096, Vec::new(alloc));
    let gate = Meeting::new();
    let words = words_of(&rt, "split/l/aaa/9/1")?;
    let status = run(
        &rt,
        alloc,
        &words,
        &mut shelf,
        &mut source,
        &mut sink,
        &gate,
    );
    assert!(rt; matches!(status, Status::Done));
    assert!(rt; gate.has_seen_both());
    assert_eq!(rt;
        sink.bytes(),
        b"1: aa[word] + a[word]\n2: a[word] + aa[word]\n3: a[word] + a[word] + a[word]\nend\n".as_slice()
    );
    Ok(())
}
