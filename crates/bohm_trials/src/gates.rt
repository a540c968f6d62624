//! Runs whose threads are held or counted at gates, with answers computed by hand.

use crate::runs::{cuts, run_told, settings};
use bohm_exec::{Gate, Point};
use bohm_layer_trials::{CountingGate, checked, counters};
use bohm_txn::Checked;
use std::process::Abort;
use std::random::RandomSource;
use std::sync::Wait;
use std::sync::atomic::{AtomicU64, Ordering};
use std::thread;
use std::thread::Threads;

/// Holds the thread that reaches one point until some thread reaches one of the others.
#[derive(Drop)]
struct Hold {
    at: Point,
    until: &'static [Point],
    reached: AtomicU64,
    seen: AtomicU64,
}

impl Hold {
    fn new(at: Point, until: &'static [Point]) -> Hold {
        Hold {
            at,
            until,
            reached: AtomicU64::new(0),
            seen: AtomicU64::new(0),
        }
    }

    fn note(&self, point: Point) {
        if self.until.contains(&point) {
            self.reached.store(1, Ordering::SeqCst);
        }
    }

    fn wait(&self, point: Point) {
        if point != self.at {
            return;
        }
        for _ in 0..10_000_000u32 {
            if self.reached.load(Ordering::SeqCst) > 0 {
                self.seen.store(1, Ordering::SeqCst);
                return;
            }
            thread::yield_now();
        }
    }
}

#[derive(Clone, Copy)]
struct Holds<'a>(&'a [Hold]);

impl Gate for Holds<'_> {
    fn at(&self, point: Point) {
        for hold in self.0 {
            hold.note(point);
        }
        for hold in self.0 {
            hold.wait(point);
        }
    }
}

/// Asserts that each held thread saw what it waited for.
fn assert_seen(rt: &impl Abort, holds: &[Hold]) {
    for hold in holds {
        let seen = hold.seen.load(Ordering::SeqCst);
        assert_eq!(rt; seen, 1, "{:?} goes on", hold.at);
    }
}

/// Runs a log with this many executing workers and batches of these sizes, and asserts that each
/// held thread saw what it waited for, and that the answer is this one.
fn held_so<R: Abort + AllocGlobal + Threads + Wait + Sync + RandomSource>(
    rt: &R,
    log: &Checked,
    sizes: &[u32],
    words: &str,
    holds: &[Hold],
    answer: &[u8],
) {
    let alloc = rt.alloc();
    let cuts = cuts(rt, alloc, sizes);
    let text = run_told(rt, alloc, log, &cuts, settings(rt, words), &Holds(holds));
    assert_seen(rt, holds);
    assert_eq!(rt; text.as_slice(), answer);
}

/// Two transactions that share no key.
const APART: &[u8] = b"\
log 1
a 1
b 1
txn
reads a
writes a
set a = a + 1
end
txn
reads b
writes b
set b = b + 1
end
";

/// Runs `APART` on two workers, one of which is held.
fn two_held_so<R: Abort + AllocGlobal + Threads + Wait + Sync + RandomSource>(rt: &R, hold: Hold) {
    let log = checked(rt.alloc(), APART).expect(rt, "a log");
    let answer = b"1 commit\n2 commit\n--\na 2\nb 2\n";
    held_so(rt, &log, &[2], "exec 2", &[hold], answer);
}

#[test]
fn two_at_once(rt: HostRuntime) {
    two_held_so(&rt, Hold::new(Point::Claimed(1), &[Point::Finished(2)]));
    two_held_so(&rt, Hold::new(Point::Claimed(2), &[Point::Finished(1)]));
}

/// The second transaction reads what the first writes; the others use their own keys.
const INDEPENDENT: &[u8] = b"\
log 1
a 1
txn
reads a
writes a
set a = a + 1
end
txn
reads a
writes b
set b = a
end
txn
reads
writes c
set c = 3
end
txn
reads
writes d
set d = 4
end
";

#[test]
fn held_worker(rt: HostRuntime) {
    let log = checked(rt.alloc(), INDEPENDENT).expect(&rt, "a log");
    let hold = Hold::new(Point::Claimed(1), &[Point::Finished(3), Point::Finished(4)]);
    let answer = b"1 commit\n2 commit\n3 commit\n4 commit\n--\na 2\nb 2\nc 3\nd 4\n";
    held_so(&rt, &log, &[4], "exec 2", &[hold], answer);
}

#[test]
fn plan_beside(rt: HostRuntime) {
    let log = counters(rt.alloc(), 3).expect(&rt, "a log");
    let executing = Hold::new(Point::Claimed(1), &[Point::Planned(2)]);
    let planning = Hold::new(Point::Planned(2), &[Point::Claimed(1)]);
    let answer = b"1 commit 0\n2 commit 1\n3 commit 2\n--\na 3\n";
    held_so(&rt, &log, &[1, 2], "", &[executing, planning], answer);
}

#[test]
fn five_thousand_counters(rt: HostRuntime) {
    let alloc = rt.alloc();
    let log = counters(alloc, 5000).expect(&rt, "a log");
    let counts = CountingGate::new();
    let cuts = cuts(&rt, alloc, &[4096, 904]);
    let text = run_told(&rt, alloc, &log, &cuts, settings(&rt, ""), &counts);
    assert_eq!(rt; counts.counts(), (5000, 5000));
    let ends_so = text
        .as_slice()
        .ends_with(b"\n5000 commit 4999\n--\na 5000\n");
    assert!(rt; ends_so);
}
