//! Worked examples of sweeps. Their answers are the serial run's, computed by hand.

ghost use Rattle.bohm_exec.specs.Steps.{IsFree};
ghost use denote.Param.Send.{IsSync};

use crate::boards::{cell, outcome, present, shown, sweep_these};
use crate::counting_gate::CountingGate;
use crate::logs::checked;
use crate::shared_logs::counters;
use crate::sweeper::{Sweeper, joined, seen};
use bohm_board::{Board, Pass, Status};
use bohm_exec::{Aside, Finished, Gate, OpenGate, Point, share_of};
use bohm_txn::{Checked, Outcome};
use std::alloc::Global;
use std::process::Abort;
use std::sync::atomic::{AtomicU64, Ordering};
use std::thread;
use std::thread::Threads;

/// Asserts for this many transactions that each shows the number of transactions before it, and
/// stores one more.
fn assert_counted(rt: &impl Abort, finished: &Finished, len: u32) {
    let mut before = 0u32;
    for t in 1..=len {
        let told = (
            outcome(rt, finished, t),
            shown(rt, finished, t),
            cell(rt, finished, t),
        );
        assert_eq!(rt;
            told,
            (Outcome::Commit, present(before), present(t)),
            "at {t}"
        );
        before = t;
    }
}

/// Sweeps these positions, and asserts that these pairs are set aside.
fn sweeps_so(
    rt: &impl Abort,
    alloc: Global,
    sweeper: &mut Sweeper<'_>,
    share: &[u32],
    want: &[(u32, u32)],
) -> Aside {
    let aside = sweeper.sweep(rt, alloc, share, &OpenGate);
    assert_eq!(rt; aside.pairs(), want);
    aside
}

/// Closes a board of `len` counters, of which `without` have no outcome yet, and asserts how many
/// evaluations it then took in all.
fn ends_counted(
    rt: &impl Abort,
    alloc: Global,
    sweeper: Sweeper<'_>,
    asides: &[Aside],
    without: u32,
    len: u32,
    evaluations: u64,
) {
    let (unfinished, finished) = sweeper.finish(rt, alloc, asides);
    let told = (unfinished, finished.first(), finished.len());
    assert_eq!(rt; told, (without, 1, len));
    assert_eq!(rt; finished.evaluations(), evaluations);
    assert_counted(rt, &finished, len);
}

/// Sets a flag at each of the two points of position 1, and waits after its claim until it is
/// released.
#[derive(Drop)]
struct FirstHeld {
    claimed: AtomicU64,
    let_go: AtomicU64,
    finished: AtomicU64,
}

/// Waits, for a limited time, until the flag is set.
fn wait_for(flag: &AtomicU64) {
    for _ in 0..10_000_000u32 {
        if flag.load(Ordering::SeqCst) > 0 {
            return;
        }
        thread::yield_now();
    }
}

impl Gate for FirstHeld {
    fn at(&self, point: Point) {
        if point == Point::Claimed(1) {
            self.claimed.store(1, Ordering::SeqCst);
            wait_for(&self.let_go);
        }
        if point == Point::Finished(1) {
            self.finished.store(1, Ordering::SeqCst);
        }
    }
}

// Asserts what another pass finds while position 1 is held.
fn assert_held(rt: &impl Abort, board: &Board, pass: &mut Pass)
    requires { IsFree board.now pass.old }
    ensures { IsFree board.now pass.new }
{
    let held = [
        seen(rt, board, pass, 1, 0),
        seen(rt, board, pass, 1, 1),
        seen(rt, board, pass, 2, 0),
    ];
    let want = [
        (Status::Busy, None),
        (Status::Busy, None),
        (Status::Open, None),
    ];
    assert_eq!(rt; held.as_slice(), want.as_slice());
}

// Asserts what that pass finds once position 1 is finished.
fn assert_finished(rt: &impl Abort, board: &Board, mut pass: Pass)
    requires { IsFree board.now pass }
{
    let done = [
        seen(rt, board, &mut pass, 1, 0),
        seen(rt, board, &mut pass, 1, 1),
    ];
    let want = [
        (Status::Done, Some(present(1))),
        (Status::Done, Some(present(0))),
    ];
    assert_eq!(rt; done.as_slice(), want.as_slice());
}

// Asserts what another pass finds while position 1 is held, and once it is finished.
fn look_at_held(rt: &impl Abort, alloc: Global, board: &Board, mut pass: Pass, gate: &FirstHeld)
    requires { IsFree board.now pass }
{
    wait_for(&gate.claimed);
    assert_eq!(rt; gate.claimed.load(Ordering::SeqCst), 1);
    assert_held(rt, board, &mut pass);
    let mut evaluations = 0u64;
    let aside = sweep_these(
        rt,
        alloc,
        board,
        &mut pass,
        &[3, 2],
        &OpenGate,
        &mut evaluations,
    );
    assert_eq!(rt; aside.pairs(), [(3, 1), (2, 1)].as_slice());
    assert_eq!(rt; evaluations, 0);
    gate.let_go.store(1, Ordering::SeqCst);
    wait_for(&gate.finished);
    assert_finished(rt, board, pass);
}

#[derive(Drop)]
struct Job {
    pass: Pass,
    looks: bool,
}

// Does one of the two jobs.
fn work(rt: &impl Abort, alloc: Global, board: &Board, job: Job, gate: &FirstHeld)
    requires { IsFree board.now job.pass }
{
    let Job { mut pass, looks } = job;
    if looks {
        look_at_held(rt, alloc, board, pass, gate);
    } else {
        let mut evaluations = 0u64;
        let aside = sweep_these(rt, alloc, board, &mut pass, &[1], gate, &mut evaluations);
        assert_eq!(rt; aside.pairs(), [].as_slice());
        assert_eq!(rt; evaluations, 1);
    }
}

// One pass sweeps position 1, and another one looks at it meanwhile.
fn hold_and_look<R: Abort + Threads + Sync>(
    rt: &R,
    alloc: Global,
    board: &Board,
    holder: Pass,
    other: Pass,
)
    requires { IsFree board.now holder × IsFree board.now other }
{
    let gate = FirstHeld {
        claimed: AtomicU64::new(0),
        let_go: AtomicU64::new(0),
        finished: AtomicU64::new(0),
    };
    let jobs = vec![in alloc;
        Job {
            pass: holder,
            looks: false
        },
        Job {
            pass: other,
            looks: true
        },
    ];
    let ended = thread::map_vec(
        rt,
        jobs.ok().expect(rt, "memory"),
        &|job: Job|
            requires { IsSync R.row × IsFree board.now job.pass }
        { work(rt, alloc, board, job, &gate) },
    );
    assert!(rt; ended.is_ok());
}

// A board whose position 1 was held while another pass looked at it, and is finished.
fn held_before<'a, R: Abort + Threads + Sync>(
    rt: &R,
    alloc: Global,
    log: &'a Checked,
) -> Sweeper<'a> {
    let (board, pass, other) = Sweeper::new(rt, alloc, log).split();
    let (holder, looker) = board.split(other);
    hold_and_look(rt, alloc, &board, holder, looker);
    let (pass, other) = board.split(pass);
    let pass = joined(&board, pass, other);
    Sweeper::of(board, pass)
}

#[test]
fn held_then_finished(rt: HostRuntime) {
    let alloc: Global = rt.alloc();
    let log = counters(alloc, 3).expect(&rt, "a log");
    let mut sweeper = held_before(&rt, alloc, &log);
    sweeps_so(&rt, alloc, &mut sweeper, &[3, 2], &[]);
    // The first was evaluated by another pass, whose count stays with it.
    ends_counted(&rt, alloc, sweeper, &[], 0, 3, 2);
}

const OVERWRITTEN: &str = "\
txn
reads a
writes a
set a = a + 1
end
txn
reads
writes a
set a = 9
end
";

#[test]
fn sure_write_goes_past(rt: HostRuntime) {
    let alloc: Global = rt.alloc();
    let log = checked(&rt, alloc, "log 1\na 5\n", OVERWRITTEN);
    let (mut sweeper, holder) = Sweeper::new(&rt, alloc, &log).hold(&rt, 1);
    sweeps_so(&rt, alloc, &mut sweeper, &[2], &[]);
    drop(holder);
    let first = sweeps_so(&rt, alloc, &mut sweeper, &[1], &[(1, 1)]);
    let (_, finished) = sweeper.finish(&rt, alloc, &[first]);
    let cells = (cell(&rt, &finished, 1), cell(&rt, &finished, 2));
    assert_eq!(rt; cells, (present(6), present(9)));
    assert_eq!(rt; finished.evaluations(), 2);
}

// Asserts what a sweep of eight positions leaves if another pass holds the fourth.
fn assert_held_up(rt: &impl Abort, sweeper: &mut Sweeper<'_>, counts: &CountingGate) {
    assert_eq!(rt; counts.counts(), (3, 3));
    let found = [
        sweeper.see(rt, 3, 0),
        sweeper.see(rt, 4, 0),
        sweeper.see(rt, 5, 0),
    ];
    let want = [
        (Status::Done, Some(present(3))),
        (Status::Busy, None),
        (Status::Open, None),
    ];
    assert_eq!(rt; found.as_slice(), want.as_slice());
}

// Sweeps eight positions; another pass holds the fourth.
fn sweep_around(rt: &impl Abort, alloc: Global, sweeper: &mut Sweeper<'_>) -> Aside {
    let counts = CountingGate::new();
    let aside = sweeper.sweep(rt, alloc, &[1, 2, 3, 4, 5, 6, 7, 8], &counts);
    let pairs = [(4, 4), (5, 4), (6, 4), (7, 4), (8, 4)];
    assert_eq!(rt; aside.pairs(), pairs.as_slice());
    assert_held_up(rt, sweeper, &counts);
    aside
}

#[test]
fn eight_one_held(rt: HostRuntime) {
    let alloc: Global = rt.alloc();
    let log = counters(alloc, 8).expect(&rt, "a log");
    let (mut sweeper, holder) = Sweeper::new(&rt, alloc, &log).hold(&rt, 4);
    let aside = sweep_around(&rt, alloc, &mut sweeper);
    drop(holder);
    ends_counted(&rt, alloc, sweeper, &[aside], 5, 8, 8);
}

// The numbers from this one down to 1.
fn falling(rt: &impl Abort, alloc: Global, first: u32) -> Vec<u32> {
    let mut share = Vec::new(alloc);
    for t in (1..=first).rev() {
        share.push(t).ok().expect(rt, "memory");
    }
    share
}

#[test]
fn deepest_work_stack(rt: HostRuntime) {
    let alloc: Global = rt.alloc();
    let log = counters(alloc, 4096).expect(&rt, "a log");
    let mut sweeper = Sweeper::new(&rt, alloc, &log);
    let share = falling(&rt, alloc, 4096);
    let aside = sweeps_so(&rt, alloc, &mut sweeper, share.as_slice(), &[]);
    ends_counted(&rt, alloc, sweeper, &[aside], 0, 4096, 4096);
}

#[test]
fn shares(rt: HostRuntime) {
    let share = share_of(rt.alloc(), 5, 7, 1, 3).expect(&rt, "memory");
    assert_eq!(rt; share.as_slice(), [6, 9].as_slice());
}
