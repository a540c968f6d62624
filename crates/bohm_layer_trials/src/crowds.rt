//! Four threads that claim the positions of one board.

ghost use Rattle.std.specs.Prelude.{All};
ghost use denote.Param.Send.{IsSync};
ghost use Rattle.bohm_board.specs.Batches.{IsIn};
ghost use Rattle.bohm_board.specs.Passes.{batch_of};
ghost use Rattle.bohm_exec.specs.Steps.{IsFree};

use crate::boards::{assert_in, share};
use crate::shared_logs::{checked, repeated};
use crate::sweeper::Sweeper;
use bohm_board::{Board, Claimed, Pass};
use bohm_txn::Checked;
use std::alloc::Global;
use std::process::Abort;
use std::thread;
use std::thread::Threads;

#[derive(Drop)]
struct Job {
    pass: Pass,
    worker: u32,
}

// All positions; every second thread has them in reverse.
fn positions(rt: &impl Abort, alloc: Global, board: &Board, worker: u32) -> Vec<u32> {
    let mut all = share(rt, alloc, board.batch(), 0, 1);
    if worker % 2 == 1 {
        all.reverse();
    }
    all
}

// A pass for each of four threads.
fn jobs(rt: &impl Abort, alloc: Global, board: &Board, pass: Pass) -> Vec<Job>
    requires { IsFree board.now pass }
    ensures { All (λ job. IsFree board.now job.pass) result.items }
{
    let (left, right) = board.split(pass);
    let (first, second) = board.split(left);
    let (third, fourth) = board.split(right);
    let jobs = vec![in alloc;
        Job {
            pass: first,
            worker: 0
        },
        Job {
            pass: second,
            worker: 1
        },
        Job {
            pass: third,
            worker: 2
        },
        Job {
            pass: fourth,
            worker: 3
        },
    ];
    jobs.ok().expect(rt, "memory")
}

// Whether the position was open. The pass that claims it is dropped.
fn takes(board: &Board, mut pass: Pass, t: u32) -> bool
    requires free { IsFree board.now pass }
    requires inside { IsIn (batch_of board.now) t }
{
    matches!(board.claim(&mut pass, t), Claimed::Mine)
}

// The positions that a thread gets, each claimed by its own pass.
fn claim_all(rt: &impl Abort, alloc: Global, board: &Board, job: Job) -> Vec<u32>
    requires { IsFree board.now job.pass }
{
    let Job { mut pass, worker } = job;
    let mut mine = Vec::new(alloc);
    for t in positions(rt, alloc, board, worker) {
        assert_in(rt, board.batch(), t);
        let (rest, claimant) = board.split(pass);
        pass = rest;
        if takes(board, claimant, t) {
            mine.push(t).ok().expect(rt, "memory");
        }
    }
    mine
}

// The positions that four threads get on a board of this log, and the number of positions without
// an outcome.
fn race<R: Abort + Threads + Sync>(rt: &R, alloc: Global, log: &Checked) -> (Vec<u32>, u32) {
    let (board, pass, other) = Sweeper::new(rt, alloc, log).split();
    let claimed = thread::map_vec(
        rt,
        jobs(rt, alloc, &board, other),
        &|job: Job| -> Vec<u32>
            requires { IsSync R.row × IsFree board job.pass }
        { claim_all(rt, alloc, &board, job) },
    );
    let all = sorted(rt, alloc, claimed.expect(rt, "threads"));
    (all, board.close(pass).unfinished())
}

// The elements of all lists, in order.
fn sorted(rt: &impl Abort, alloc: Global, lists: Vec<Vec<u32>>) -> Vec<u32> {
    let mut all = Vec::new(alloc);
    for list in lists {
        all.extend_from_slice(list.as_slice()).expect(rt, "memory");
    }
    all.sort().expect(rt, "memory");
    all
}

// The numbers from 1 to this one.
fn up_to(rt: &impl Abort, alloc: Global, last: u32) -> Vec<u32> {
    let mut all = Vec::new(alloc);
    for t in 1..=last {
        all.push(t).ok().expect(rt, "memory");
    }
    all
}

#[test]
fn threads_that_race_get_each_position_once(rt: HostRuntime) {
    let alloc: Global = rt.alloc();
    let idle = repeated(alloc, b"log 1\n", b"txn\nreads\nwrites\nend\n", 4096);
    let idle = idle.expect(&rt, "memory");
    let log = checked(alloc, idle.as_slice()).expect(&rt, "a log");
    let each = up_to(&rt, alloc, 4096);
    for _ in 0..20 {
        let (claimed, unfinished) = race(&rt, alloc, &log);
        assert_eq!(rt; (claimed.as_slice(), unfinished), (each.as_slice(), 4096));
    }
}
