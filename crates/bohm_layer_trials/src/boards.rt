//! Boards over histories, passes on them, and the results of completing them.

ghost use Rattle.std.specs.Prelude.{◌≡◌, ◌<◌, ◌≤◌, All, length, IfOk};
ghost use Rattle.bohm_txn.specs.Faulty.{IsWellFormedTxn};
ghost use Rattle.bohm_board.specs.Batches.{IsIn};
ghost use Rattle.bohm_board.specs.Closings.{batch_of_closed};
ghost use Rattle.bohm_exec.specs.Answers.{batch_of_finished};
ghost use Rattle.bohm_exec.specs.Asides.{IsSetAside};
ghost use Rattle.bohm_exec.specs.Steps.{IsFree};
ghost use Rattle.bohm_store.specs.Nexts.{IsNext};
ghost use Rattle.bohm_layer_trials.specs.Samples.{has_position, is_set_aside, AreSetAside};

use crate::planning::FirstByte;
use bohm_board::{Batch, Board, Closed, Pass};
use bohm_exec::{Aside, Finished, Gate, OpenGate, complete, share_of, sweep};
use bohm_log::LogPart;
use bohm_place::{Shards, plan};
use bohm_store::History;
use bohm_txn::{Outcome, Scratch, shows};
use bohm_types::{Cell, NoMemory, Value};
use std::alloc::Global;
use std::process::Abort;
use std::thread::Threads;

pub fn present(number: u32) -> Cell {
    Cell::Present(Value::from(i64::from(number)))
}

/// The transactions as the next batch of the history.
pub fn next_batch<'a, R: Threads + Sync>(
    rt: &R,
    alloc: Global,
    history: &History,
    txns: &LogPart<'a>,
) -> Result<Batch<'a>, NoMemory>
    requires some { 0 < length txns.now }
    requires few { length txns.now ≤ 4096 }
    requires formed { All IsWellFormedTxn txns.now }
    requires early { history.now.top ≤ 1000 }
    ensures { IfOk result (IsNext history.now) }
{
    let first = history.top() + 1;
    let shards = Shards::new(alloc, 1)?;
    let parts = FirstByte::new(1);
    let (_, plan) = plan(rt, alloc, shards, first, txns, 1, &parts)?;
    history.batch(alloc, txns, plan)
}

// ---- preconditions on positions, asserted at run time

/// Asserts that a transaction of the batch has the timestamp.
pub fn assert_in(rt: &impl Abort, batch: &Batch, t: u32)
    ensures { IsIn batch.now t }
{
    let (first, len) = (batch.first(), batch.len());
    let from = first <= t;
    assert!(rt; from);
    let below = t - first < len;
    assert!(rt; below);
}

/// Asserts for each of these timestamps that a transaction of the batch has it.
fn assert_all_in(rt: &impl Abort, batch: &Batch, share: &[u32])
    ensures { All (IsIn batch.now) share.now }
{
    for t in share {
        assert_in(rt, batch, *t);
    }
}

fn has_position(pairs: &[(u32, u32)], t: u32) -> bool
    ensures { result ≡ has_position pairs.now t }
{
    pairs.iter().any(|pair| pair.0 == t)
}

fn is_set_aside(asides: &[Aside], t: u32) -> bool
    ensures { result ≡ is_set_aside asides.now t }
{
    asides.iter().any(|aside| has_position(aside.pairs(), t))
}

fn assert_aside(rt: &impl Abort, asides: &[Aside], t: u32)
    ensures { IsSetAside asides.now t }
{
    let aside = is_set_aside(asides, t);
    assert!(rt; aside, "at {t}");
}

/// Asserts that each position without an outcome is in a pair.
fn assert_set_aside(rt: &impl Abort, closed: &Closed, asides: &[Aside])
    ensures { AreSetAside closed.now asides.now }
{
    let (first, len) = (closed.batch().first(), closed.batch().len());
    for i in 0..len {
        let t = first + i;
        match closed.outcome(t) {
            Some(_) => {}
            None => assert_aside(rt, asides, t),
        }
    }
}

// ---- calls

/// Sweeps these positions, and adds the number of evaluations.
pub fn sweep_these<G: Gate>(
    rt: &impl Abort,
    alloc: Global,
    board: &Board,
    pass: &mut Pass,
    share: &[u32],
    gate: &G,
    evaluations: &mut u64,
) -> Aside
    requires { IsFree board.now pass.old }
    ensures { IsFree board.now pass.new }
{
    assert_all_in(rt, board.batch(), share);
    let mut scratch = Scratch::new(alloc).expect(rt, "memory");
    let swept = sweep(alloc, board, pass, share, gate, &mut scratch, evaluations);
    swept.expect(rt, "memory")
}

/// The positions of one of several workers.
pub fn share(rt: &impl Abort, alloc: Global, batch: &Batch, worker: u32, workers: u32) -> Vec<u32>
    requires { worker < workers }
{
    share_of(alloc, batch.first(), batch.len(), worker, workers).expect(rt, "memory")
}

/// Completes a closed board, whose sweeps made this many evaluations.
pub fn finish<'a>(
    rt: &impl Abort,
    alloc: Global,
    closed: Closed<'a>,
    asides: &[Aside],
    evaluations: u64,
) -> Finished<'a>
    ensures { batch_of_finished result ≡ batch_of_closed closed.entry }
{
    assert_set_aside(rt, &closed, asides);
    let (len, left) = (
        u64::from(closed.batch().len()),
        u64::from(closed.unfinished()),
    );
    let in_range = evaluations <= len;
    assert!(rt; in_range);
    let each_once = evaluations + left <= len;
    assert!(rt; each_once);
    let mut scratch = Scratch::new(alloc).expect(rt, "memory");
    complete(closed, asides, &mut scratch, evaluations)
}

/// Runs a batch with one pass.
pub fn execute<'a>(
    rt: &impl Abort,
    alloc: Global,
    batch: Batch<'a>,
) -> Result<Finished<'a>, NoMemory>
    ensures { IfOk result (λ f. batch_of_finished f ≡ batch.entry) }
{
    let (board, mut pass) = Board::open(alloc, batch)?;
    let share = share(rt, alloc, board.batch(), 0, 1);
    let mut count = 0u64;
    let aside = sweep_these(rt, alloc, &board, &mut pass, &share, &OpenGate, &mut count);
    Ok(finish(rt, alloc, board.close(pass), &[aside], count))
}

// ---- the results of a finished batch

/// How the transaction with a timestamp ends.
pub fn outcome(rt: &impl Abort, finished: &Finished, t: u32) -> Outcome {
    assert_in(rt, finished.batch(), t);
    finished.outcome(t)
}

/// The cell of the first declared write.
pub fn cell(rt: &impl Abort, finished: &Finished, t: u32) -> Cell {
    assert_in(rt, finished.batch(), t);
    let some = finished.batch().txn(t).writes().len() > 0;
    assert!(rt; some);
    finished.cell(t, 0)
}

/// The cell of the first `show`.
pub fn shown(rt: &impl Abort, finished: &Finished, t: u32) -> Cell {
    assert_in(rt, finished.batch(), t);
    let some = shows(&finished.batch().txn(t)) > 0;
    assert!(rt; some);
    finished.show(t, 0)
}
