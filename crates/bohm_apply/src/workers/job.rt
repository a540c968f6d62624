//! The job of one worker.

ghost use Rattle.std.specs.Prelude.{◌≡◌, ◌<◌, IfOk};
ghost use Rattle.bohm_board.specs.Passes.{IsPassOf, HoldsNothing, batch_of, view};
ghost use Rattle.bohm_exec.specs.Asides.{positions_in};
ghost use Rattle.bohm_exec.specs.Counts.{AreCounted};
ghost use Rattle.bohm_apply.specs.Sweeps.{IsShareSwept, IsReady, IsSwept};

use bohm_board::{Board, Pass};
use bohm_exec::{Aside, Gate, share_of, sweep};
use bohm_txn::Scratch;
use bohm_types::NoMemory;
use std::alloc::Global;

/// One of `count` workers: it has each position whose distance from the batch's first is its own
/// number modulo `count`.
#[derive(Clone, Copy, Debug)]
pub(crate) struct Worker {
    pub(crate) number: u32,
    pub(crate) count: u32,
}

/// The initial state of a worker.
#[derive(Drop)]
pub(crate) struct Job {
    pub(crate) worker: Worker,
    pub(crate) pass: Pass,
    pub(crate) scratch: Scratch,
}

/// The result of a worker, even if an allocation failed.
#[derive(Drop)]
pub(crate) struct Swept {
    pub(crate) pass: Pass,
    pub(crate) scratch: Scratch,
    /// How many evaluations it made.
    pub(crate) evaluations: u64,
    pub(crate) aside: Result<Aside, NoMemory>,
}

/// The positions that were deferred.
fn positions(alloc: Global, aside: &Aside) -> Result<Vec<u32>, NoMemory>
    ensures { IfOk result (λ v. v.items ≡ positions_in aside.now) }
{
    let positions = aside.pairs().iter().map(|pair| pair.0).collect(alloc)?;
    Ok(positions)
}

/// Sweeps the share of a worker, and then once more the positions that were deferred. Their
/// evaluations are added to `evaluations`.
pub(crate) fn sweep_share<G: Gate>(
    alloc: Global,
    board: &Board,
    pass: &mut Pass,
    worker: Worker,
    gate: &G,
    scratch: &mut Scratch,
    evaluations: &mut u64,
) -> Result<Aside, NoMemory>
    requires own { IsPassOf board.now pass.old }
    requires free { HoldsNothing (view pass.old) }
    requires worker { worker.number < worker.count }
    ensures own { IsPassOf board.now pass.new }
    ensures free { HoldsNothing (view pass.new) }
    ensures share { IfOk result (IsShareSwept (batch_of board.now) worker (view pass.new)) }
    ensures counted { AreCounted evaluations.old (view pass.old) evaluations.new (view pass.new) }
{
    let batch = board.batch();
    let share = share_of(
        alloc,
        batch.first(),
        batch.len(),
        worker.number,
        worker.count,
    )?;
    let aside = sweep(alloc, board, pass, &share, gate, scratch, evaluations)?;
    if aside.pairs().is_empty() {
        return Ok(aside);
    }
    let again = positions(alloc, &aside)?;
    sweep(alloc, board, pass, &again, gate, scratch, evaluations)
}

/// Carries out a job.
pub(crate) fn work<G: Gate>(alloc: Global, board: &Board, job: Job, gate: &G) -> Swept
    requires { IsReady board.now job }
    ensures { IsSwept board.now job.worker result }
{
    let Job {
        worker,
        mut pass,
        mut scratch,
    } = job;
    let mut evaluations = 0u64;
    let aside = sweep_share(
        alloc,
        board,
        &mut pass,
        worker,
        gate,
        &mut scratch,
        &mut evaluations,
    );
    Swept {
        pass,
        scratch,
        evaluations,
        aside,
    }
}
