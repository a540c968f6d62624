//! Executes a batch by workers that run in parallel.

ghost use Rattle.std.specs.Prelude.{◌≡◌, ℕ, ◌<◌, ◌≤◌, [], All, IfOk, length, slice_index_or, vec_len};
ghost use denote.Param.Send.{IsSync};
ghost use Rattle.bohm_board.specs.Passes.{IsPassOf, HoldsNothing, batch_of, view};
ghost use Rattle.bohm_exec.specs.Counts.{counted_on};
ghost use Rattle.bohm_exec.specs.Answers.{batch_of_finished};
ghost use Rattle.bohm_apply.specs.Sweeps.{workers_of, IsReady, IsSwept, AreAllSwept};

mod job;
mod scratch_pool;

use bohm_board::{Batch, Board, Pass};
use bohm_exec::{Aside, Finished, Gate, complete};
use bohm_types::NoMemory;
use job::Swept;
pub(crate) use job::{Job, Worker, sweep_share, work};
pub use scratch_pool::ScratchPool;
use std::alloc::Global;
use std::thread;
use std::thread::Threads;

/// A job for each worker, with its own pass, and the pass that is left.
pub(crate) fn deal(
    alloc: Global,
    board: &Board,
    mut pass: Pass,
    pool: &mut ScratchPool,
    workers: u32,
) -> Result<(Pass, Vec<Job>), NoMemory>
    requires own { IsPassOf board.now pass }
    requires free { HoldsNothing (view pass) }
    requires unused { (view pass).finished ≡ [] }
    requires scratches { workers ≤ vec_len pool.old.scratches }
    ensures own { IfOk result (λ r. IsPassOf board.now r.0) }
    ensures free { IfOk result (λ r. HoldsNothing (view r.0)) }
    ensures unused { IfOk result (λ r. (view r.0).finished ≡ []) }
    ensures count { IfOk result (λ r. length r.1.items ≡ workers) }
    ensures ready { IfOk result (λ r. All (IsReady board.now) r.1.items) }
    ensures workers { IfOk result (λ r. (w : ℕ) (d : _) → w < workers
        → (slice_index_or r.1.items w d).worker ≡ record { number = w; count = workers }) }
    ensures pool { workers_of pool.new ≡ workers_of pool.old }
{
    let mut jobs = Vec::with_capacity(alloc, workers as usize)?;
    for number in 0..workers {
        let (rest, own) = board.split(pass);
        pass = rest;
        jobs.push(Job {
            worker: Worker {
                number,
                count: workers,
            },
            pass: own,
            scratch: pool.take(),
        })?;
    }
    Ok((pass, jobs))
}

/// Carries out each job, in its own thread if there is more than one.
fn sweep_all<G: Gate, R: Threads + Sync>(
    rt: &R,
    alloc: Global,
    board: &Board,
    jobs: Vec<Job>,
    gate: &G,
) -> Result<Vec<Swept>, NoMemory>
    requires { All (IsReady board.now) jobs.items }
    ensures count { IfOk result (λ all. length all.items ≡ length jobs.items) }
    ensures each { IfOk result (λ all. (w : ℕ) (d : _) (e : _) → w < length jobs.items
        → IsSwept board.now (slice_index_or jobs.items w d).worker (slice_index_or all.items w e)) }
{
    let swept = thread::map_vec(
        rt,
        jobs,
        &|job: Job| -> Swept
            requires { IsSync G.row × IsReady board.now job }
            ensures { IsSwept board.entry.now job.worker result }
        { work(alloc, board, job, gate) },
    )?;
    Ok(swept)
}

/// Joins the passes of the workers, gathers the positions that they deferred, and adds up their
/// evaluations.
fn gather(
    alloc: Global,
    board: &Board,
    mut pass: Pass,
    swept: Vec<Swept>,
    pool: &mut ScratchPool,
) -> Result<(Pass, Vec<Aside>, u64), NoMemory>
    requires own { IsPassOf board.now pass }
    requires free { HoldsNothing (view pass) }
    requires unused { (view pass).finished ≡ [] }
    requires some { 0 < length swept.items }
    requires each { let count = length swept.items in (w : ℕ) (d : _) → w < count
        → IsSwept board.now (record { number = w; count = count }) (slice_index_or swept.items w d) }
    ensures own { IfOk result (λ r. IsPassOf board.now r.0) }
    ensures free { IfOk result (λ r. HoldsNothing (view r.0)) }
    ensures all { IfOk result (λ r. AreAllSwept (batch_of board.now) (view r.0) r.1.items) }
    ensures counted { IfOk result (λ r. r.2 ≡ counted_on 0 (length (view r.0).finished)) }
    ensures pool { workers_of pool.new ≡ workers_of pool.old }
{
    let mut asides = Vec::with_capacity(alloc, swept.len())?;
    let mut evaluations = 0u64;
    for one in swept {
        pool.give_back(one.scratch)?;
        pass = board.join(pass, one.pass);
        evaluations = evaluations.saturating_add(one.evaluations);
        asides.push(one.aside?)?;
    }
    Ok((pass, asides, evaluations))
}

/// Executes a batch with the workers of a pool, or with one worker for each transaction if those
/// are fewer. Each worker sweeps its share of the positions in its own thread, and then once more
/// the positions that it deferred; a single worker starts no thread. The positions that are left
/// then are evaluated in log order.
///
/// A worker whose allocation fails ends, and the others finish their shares. An error drops the
/// batch, with the scratches of workers that weren't gathered yet.
pub fn finish_batch<'a, G: Gate, R: Threads + Sync>(
    rt: &R,
    alloc: Global,
    batch: Batch<'a>,
    pool: &mut ScratchPool,
    gate: &G,
) -> Result<Finished<'a>, NoMemory>
    ensures batch { IfOk result (λ f. batch_of_finished f ≡ batch.entry) }
    ensures pool { workers_of pool.new ≡ workers_of pool.old }
{
    let workers = pool.workers().min(batch.len());
    pool.fill(alloc, workers)?;
    let (board, pass) = Board::open(alloc, batch)?;
    let (pass, jobs) = deal(alloc, &board, pass, pool, workers)?;
    let swept = sweep_all(rt, alloc, &board, jobs, gate)?;
    let (pass, asides, evaluations) = gather(alloc, &board, pass, swept, pool)?;
    let closed = board.close(pass);
    Ok(complete(closed, &asides, &mut pool.last, evaluations))
}
