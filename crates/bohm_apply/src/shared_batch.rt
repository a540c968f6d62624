//! A batch that workers evaluate on threads of the caller's own.

ghost use Rattle.std.specs.Prelude.{◌≡◌, ◌∷◌, [], All, IfOk, IfErr};
ghost use Rattle.bohm_board.specs.Batches.{IsIn};
ghost use Rattle.bohm_board.specs.Passes.{IsPassOf, HoldsNothing, batch_of, view};
ghost use Rattle.bohm_exec.specs.Answers.{batch_of_finished};
ghost use Rattle.bohm_exec.specs.Counts.{AreCounted};
ghost use Rattle.bohm_apply.specs.Sweeps.{AreAllSwept, IsLeftBy, IsReady};

use crate::workers::{Job, ScratchPool, deal, work};
use bohm_board::{Batch, Board, Pass, Status};
use bohm_exec::{Aside, Finished, OpenGate, complete, sweep};
use bohm_settings::Executors;
use bohm_txn::Scratch;
use bohm_types::NoMemory;
use std::alloc::Global;
use std::slice;
use std::sync::Arc;

/// A batch that borrows nothing, and whose positions workers evaluate, on whatever threads their
/// owners call them. It starts no thread, and nothing waits: what the workers leave, `finish`
/// evaluates.
pub struct SharedBatch {
    board: Arc<Board<'static>>,
    pass: Pass,
    // The jobs of the workers that weren't made yet.
    jobs: Vec<Job>,
    pool: ScratchPool,
    ghost own: { IsPassOf board.value pass },
    ghost free: { HoldsNothing (view pass) },
    ghost unused: { (view pass).finished ≡ [] },
    ghost ready: { All (IsReady board.value) jobs.items },
}

// Written out: a derived drop is proved anew in each function that drops such a value.
impl Drop for SharedBatch {
    fn drop(self) {
        let Self {
            board,
            pass,
            jobs,
            pool,
        } = self;
        drop(board);
        drop(pass);
        drop(jobs);
        drop(pool);
    }
}

/// A worker of a shared batch: it sweeps its share of the positions, once. It may go to another
/// thread.
pub struct BatchWorker {
    board: Arc<Board<'static>>,
    job: Job,
    ghost ready: { IsReady board.value job },
}

// Written out: a derived drop is proved anew in each function that drops such a value.
impl Drop for BatchWorker {
    fn drop(self) {
        let Self { board, job } = self;
        drop(board);
        drop(job);
    }
}

impl BatchWorker {
    /// Sweeps its share of the batch's positions, and then once more those that it deferred, and
    /// gives up its part in the batch. It allocates the list of its share; if that fails, it leaves
    /// its positions to others.
    pub fn work(self, alloc: Global) {
        let BatchWorker { board, job } = self;
        drop(work(alloc, &*board, job, &OpenGate));
        drop(board);
    }
}

/// The positions that a pass doesn't see Done.
fn unfinished(alloc: Global, board: &Board, pass: &mut Pass) -> Result<Vec<u32>, NoMemory>
    requires own { IsPassOf board.now pass.old }
    requires free { HoldsNothing (view pass.old) }
    ensures own { IsPassOf board.now pass.new }
    ensures free { HoldsNothing (view pass.new) }
    ensures same { (view pass.new).finished ≡ (view pass.old).finished }
    ensures left { IfOk result (λ left. IsLeftBy (batch_of board.now) (view pass.new) left.items) }
    ensures inside { IfOk result (λ left. All (IsIn (batch_of board.now)) left.items) }
{
    let (first, len) = (board.batch().first(), board.batch().len());
    let mut left = Vec::new(alloc);
    for distance in 0..len {
        let t = first + distance;
        match board.status(pass, t) {
            Status::Done => {}
            _ => left.push(t)?,
        }
    }
    Ok(left)
}

/// Evaluates the positions that a pass doesn't see Done. Their evaluations are added to
/// `evaluations`.
fn sweep_left(
    alloc: Global,
    board: &Board,
    pass: &mut Pass,
    scratch: &mut Scratch,
    evaluations: &mut u64,
) -> Result<Aside, NoMemory>
    requires own { IsPassOf board.now pass.old }
    requires free { HoldsNothing (view pass.old) }
    ensures own { IsPassOf board.now pass.new }
    ensures free { HoldsNothing (view pass.new) }
    ensures counted { AreCounted evaluations.old (view pass.old) evaluations.new (view pass.new) }
    ensures all { IfOk result
        (λ aside. AreAllSwept (batch_of board.now) (view pass.new) (aside ∷ [])) }
{
    let left = unfinished(alloc, board, pass)?;
    sweep(alloc, board, pass, &left, &OpenGate, scratch, evaluations)
}

/// Evaluates the positions that no worker finished, and closes the board. If an allocation fails,
/// the batch is returned without its results.
fn finish_alone<'a>(
    alloc: Global,
    board: Board<'a>,
    mut pass: Pass,
    scratch: &mut Scratch,
) -> Result<Finished<'a>, Batch<'a>>
    requires own { IsPassOf board pass }
    requires free { HoldsNothing (view pass) }
    requires unused { (view pass).finished ≡ [] }
    ensures batch { IfOk result (λ f. batch_of_finished f ≡ batch_of board.entry) }
    ensures refused { IfErr result (λ b. b ≡ batch_of board.entry) }
{
    let mut evaluations = 0u64;
    match sweep_left(alloc, &board, &mut pass, scratch, &mut evaluations) {
        Ok(aside) => {
            let closed = board.close(pass);
            let asides = slice::from_ref(&aside);
            Ok(complete(closed, asides, scratch, evaluations))
        }
        Err(_) => Err(board.into_batch()),
    }
}

impl SharedBatch {
    ghost use Rattle.bohm_apply.specs.Shared.{batch_shared};

    /// Opens a board for a batch and this many workers, or one for each of its transactions if
    /// these are fewer. If an allocation fails, the batch is returned. The time and the memory grow
    /// with the number of the batch's transactions and of their slots.
    pub fn open(
        alloc: Global,
        batch: Batch<'static>,
        workers: Executors,
    ) -> Result<SharedBatch, Batch<'static>>
        ensures batch { IfOk result (λ s. batch_shared s ≡ batch.entry) }
        ensures refused { IfErr result (λ b. b ≡ batch.entry) }
    {
        let count = workers.count().min(batch.len());
        let Ok(mut pool) = ScratchPool::filled(alloc, workers, count) else {
            return Err(batch);
        };
        let (board, pass) = Board::try_open(alloc, batch)?;
        let (pass, jobs) = match deal(alloc, &board, pass, &mut pool, count) {
            Ok(dealt) => dealt,
            Err(_) => return Err(board.into_batch()),
        };
        match Arc::new(alloc, board) {
            Ok(board) => Ok(SharedBatch {
                board,
                pass,
                jobs,
                pool,
            }),
            Err(failed) => Err(failed.value.into_batch()),
        }
    }

    /// The next worker, if not all were made. An error leaves its share to later calls.
    pub fn next_worker(&mut self) -> Result<Option<BatchWorker>, NoMemory>
        ensures { batch_shared self.new ≡ batch_shared self.old }
    {
        let board = Arc::try_clone(&self.board)?;
        match self.jobs.pop() {
            Some(job) => Ok(Some(BatchWorker { board, job })),
            None => Ok(None),
        }
    }

    /// Evaluates what the workers left, and closes the board, once each worker that was made has
    /// worked or was dropped: until then the batch is returned as it is. Workers that weren't made
    /// or didn't work cost time alone: their positions are evaluated here.
    ///
    /// If an allocation fails, the batch is returned without its results.
    pub fn finish(
        self,
        alloc: Global,
    ) -> Result<Result<Finished<'static>, Batch<'static>>, SharedBatch>
        ensures finished { IfOk result
            (λ ended. IfOk ended (λ f. batch_of_finished f ≡ batch_shared self)) }
        ensures refused { IfOk result (λ ended. IfErr ended (λ b. b ≡ batch_shared self)) }
        ensures early { IfErr result (λ s. batch_shared s ≡ batch_shared self) }
    {
        let SharedBatch {
            board,
            pass,
            jobs,
            mut pool,
        } = self;
        match Arc::try_unwrap(board) {
            Ok(board) => Ok(finish_alone(alloc, board, pass, &mut pool.last)),
            Err(board) => Err(SharedBatch {
                board,
                pass,
                jobs,
                pool,
            }),
        }
    }
}
