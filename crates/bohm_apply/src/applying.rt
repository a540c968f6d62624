//! Applies a log to a history: planning runs in its own thread, ahead of execution.

ghost use Rattle.std.specs.Prelude.{◌≡◌, ℕ, ◌+◌, ◌<◌, ◌^◌, [], All, length, min, take, true, is_ok};
ghost use Rattle.std.specs.Prelude.{IfOk};
ghost use Rattle.std.specs.List.{sum};
ghost use denote.Param.Send.{IsSend, IsSync};
ghost use Rattle.bohm_txn.specs.Faulty.{IsWellFormedTxn};
ghost use Rattle.bohm_place.specs.CutLogs.{cutting_of};
ghost use Rattle.bohm_apply.specs.Planning.{CanPlan};
ghost use Rattle.bohm_apply.specs.Progresses.{IsWalkOf};
ghost use Rattle.bohm_apply.specs.Runs.{cutting_behind, IsApplied, IsEndOfBatch};
ghost use Rattle.bohm_apply.specs.Sides.{CanExecute};
ghost use Rattle.bohm_apply.specs.Sweeps.{workers_of};

use crate::executing::{Executor, Progress};
use crate::plan_queue::{Line, PlanReceiver, PlanSender, plan_line};
use crate::planning_side::plan_ahead;
use crate::workers::ScratchPool;
use bohm_exec::{Gate, Point};
use bohm_hints::IndexHints;
use bohm_log::LogPart;
use bohm_place::{CutLog, Cuts, Newest, Partition};
use bohm_settings::{Executors, Kept, Planners};
use bohm_store::History;
use bohm_txn::Replies;
use bohm_types::NoMemory;
use std::alloc::Global;
use std::marker::Brand;
use std::sync::Wait;
use std::thread::Threads;
use std::{mem, thread};

/// The result of applying a log to a history.
#[derive(Drop)]
pub struct Applied {
    /// The replies of the transactions that were settled, in log order.
    pub replies: Replies,
    /// Whether all of them were settled, or an allocation failed before the rest.
    pub end: Result<(), NoMemory>,
}

/// The initial state of both sides of a run.
#[derive(Drop)]
struct Sides<L: Line> {
    executor: Executor,
    newest: Vec<Newest>,
    sender: PlanSender<L>,
    receiver: PlanReceiver<L>,
}

/// Creates the initial state of both sides. At most as many workers plan as the keys have parts.
fn set_up<L: Line, P: Partition>(
    alloc: Global,
    planners: Planners,
    executors: Executors,
    keep: Kept,
    partition: &P,
) -> Result<Sides<L>, NoMemory>
    ensures keep { IfOk result (λ s. s.executor.keep ≡ keep) }
    ensures executors { IfOk result (λ s. workers_of s.executor.pool ≡ executors) }
    ensures planners { IfOk result
        (λ s. length s.newest.items ≡ min planners (P.count partition.now)) }
    ensures some { IfOk result (λ s. 0 < length s.newest.items) }
    ensures unplanned { IfOk result
        (λ s. (t : ℕ) → All (λ a. All (λ v. v.begin < t) a) s.newest.items) }
    ensures queue { IfOk result (λ s. s.receiver.queue ≡ s.sender.queue) }
    ensures unsent { IfOk result (λ s. s.sender.notes ≡ []) }
    ensures untaken { IfOk result (λ s. s.receiver.notes ≡ []) }
{
    let pool = ScratchPool::new(alloc, executors)?;
    let newest = Newest::several(alloc, planners.count().min(partition.parts()))?;
    let (sender, receiver) = plan_line::<L>(alloc)?;
    Ok(Sides {
        executor: Executor {
            pool,
            hints: IndexHints::new(alloc),
            keep: keep.timestamps(),
        },
        newest,
        sender,
        receiver,
    })
}

/// Executes the log, with the planning side in its own thread.
fn walk<L: Line + Send + Sync, P: Partition, G: Gate, R: Threads + Wait + Sync>(
    rt: &R,
    alloc: Global,
    sides: Sides<L>,
    progress: Progress,
    log: CutLog<'_>,
    partition: &P,
    gate: &G,
) -> (Progress, Result<(), NoMemory>)
    requires queue { sides.receiver.queue ≡ sides.sender.queue }
    requires plans { CanPlan L.cutting (cutting_of log) sides.sender.notes sides.newest.items }
    requires executes { CanExecute L.cutting (cutting_of log) sides.receiver.notes progress }
    ensures { IsWalkOf progress.history (cutting_of log.entry) sides.executor.keep result }
{
    let Sides {
        executor,
        newest,
        sender,
        mut receiver,
    } = sides;
    thread::scope(
        thread::scope_env(),
        rt,
        move |scope| -> (Progress, Result<(), NoMemory>)
            requires { IsSync R.row × IsSync P.row × IsSync G.row × IsSend L.row
                × CanPlan L.cutting (cutting_of log) sender.notes newest.items
                × CanExecute L.cutting (cutting_of log) receiver.notes progress }
            ensures { IsWalkOf progress.history (cutting_of log.entry) executor.keep result }
        {
            let planning = scope.spawn(
                move ||
                    requires { IsSync R.row × IsSync P.row × IsSync G.row × IsSend L.row
                        × CanPlan L.cutting (cutting_of log) sender.notes newest.items }
                {
                    let planned = |batch: u32| gate.at(Point::Planned(batch));
                    plan_ahead(rt, alloc, sender, newest, log, partition, &planned);
                },
            );
            if planning.is_err() {
                return (progress, Err(NoMemory));
            }
            executor.run_batches(rt, alloc, &mut receiver, progress, log, gate)
        },
    )
}

/// Plans and executes some transactions; the plan queue is for their cutting.
fn apply_on<L: Line + Send + Sync, P: Partition, G: Gate, R: Threads + Wait + Sync>(
    rt: &R,
    alloc: Global,
    history: History,
    txns: &LogPart<'_>,
    cuts: &Cuts,
    planners: Planners,
    executors: Executors,
    keep: Kept,
    partition: &P,
    gate: &G,
) -> (Progress, Result<(), NoMemory>)
    requires cutting { L.cutting ≡ cutting_behind history txns.now cuts.now }
    requires some { 0 < length txns.now }
    requires total { sum cuts.now ≡ length txns.now }
    requires timestamps { history.top + length txns.now < 2 ^ 32 }
    requires formed { All IsWellFormedTxn txns.now }
    ensures { IsWalkOf history (cutting_behind history txns.entry.now cuts.entry.now) keep result }
{
    let log = CutLog::new(history.top() + 1, txns, cuts);
    let mut replies = Replies::new(alloc);
    let reserved = replies.reserve(txns.len());
    let progress = Progress { history, replies };
    if reserved.is_err() {
        return (progress, Err(NoMemory));
    }
    match set_up(alloc, planners, executors, keep, partition) {
        Ok(sides) => walk::<L, P, G, R>(rt, alloc, sides, progress, log, partition, gate),
        Err(refusal) => (progress, Err(refusal)),
    }
}

/// Applies the transactions to a history, in batches of this cutting, the first of which starts
/// after the top.
///
/// A planning side in its own thread plans batch after batch, with `cc` workers, and is up to three
/// batches ahead. `exec` workers sweep their shares of each planned batch at the same time. After a
/// batch that ends at e the floor becomes `e - keep`, unless it is above that already. Both numbers
/// of workers may be larger than the work requires: a worker without work isn't started.
///
/// If an allocation or the start of the planning side's thread fails, the history is at the end of
/// a batch, and the replies up to there are returned: nothing is lost, and the rest can be applied
/// again.
///
/// The time grows with the terms of the transactions and with their replies, which are spread over
/// the executing workers if bodies don't wait for one another. On the executing side's single
/// thread it also grows with the number of the log's keys, with the number of writes that each
/// batch declares, with the replies, which it joins, and, if there are several workers, with the
/// start of threads for each batch. The memory grows with the number of the log's keys, on the
/// planning side once for each worker, and with the values that the transactions show.
pub fn apply<P: Partition, G: Gate, R: Threads + Wait + Sync>(
    rt: &R,
    alloc: Global,
    history: &mut History,
    txns: &LogPart<'_>,
    cuts: &Cuts,
    cc: Planners,
    exec: Executors,
    keep: Kept,
    partition: &P,
    gate: &G,
) -> Applied
    requires total { sum cuts.now ≡ length txns.now }
    requires timestamps { history.old.top + length txns.now < 2 ^ 32 }
    requires formed { All IsWellFormedTxn txns.now }
    ensures applied { let settled = take (length result.replies) txns.now in
        IsApplied history.old history.new settled keep result.replies }
    ensures batches { IsEndOfBatch cuts.now (length result.replies) }
    ensures whole { is_ok result.end ≡ true → length result.replies ≡ length txns.now }
{
    if txns.len() == 0 {
        return Applied {
            replies: Replies::new(alloc),
            end: Ok(()),
        };
    }
    let taken = mem::replace(history, History::empty(alloc));
    let (progress, end) = apply_on::<Brand, P, G, R>(
        rt, alloc, taken, txns, cuts, cc, exec, keep, partition, gate,
    );
    *history = progress.history;
    Applied {
        replies: progress.replies,
        end,
    }
}
