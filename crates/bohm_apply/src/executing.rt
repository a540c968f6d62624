//! The executing side: it runs batch after batch, as their plans arrive.

ghost use Rattle.std.specs.Prelude.{◌≡◌, ◌+◌, ◌<◌, ◌≤◌, List, All, length, IsSome, IfOk, OnOk, OnErr};
ghost use Rattle.bohm_txn.specs.Serial.{replies};
ghost use Rattle.bohm_txn.specs.declared.outcome.Reply.{Reply};
ghost use Rattle.bohm_place.specs.CutLogs.{cutting_of};
ghost use Rattle.bohm_place.specs.Cuttings.{ArePlans};
ghost use Rattle.bohm_board.specs.Bases.{IsBatched};
ghost use Rattle.bohm_store.specs.Nexts.{IsSame};
ghost use Rattle.bohm_store.specs.Versions.{past};
ghost use Rattle.bohm_apply.specs.Lines.{IsWholeLine};
ghost use Rattle.bohm_apply.specs.Progresses.{IsWalkOf};
ghost use Rattle.bohm_apply.specs.Replies.{IsEvaluated, StopsBetween};
ghost use Rattle.bohm_apply.specs.Runs.{IsApplied};
ghost use Rattle.bohm_apply.specs.Sides.{CanExecute};

use crate::plan_queue::{Line, PlanReceiver};
use crate::settling::settle_batch;
use crate::workers::{ScratchPool, finish_batch};
use bohm_exec::Gate;
use bohm_hints::IndexHints;
use bohm_log::LogPart;
use bohm_place::{CutLog, Plan};
use bohm_store::{History, ListedWrites};
use bohm_txn::{Replies, ReplySink};
use bohm_types::NoMemory;
use std::alloc::Global;
use std::sync::Wait;
use std::thread::Threads;

/// A history, and the replies of the transactions that were applied to it.
#[derive(Drop)]
pub(crate) struct Progress {
    pub(crate) history: History,
    pub(crate) replies: Replies,
}

/// Executes batches: it has the workers, the indexes of the log's keys in the history, and how many
/// timestamps below a batch's end stay readable.
#[derive(Drop)]
pub struct Executor {
    pub pool: ScratchPool,
    pub hints: IndexHints,
    pub keep: u32,
}

/// Evaluates the batch that follows the history's top, appends its replies, and lists its writes.
/// After an error some of the replies may have been appended.
fn evaluate_batch<S: ReplySink + Send + Drop, G: Gate, R: Threads + Sync>(
    rt: &R,
    alloc: Global,
    history: &History,
    hints: &IndexHints,
    pool: &mut ScratchPool,
    answered: &mut S,
    txns: &LogPart<'_>,
    plan: Plan,
    gate: &G,
) -> Result<Vec<ListedWrites>, NoMemory>
    requires batched { IsBatched txns.now plan }
    requires first { plan.first ≡ history.now.top + 1 }
    ensures evaluated { IfOk result (λ shares. IsEvaluated S.appended history.now txns.now
        answered.old answered.new shares.items) }
    ensures err { OnErr result ((more : List Reply)
        × S.appended (history.now.top + 1) answered.old more answered.new) }
{
    let batch = history.batch_with(hints, txns, plan);
    let finished = finish_batch(rt, alloc, batch, pool, gate)?;
    settle_batch(
        rt,
        alloc,
        history,
        hints,
        pool.workers(),
        answered,
        &finished,
    )
}

impl Executor {
    /// Runs the batch that follows the history's top. After an error some of its replies may have
    /// been appended.
    fn try_batch<S: ReplySink + Send + Drop, G: Gate, R: Threads + Sync>(
        &mut self,
        rt: &R,
        alloc: Global,
        history: &mut History,
        answered: &mut S,
        txns: &LogPart<'_>,
        plan: Plan,
        gate: &G,
    ) -> Result<(), NoMemory>
        requires batched { IsBatched txns.now plan }
        requires first { plan.first ≡ history.old.top + 1 }
        ensures keep { self.new.keep ≡ self.old.keep }
        ensures applied { OnOk result (IsApplied history.old history.new txns.now self.old.keep
            (replies (past history.old history.old.top) txns.now)) }
        ensures answered { OnOk result (S.appended (history.old.top + 1) answered.old
            (replies (past history.old history.old.top) txns.now) answered.new) }
        ensures same { OnErr result (IsSame history.old history.new) }
        ensures behind { OnErr result ((more : List Reply)
            × S.appended (history.old.top + 1) answered.old more answered.new) }
    {
        let count = txns.len() as u32;
        let floor = (history.top() + count).saturating_sub(self.keep);
        history.note_keys(&mut self.hints, txns.keys().names())?;
        let shares = evaluate_batch(
            rt,
            alloc,
            history,
            &self.hints,
            &mut self.pool,
            answered,
            txns,
            plan,
            gate,
        )?;
        history.install(alloc, &mut self.hints, &shares, count, floor)?;
        Ok(())
    }

    /// Runs the batch that follows the history's top. An error appends no reply, and leaves the
    /// visible state of the history unchanged.
    fn run_batch<S: ReplySink + Send + Drop, G: Gate, R: Threads + Sync>(
        &mut self,
        rt: &R,
        alloc: Global,
        history: &mut History,
        answered: &mut S,
        txns: &LogPart<'_>,
        plan: Plan,
        gate: &G,
    ) -> Result<(), NoMemory>
        requires batched { IsBatched txns.now plan }
        requires first { plan.first ≡ history.old.top + 1 }
        ensures keep { self.new.keep ≡ self.old.keep }
        ensures applied { OnOk result (IsApplied history.old history.new txns.now self.old.keep
            (replies (past history.old history.old.top) txns.now)) }
        ensures answered { OnOk result (S.appended (history.old.top + 1) answered.old
            (replies (past history.old history.old.top) txns.now) answered.new) }
        ensures same { OnErr result (IsSame history.old history.new) }
        ensures unanswered { OnErr result (answered.new ≡ answered.old) }
    {
        let before = answered.len();
        let ran = self.try_batch(rt, alloc, history, answered, txns, plan, gate);
        if ran.is_err() {
            answered.truncate(before);
        }
        ran
    }

    /// Runs the batches of a log by their plans, and appends the replies. If an allocation fails,
    /// the history is at the end of a batch, and just the replies up to there were appended. The
    /// time grows with the number of the transactions' terms, and with the number of batches for
    /// the start of their threads.
    pub fn run_planned<S: ReplySink + Send + Drop, G: Gate, R: Threads + Sync>(
        &mut self,
        rt: &R,
        alloc: Global,
        history: &mut History,
        answered: &mut S,
        log: CutLog<'_>,
        plans: Vec<Plan>,
        gate: &G,
    ) -> Result<(), NoMemory>
        requires first { (cutting_of log).first ≡ history.old.top + 1 }
        requires ordered { history.old.floor ≤ history.old.top }
        requires plans { ArePlans (cutting_of log) plans.items }
        ensures keep { self.new.keep ≡ self.old.keep }
        ensures applied { let txns = (cutting_of log.entry).log in
            OnOk result (IsApplied history.old history.new txns self.old.keep
            (replies (past history.old history.old.top) txns)) }
        ensures answered { let txns = (cutting_of log.entry).log in
            OnOk result (S.appended (history.old.top + 1) answered.old
            (replies (past history.old history.old.top) txns) answered.new) }
        ensures stopped { OnErr result (StopsBetween S.appended history.old history.new
            (cutting_of log.entry) self.old.keep answered.old answered.new) }
    {
        let mut start = 0usize;
        let mut place = 0u32;
        for plan in plans {
            let txns = log.batch(place, start);
            self.run_batch(rt, alloc, history, answered, &txns, plan, gate)?;
            start += txns.len();
            place += 1;
        }
        Ok(())
    }

    /// Runs the batches of a log, each once its plan has arrived. After a failed allocation it
    /// executes nothing more; if the failure was its own, it takes the notes that planning still
    /// sends, so that the planning side ends.
    pub(crate) fn run_batches<L: Line, G: Gate, R: Threads + Wait + Sync>(
        mut self,
        rt: &R,
        alloc: Global,
        receiver: &mut PlanReceiver<L>,
        mut progress: Progress,
        log: CutLog<'_>,
        gate: &G,
    ) -> (Progress, Result<(), NoMemory>)
        requires { CanExecute L.cutting (cutting_of log) receiver.old.notes progress }
        ensures walk { IsWalkOf progress.history (cutting_of log.entry) self.keep result }
        ensures drained { IsWholeLine L.cutting receiver.new.notes }
    {
        let mut start = 0usize;
        for place in 0..log.batches() {
            let note = receiver.take(rt);
            let Some(plan) = note.plan else {
                return (progress, Err(NoMemory));
            };
            let txns = log.batch(place, start);
            let Progress { history, replies } = &mut progress;
            if let Err(refusal) = self.run_batch(rt, alloc, history, replies, &txns, plan, gate) {
                drain(rt, receiver, log.batches() - place - 1);
                return (progress, Err(refusal));
            }
            start += txns.len();
        }
        (progress, Ok(()))
    }
}

/// Takes the rest of the notes: this many, or up to one that says that planning failed to allocate.
fn drain<L: Line, R: Wait>(rt: &R, receiver: &mut PlanReceiver<L>, left: u32)
    requires batches { length receiver.old.notes + left ≡ length L.cutting.sizes }
    requires open { All (λ taken. IsSome taken.plan) receiver.old.notes }
    ensures { IsWholeLine L.cutting receiver.new.notes }
{
    for _ in 0..left {
        if receiver.take(rt).plan.is_none() {
            return;
        }
    }
}
