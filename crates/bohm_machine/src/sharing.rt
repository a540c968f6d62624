//! Calls that several workers run, on threads of the caller's own.

ghost use Rattle.std.specs.Prelude.{◌≡◌, ◌+◌, ◌<◌, ◌≤◌, [], length, take, true, false};
ghost use Rattle.std.specs.Prelude.{All, Err, IfOk, IfErr, OnOk, OnErr, is_ok};
ghost use Rattle.bohm_types.specs.Document.{Document};
ghost use Rattle.bohm_types.specs.Appending.{empty_document};
ghost use Rattle.bohm_types.specs.Limits.{largest_batch, most_txns};
ghost use Rattle.bohm_txn.specs.Faulty.{IsWellFormedTxn};
ghost use Rattle.bohm_place.specs.Plans.{IsPlannable, IsPlanned};
ghost use Rattle.bohm_apply.specs.Shared.{batch_shared};
ghost use Rattle.bohm_board.specs.Bases.{IsBatched};
ghost use Rattle.bohm_board.specs.Batches.{Owns, txns_of};
ghost use Rattle.bohm_exec.specs.Answers.{batch_of_finished};
ghost use Rattle.bohm_store.specs.Nexts.{IsNext};
ghost use Rattle.bohm_machine.specs.Machines.{GoesOn, top_of};
ghost use Rattle.bohm_machine.specs.Segments.{AreWholeBatches, IsRefused, IsTaken, RunsOn};
ghost use Rattle.bohm_machine.specs.Shares.{are_shared};
ghost use Rattle.bohm_machine.specs.declared.fault.ShareFault.TheVariants as share_is;
ghost use Rattle.bohm_machine.specs.declared.fault.SegmentFault.{SegmentFault};

use crate::fault::ShareFault;
use crate::machine::{Machine, unapplied};
use bohm_apply::{
    Applied, BatchWorker, Executors, LARGEST_BATCH, MOST_WORKERS, Settings, SharedBatch,
    settle_alone,
};
use bohm_board::Batch;
use bohm_exec::Finished;
use bohm_log::LogPart;
use bohm_place::{Newest, Plan, plan_alone};
use bohm_procedures::Calls;
use bohm_read_ahead::{Sharing, sharing_of};
use bohm_txn::Checked;
use bohm_types::NoMemory;
use std::alloc::Global;
use std::marker::Model;
use std::snapshot::Snapshot;

/// Calls that workers run after the top of a machine. Contracts see the machine and the calls as
/// they were when the calls were shared.
pub struct SharedCalls {
    batch: SharedBatch,
    machine: Snapshot<Machine>,
    calls: Snapshot<Calls>,
}

// Written out: a derived drop is proved anew in each function that drops such a value.
impl Drop for SharedCalls {
    fn drop(self) {
        let Self {
            batch,
            machine,
            calls,
        } = self;
        drop(batch);
        drop(machine);
        drop(calls);
    }
}

impl Model for SharedCalls {
    ghost use Rattle.bohm_apply.specs.Shared.{batch_shared};
    ghost use Rattle.bohm_board.specs.Batches.{Owns};
    ghost use Rattle.bohm_store.specs.Nexts.{IsNext};
    ghost use Rattle.bohm_machine.specs.Shares.{Shared};

    ghost Value = { Shared };

    ghost view = { λ s. record { was = s.machine.value; calls = s.calls.value } };

    ghost invariant = { λ s. IsNext s.machine.value (batch_shared s.batch)
        × Owns (batch_shared s.batch) s.calls.value };
}

/// Whether this many workers run these transactions faster than one: they are one batch, and a part
/// of a log that is shared.
fn are_shared(txns: &LogPart<'_>, workers: Executors) -> bool
    requires few { length txns.now ≤ most_txns }
    requires formed { All IsWellFormedTxn txns.now }
    ensures shared { result ≡ are_shared workers txns.now }
    ensures some { result ≡ true → 0 < length txns.now }
    ensures few { result ≡ true → length txns.now ≤ largest_batch }
{
    let count = txns.len();
    if count == 0 || count > LARGEST_BATCH as usize || workers.count() > MOST_WORKERS {
        return false;
    }
    match Settings::new(1, workers.count(), 1, LARGEST_BATCH, 0, None) {
        Some(settings) => matches!(sharing_of(txns, settings), Sharing::Shared),
        None => unreachable!(),
    }
}

/// The plan of these transactions, which follow a timestamp.
fn planned(alloc: Global, txns: &LogPart<'_>, top: u32) -> Result<Plan, NoMemory>
    requires some { 0 < length txns.now }
    requires plannable { IsPlannable (top + 1) txns.now }
    ensures { IfOk result (IsPlanned (top + 1) txns.now) }
{
    let (_, plan) = plan_alone(alloc, Newest::new(alloc), top + 1, txns)?;
    Ok(plan)
}

impl SharedCalls {
    /// The next worker, if not all were made: as many as there are workers, or calls if these are
    /// fewer. It may go to another thread. An error makes none.
    pub fn next_worker(&mut self) -> Result<Option<BatchWorker>, NoMemory>
        ensures { self.new ≡ self.old }
    {
        self.batch.next_worker()
    }

    // Evaluates what the workers left, once none of them is left: the batch with its results, or
    // without them if an allocation fails.
    fn end(self, alloc: Global) -> Result<Result<Finished<'static>, Batch<'static>>, SharedCalls>
        ensures next { IfOk result (λ ended. IfOk ended
            (λ f. IsNext self.was (batch_of_finished f))) }
        ensures owns { IfOk result (λ ended. IfOk ended
            (λ f. Owns (batch_of_finished f) self.calls)) }
        ensures few { IfOk result (λ ended. IfOk ended
            (λ _. length self.calls.log ≤ largest_batch)) }
        ensures refused { IfOk result (λ ended. IfErr ended (λ b. Owns b self.calls)) }
        ensures early { IfErr result (λ s. s ≡ self) }
    {
        let SharedCalls {
            batch,
            machine,
            calls,
        } = self;
        match batch.finish(alloc) {
            Ok(ended) => Ok(ended),
            Err(batch) => Err(SharedCalls {
                batch,
                machine,
                calls,
            }),
        }
    }
}

impl Machine {
    /// Shares the calls of a list among this many workers, which run them after the top: plans them
    /// as one batch, and takes them out of the list, which is empty until `finish` puts them back.
    /// It starts no thread: each worker of `SharedCalls::next_worker` works on whatever thread
    /// calls it, and then `finish` ends the batch. Until then the machine must not change.
    ///
    /// `InOrder` if one worker runs them in less time: there is one worker, the bodies are short, or
    /// there are no calls; and if there are more than 4096 calls or more than 16 workers. An error
    /// leaves the list unchanged.
    ///
    /// The time and the memory grow with the numbers of keys that the calls declare, of their
    /// statements and terms, and of the list's keys.
    pub fn share(
        &mut self,
        alloc: Global,
        calls: &mut Calls,
        workers: Executors,
    ) -> Result<SharedCalls, ShareFault>
        ensures same { self.new ≡ self.old }
        ensures shared { IfOk result (λ s. s ≡ record { was = self.old; calls = calls.old }) }
        ensures taken { OnOk result (IsTaken self.old calls.old) }
        ensures left { OnOk result (calls.new ≡ empty_document calls.old.edition) }
        ensures long { OnOk result (are_shared workers calls.old.log ≡ true) }
        ensures refused { (fault : SegmentFault) → result ≡ Err (share_is.Segment fault)
            → IsRefused self.old calls.old fault }
        ensures in_order { result ≡ Err share_is.InOrder → are_shared workers calls.old.log ≡ false }
        ensures unchanged { OnErr result (calls.new ≡ calls.old) }
    {
        self.admit(calls.segment())?;
        let txns = calls.segment().log();
        if !are_shared(&txns, workers) {
            return Err(ShareFault::InOrder);
        }
        let plan = planned(alloc, &txns, self.top())?;
        let (machine, listed) = (Snapshot::of(self), Snapshot::of(calls));
        match self.open_batch(alloc, calls.take_segment(alloc), plan, workers) {
            Ok(batch) => Ok(SharedCalls {
                batch,
                machine,
                calls: listed,
            }),
            Err(segment) => {
                calls.put_segment(segment);
                Err(ShareFault::NoMemory)
            }
        }
    }

    // Opens the board of a segment's transactions, which have this plan. If an allocation fails,
    // the segment is returned.
    fn open_batch(
        &mut self,
        alloc: Global,
        segment: Checked,
        plan: Plan,
        workers: Executors,
    ) -> Result<SharedBatch, Checked>
        requires batched { IsBatched segment.log plan }
        requires first { plan.first ≡ top_of self.old + 1 }
        ensures same { self.new ≡ self.old }
        ensures next { IfOk result (λ s. IsNext self.old (batch_shared s)) }
        ensures owns { IfOk result (λ s. Owns (batch_shared s) segment) }
        ensures refused { IfErr result (λ d. d ≡ segment) }
    {
        let batch = self
            .history
            .own_batch(alloc, &mut self.hints, segment, plan)?;
        match SharedBatch::open(alloc, batch, workers) {
            Ok(batch) => Ok(batch),
            Err(batch) => Err(document_of(batch)),
        }
    }

    /// Ends a batch that `share` made of this machine, which didn't change since, once each worker
    /// that was made has worked or was dropped: runs what the workers left, adds the versions, and
    /// puts the calls back into the list. The replies are those of `run_calls`. If a worker is left,
    /// nothing happens, and the batch is returned.
    ///
    /// If an allocation fails, nothing was run, no reply is returned, and the calls can be run
    /// again. The time grows with that of the positions that the workers left, and with the number
    /// of the calls' keys and statements.
    pub fn finish(
        &mut self,
        alloc: Global,
        shared: SharedCalls,
        calls: &mut Calls,
    ) -> Result<Applied, SharedCalls>
        requires { shared.was ≡ self.old }
        ensures calls { OnOk result (calls.new ≡ shared.calls) }
        ensures goes_on { IfOk result
            (λ a. GoesOn self.old self.new (take (length a.replies) shared.calls.log) a.replies) }
        ensures runs_on { IfOk result
            (λ a. RunsOn self.old self.new (take (length a.replies) shared.calls.log) a.replies) }
        ensures batches { IfOk result
            (λ a. 0 < length a.replies
            → AreWholeBatches shared.calls.log largest_batch (length a.replies)) }
        ensures whole { IfOk result
            (λ a. is_ok a.end ≡ true → length a.replies ≡ length shared.calls.log) }
        ensures early { IfErr result (λ s. s ≡ shared) }
        ensures unchanged { OnErr result (self.new ≡ self.old) }
        ensures unlisted { OnErr result (calls.new ≡ calls.old) }
    {
        match shared.end(alloc)? {
            Ok(finished) => {
                let applied = self.settle(alloc, &finished);
                calls.put_segment(document_of(finished.into_batch()));
                Ok(applied)
            }
            Err(batch) => {
                calls.put_segment(document_of(batch));
                Ok(unapplied(alloc, NoMemory))
            }
        }
    }

    // Adds the versions of the next batch: all of them, or none.
    fn settle(&mut self, alloc: Global, finished: &Finished<'_>) -> Applied
        requires { IsNext self.old (batch_of_finished finished.now) }
        ensures goes_on { let txns = txns_of (batch_of_finished finished.now) in
            GoesOn self.old self.new (take (length result.replies) txns) result.replies }
        ensures all { 0 < length result.replies
            → length result.replies ≡ length (txns_of (batch_of_finished finished.now)) }
        ensures whole { is_ok result.end ≡ true
            → length result.replies ≡ length (txns_of (batch_of_finished finished.now)) }
    {
        // The call's contract says that the floor isn't above the top.
        let _ = self.top();
        let (history, hints) = (&mut self.history, &mut self.hints);
        let replies = match settle_alone(alloc, history, hints, finished, u32::MAX) {
            Ok(replies) => replies,
            Err(refusal) => return unapplied(alloc, refusal),
        };
        Applied {
            replies,
            end: Ok(()),
        }
    }
}

/// The document that a batch owns.
fn document_of(batch: Batch<'static>) -> Checked
    requires { (document : Document) × Owns batch document }
    ensures { (document : Document) → Owns batch.entry document → result ≡ document }
{
    match batch.into_document() {
        Some(document) => document,
        None => unreachable!(),
    }
}
