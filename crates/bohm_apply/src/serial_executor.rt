//! Execution on one thread, in log order.

ghost use Rattle.std.specs.Prelude.{◌≡◌, ◌⊎◌, ◌+◌, ◌-◌, ◌<◌, ◌≤◌, ◌^◌, ◌++◌, ◌∷◌, []};
ghost use Rattle.std.specs.Prelude.{List, All, length, take, true, is_ok, OnOk, OnErr};
ghost use Rattle.std.specs.List.{sum};
ghost use Rattle.bohm_txn.specs.declared.outcome.Reply.{Reply};
ghost use Rattle.bohm_txn.specs.Faulty.{IsWellFormedTxn};
ghost use Rattle.bohm_txn.specs.Meaning.{body};
ghost use Rattle.bohm_txn.specs.Serial.{replies, reply_of};
ghost use Rattle.bohm_store.specs.Nexts.{IsSame, IsSettledKept};
ghost use Rattle.bohm_store.specs.Versions.{past};
ghost use Rattle.bohm_place.specs.CutLogs.{cutting_of};
ghost use Rattle.bohm_apply.specs.Runs.{IsApplied, IsEndOfBatch, IsStillPast, IsWalked, RanSome};

use crate::applying::Applied;
use bohm_hints::IndexHints;
use bohm_log::{LogPart, TxnView};
use bohm_place::{CutLog, Cuts};
use bohm_shapes::Registers;
use bohm_store::{History, Workspace};
use bohm_txn::{Replies, ReplySink, Scratch};
use bohm_types::NoMemory;
use std::alloc::Global;
use std::mem;

/// Runs transactions in log order on the caller's thread. It shares no transaction with other
/// workers, so it claims and plans nothing. Its memory is reused for each transaction and each log.
pub struct SerialExecutor {
    /// The index hints of the logs that it applied.
    hints: IndexHints,
    pub(crate) workspace: Workspace,
    scratch: Scratch,
    /// What a single call is evaluated in.
    pub(crate) registers: Registers,
}

// Written out: a derived drop is proved anew in each function that drops such a value.
impl Drop for SerialExecutor {
    fn drop(self) {
        let Self {
            hints,
            workspace,
            scratch,
            registers,
        } = self;
        drop(hints);
        drop(workspace);
        drop(scratch);
        drop(registers);
    }
}

impl SerialExecutor {
    pub fn new(alloc: Global) -> Result<SerialExecutor, NoMemory> {
        Ok(SerialExecutor {
            hints: IndexHints::new(alloc),
            workspace: Workspace::new(alloc),
            scratch: Scratch::new(alloc)?,
            registers: Registers::new(alloc)?,
        })
    }

    /// Runs the transaction that follows the history's top, and appends its reply. After an error
    /// the transaction may or may not have run, and has no reply.
    fn run_next<S: ReplySink>(
        &mut self,
        history: &mut History,
        answered: &mut S,
        txn: &TxnView<'_>,
        hints: &mut IndexHints,
        keep: u32,
    ) -> Result<(), NoMemory>
        requires well { IsWellFormedTxn txn.now }
        requires timestamp { history.old.top + 1 < 2 ^ 32 }
        ensures settled { OnOk result (IsSettledKept history.old history.new (txn.now ∷ [])
            ((history.old.top + 1) - keep)) }
        ensures reply { OnOk result (S.appended (history.old.top + 1) answered.old
            (reply_of (body (past history.old history.old.top) txn.now) ∷ []) answered.new) }
        ensures tried { OnErr result (IsSame history.old history.new
            ⊎ IsSettledKept history.old history.new (txn.now ∷ []) ((history.old.top + 1) - keep)) }
        ensures unanswered { OnErr result
            (S.appended (history.old.top + 1) answered.old [] answered.new) }
    {
        let number = history.top() + 1;
        let outcome = history.run_next(txn, keep, hints, &mut self.workspace, &mut self.scratch)?;
        answered.push(number as u64, outcome, self.scratch.shows())?;
        Ok(())
    }

    /// Runs the transactions that follow the history's top, all of one log, and appends their
    /// replies. After the transaction with the timestamp e the floor becomes `e - keep`, unless it
    /// is above that already.
    ///
    /// The hints are those of the transactions' log; the indexes that were found are noted in them.
    ///
    /// If an allocation fails, the first of the transactions may have run, and replies may have
    /// been appended. The time grows with the number of the transactions' terms.
    pub fn run<S: ReplySink>(
        &mut self,
        history: &mut History,
        answered: &mut S,
        txns: &LogPart<'_>,
        hints: &mut IndexHints,
        keep: u32,
    ) -> Result<(), NoMemory>
        requires ordered { history.old.floor ≤ history.old.top }
        requires timestamps { history.old.top + length txns.now < 2 ^ 32 }
        requires formed { All IsWellFormedTxn txns.now }
        ensures applied { OnOk result (IsApplied history.old history.new txns.now keep
            (replies (past history.old history.old.top) txns.now)) }
        ensures answered { OnOk result (S.appended (history.old.top + 1) answered.old
            (replies (past history.old history.old.top) txns.now) answered.new) }
        ensures some { OnErr result (RanSome history.old history.new txns.now keep) }
        ensures behind { OnErr result ((more : List Reply)
            × S.appended (history.old.top + 1) answered.old more answered.new) }
    {
        hints.cover(txns.keys().names())?;
        answered.reserve(txns.len())?;
        for index in 0..txns.len() {
            self.run_next(history, answered, &txns.txn(index), hints, keep)?;
        }
        Ok(())
    }

    /// Runs transactions that follow the history's top, all of one log, as one batch, and appends
    /// their replies. An error leaves the visible state unchanged, and appends nothing.
    ///
    /// The hints are those of the transactions' log. The time is that of `run`; after an error it
    /// also grows with the number of the history's keys.
    pub fn run_batch(
        &mut self,
        history: &mut History,
        answered: &mut Replies,
        txns: &LogPart<'_>,
        hints: &mut IndexHints,
        keep: u32,
    ) -> Result<(), NoMemory>
        requires some { 0 < length txns.now }
        requires ordered { history.old.floor ≤ history.old.top }
        requires timestamps { history.old.top + length txns.now < 2 ^ 32 }
        requires formed { All IsWellFormedTxn txns.now }
        ensures applied { OnOk result
            (IsApplied history.old history.new txns.now keep
            (replies (past history.old history.old.top) txns.now)) }
        ensures answered { OnOk result
            (answered.new ≡ answered.old ++ replies (past history.old history.old.top) txns.now) }
        ensures same { OnErr result (IsStillPast history.old history.new) }
        ensures unanswered { OnErr result (answered.new ≡ answered.old) }
    {
        let (top, count) = (history.top(), answered.len());
        // All versions are kept until the batch's end, so that the batch can be undone.
        if let Err(refusal) = self.run(history, answered, txns, hints, u32::MAX) {
            history.rewind(top);
            answered.truncate(count);
            return Err(refusal);
        }
        history.trim(history.top().saturating_sub(keep));
        Ok(())
    }

    /// Runs batch after batch, up to one that fails.
    fn run_batches(
        &mut self,
        history: &mut History,
        answered: &mut Replies,
        log: CutLog<'_>,
        hints: &mut IndexHints,
        keep: u32,
    ) -> Result<(), NoMemory>
        requires first { (cutting_of log).first ≡ history.old.top + 1 }
        requires ordered { history.old.floor ≤ history.old.top }
        requires unanswered { answered.old ≡ [] }
        ensures { IsWalked history.old history.new (cutting_of log.entry) keep answered.new
            (is_ok result) }
    {
        let mut start = 0usize;
        for place in 0..log.batches() {
            let txns = log.batch(place, start);
            self.run_batch(history, answered, &txns, hints, keep)?;
            start += txns.len();
        }
        Ok(())
    }

    /// Applies the transactions to a history as `apply` does, on the caller's thread alone, for
    /// callers that can start no threads.
    ///
    /// If an allocation fails, the history is at the end of a batch, and the replies up to there
    /// are returned: nothing is lost, and the rest can be applied again. The time grows with the
    /// number of the transactions' terms; if an allocation fails, also with the number of the
    /// history's keys.
    pub fn apply(
        &mut self,
        alloc: Global,
        history: &mut History,
        txns: &LogPart<'_>,
        cuts: &Cuts,
        keep: u32,
    ) -> Applied
        requires total { sum cuts.now ≡ length txns.now }
        requires timestamps { history.old.top + length txns.now < 2 ^ 32 }
        requires formed { All IsWellFormedTxn txns.now }
        ensures applied { IsApplied history.old history.new
            (take (length result.replies) txns.now) keep result.replies }
        ensures batches { IsEndOfBatch cuts.now (length result.replies) }
        ensures whole { is_ok result.end ≡ true → length result.replies ≡ length txns.now }
    {
        let mut replies = Replies::new(alloc);
        if txns.len() == 0 {
            return Applied {
                replies,
                end: Ok(()),
            };
        }
        let log = CutLog::new(history.top() + 1, txns, cuts);
        let mut hints = mem::replace(&mut self.hints, IndexHints::new(alloc));
        let end = self.run_batches(history, &mut replies, log, &mut hints, keep);
        self.hints = hints;
        Applied { replies, end }
    }
}
