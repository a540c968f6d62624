//! The results of a finished batch.

ghost use Rattle.std.specs.Prelude.{◌≡◌, ◌<◌, ◌≤◌, ℕ, length};
ghost use Rattle.bohm_board.specs.Batches.{IsIn, first_of, txns_of};
ghost use Rattle.bohm_board.specs.Closings.{batch_of_closed, IsFinished};

use bohm_board::{Batch, Closed, Slot};
use bohm_txn::Outcome;
use bohm_types::Cell;

/// A batch whose positions have all been evaluated: its results are those of the serial run. Only
/// `complete` constructs one.
#[derive(Drop)]
pub struct Finished<'a> {
    closed: Closed<'a>,
    evaluations: u64,
    ghost once: { evaluations ≤ length (txns_of (batch_of_closed closed)) },
    ghost whole: { (t : ℕ) → IsIn (batch_of_closed closed) t → IsFinished closed t },
}

impl<'a> Finished<'a> {
    ghost use Rattle.bohm_board.specs.Batches.{IsSlot, IsRightCell};
    ghost use Rattle.bohm_exec.specs.Answers.{batch_of_finished, evaluations_of};
    ghost use Rattle.bohm_exec.specs.Moments.{writes_in_txn, shows_in_txn, IsSerialOutcome};
    ghost use Rattle.bohm_exec.specs.Moments.{IsSerialCell, IsSerialShow};

    /// The results in a closed board whose positions all have outcomes.
    pub(crate) fn new(closed: Closed<'a>, evaluations: u64) -> Finished<'a>
        requires once { evaluations ≤ length (txns_of (batch_of_closed closed)) }
        requires whole { (t : ℕ) → IsIn (batch_of_closed closed) t → IsFinished closed t }
        ensures batch { batch_of_finished result ≡ batch_of_closed closed.entry }
        ensures closed { result.closed ≡ closed.entry }
        ensures evaluations { evaluations_of result ≡ evaluations }
    {
        Finished {
            closed,
            evaluations,
        }
    }

    /// The timestamp of the first transaction.
    pub fn first(&self) -> u32
        ensures { result ≡ first_of (batch_of_finished self.now) }
    {
        self.closed.batch().first()
    }

    /// The number of transactions.
    pub fn len(&self) -> u32
        ensures { result ≡ length (txns_of (batch_of_finished self.now)) }
    {
        self.closed.batch().len()
    }

    /// How many evaluations it took, by all workers together: not more than there are transactions.
    /// As each has its results, each was evaluated once.
    pub fn evaluations(&self) -> u64
        ensures is { result ≡ evaluations_of self.now }
        ensures once { result ≤ length (txns_of (batch_of_finished self.now)) }
    {
        self.evaluations
    }

    pub fn batch(&self) -> &Batch<'a>
        ensures { result.now ≡ batch_of_finished self.now }
    {
        self.closed.batch()
    }

    /// The batch, without its results.
    pub fn into_batch(self) -> Batch<'a>
        ensures { result ≡ batch_of_finished self.entry }
    {
        let Finished {
            closed,
            evaluations: _,
        } = self;
        closed.into_batch()
    }

    fn slot(&self, slot: Slot) -> Cell
        requires { IsSlot (batch_of_finished self.now) slot }
        ensures { IsRightCell (batch_of_finished self.now) slot result }
    {
        match self.closed.cell(slot) {
            Some(cell) => cell,
            None => unreachable!(),
        }
    }

    /// The outcome of the transaction with the timestamp `t`.
    pub fn outcome(&self, t: u32) -> Outcome
        requires { IsIn (batch_of_finished self.now) t }
        ensures { IsSerialOutcome (batch_of_finished self.now) t result }
    {
        match self.closed.outcome(t) {
            Some(outcome) => outcome,
            None => unreachable!(),
        }
    }

    /// The cell, after the transaction with the timestamp `t`, of the key of its declared write at
    /// `index`, counted from 0.
    pub fn cell(&self, t: u32, index: u32) -> Cell
        requires txn { IsIn (batch_of_finished self.now) t }
        requires index { index < writes_in_txn (batch_of_finished self.now) t }
        ensures { IsSerialCell (batch_of_finished self.now) t index result }
    {
        self.slot(Slot { txn: t, index })
    }

    /// The value of the `show` at `index`, counted from 0, of the transaction with the timestamp
    /// `t`; `Absent` if the transaction aborts.
    pub fn show(&self, t: u32, index: u32) -> Cell
        requires txn { IsIn (batch_of_finished self.now) t }
        requires index { index < shows_in_txn (batch_of_finished self.now) t }
        ensures { IsSerialShow (batch_of_finished self.now) t index result }
    {
        let writes = self.batch().txn(t).writes().len() as u32;
        self.slot(Slot {
            txn: t,
            index: writes + index,
        })
    }
}
