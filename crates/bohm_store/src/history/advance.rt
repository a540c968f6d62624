//! Runs transactions one after another on the history.

ghost use Rattle.std.specs.Prelude.{◌≡◌, ◌+◌, ◌-◌, ◌<◌, ◌≤◌, ◌^◌, []};
ghost use Rattle.std.specs.Prelude.{◌∷◌, map, IfOk, OnOk, OnErr};
ghost use Rattle.std.specs.Map.{keys_of};
ghost use Rattle.bohm_txn.specs.Faulty.{IsWellFormedTxn};
ghost use Rattle.bohm_txn.specs.Meaning.{body};
ghost use Rattle.bohm_txn.specs.Serial.{after, outcome_of, shows_of};
ghost use Rattle.bohm_store.specs.Nexts.{IsSame, IsSettledKept};
ghost use Rattle.bohm_store.specs.Versions.{past};
ghost use Rattle.bohm_store.specs.Writes.{AreNumbersOf};

use crate::base::{push_cells, push_reads, push_reads_and_cells};
use crate::history::History;
use crate::numbering::number_all;
use crate::workspace::Workspace;
use bohm_hints::IndexHints;
use bohm_log::{Keys, TxnView};
use bohm_txn::{Outcome, Scratch, eval_in_place};
use bohm_types::NoMemory;

impl History {
    /// Runs the transaction that follows the top on the cells that its keys have at the top. It
    /// adds a version for each declared write, even if the transaction aborts, and trims at `keep`
    /// timestamps below the transaction. The scratch then has its results.
    ///
    /// An error leaves the visible state unchanged. The time grows with the terms of the
    /// transaction, and with the number of earlier versions that are dropped. A key is hashed only
    /// if its number differs from the one that it had when it was last seen.
    pub fn run_next(
        &mut self,
        txn: &TxnView<'_>,
        keep: u32,
        hints: &mut IndexHints,
        workspace: &mut Workspace,
        scratch: &mut Scratch,
    ) -> Result<Outcome, NoMemory>
        requires well { IsWellFormedTxn txn.now }
        requires timestamp { self.old.top + 1 < 2 ^ 32 }
        ensures outcome { IfOk result
            (λ outcome. outcome_of (body (past self.old self.old.top) txn.now) ≡ outcome) }
        ensures shows { OnOk result
            (shows_of (body (past self.old self.old.top) txn.now) ≡ scratch.new.shows) }
        ensures settled { OnOk result
            (IsSettledKept self.old self.new (txn.now ∷ []) ((self.old.top + 1) - keep)) }
        ensures same { OnErr result (IsSame self.old self.new) }
    {
        self.number_writes(hints, &txn.writes(), &mut workspace.numbers)?;
        let numbers = workspace.numbers.as_slice();
        let outcome = self.evaluate(txn, hints, numbers, scratch);
        let floor = (self.top() + 1).saturating_sub(keep);
        self.add_versions(numbers, scratch.cells(), floor)?;
        Ok(outcome)
    }

    // Replaces the contents of the list with the numbers of these keys. A key without a number gets
    // one.
    fn number_writes(
        &mut self,
        hints: &mut IndexHints,
        keys: &Keys<'_>,
        numbers: &mut Vec<u32>,
    ) -> Result<(), NoMemory>
        ensures same { IsSame self.old self.new }
        ensures numbers { OnOk result
            (AreNumbersOf (keys_of self.new.chains) numbers.new.items keys.now) }
    {
        // The call's contract says that a key without a number has no version.
        let _ = self.numbered.len();
        number_all(&mut self.names, hints, keys, numbers)
    }

    // Pushes into a scratch the cells at the top of a transaction's declared reads, and of its
    // declared writes, which have these numbers. If both are the same keys, each is looked up once.
    fn push_held(
        &self,
        txn: &TxnView<'_>,
        hints: &mut IndexHints,
        numbers: &[u32],
        scratch: &mut Scratch,
    )
        requires well { IsWellFormedTxn txn.now }
        requires numbers { AreNumbersOf (keys_of self.now.chains) numbers.now txn.now.writes }
        requires none { scratch.old.seen ≡ [] }
        requires neither { scratch.old.cells ≡ [] }
        ensures seen { map (past self.now self.now.top) txn.now.reads ≡ scratch.new.seen }
        ensures cells { map (past self.now self.now.top) txn.now.writes ≡ scratch.new.cells }
    {
        // The call's contract says that the names are distinct.
        let _ = self.names.table();
        if txn.writes_its_reads() {
            push_reads_and_cells(&self.numbered, numbers, scratch);
        } else {
            push_reads(&self.names, &self.numbered, hints, &txn.reads(), scratch);
            push_cells(&self.numbered, numbers, scratch);
        }
    }

    // Runs a transaction on the cells that its keys have at the top. Its declared writes have these
    // numbers.
    fn evaluate(
        &self,
        txn: &TxnView<'_>,
        hints: &mut IndexHints,
        numbers: &[u32],
        scratch: &mut Scratch,
    ) -> Outcome
        requires well { IsWellFormedTxn txn.now }
        requires numbers { AreNumbersOf (keys_of self.now.chains) numbers.now txn.now.writes }
        ensures outcome { outcome_of (body (past self.now self.now.top) txn.now) ≡ result }
        ensures shows { shows_of (body (past self.now self.now.top) txn.now) ≡ scratch.new.shows }
        ensures cells { map (after (past self.now self.now.top) txn.now) txn.now.writes
            ≡ scratch.new.cells }
    {
        // The call's contract says that the names are distinct.
        let _ = self.names.table();
        scratch.clear();
        self.push_held(txn, hints, numbers, scratch);
        let outcome = eval_in_place(txn, scratch);
        match outcome {
            Outcome::Commit => {}
            Outcome::Abort { .. } => push_cells(&self.numbered, numbers, scratch),
        }
        outcome
    }
}
