//! Installs a finished batch in the history.

ghost use Rattle.std.specs.Prelude.{◌≤◌, ◌+◌, length, IfOk, OnOk, OnErr};
ghost use Rattle.std.specs.Map.{keys_of};
ghost use Rattle.bohm_board.specs.declared.batch.Batch.{Batch};
ghost use Rattle.bohm_board.specs.Batches.{txns_of};
ghost use Rattle.bohm_exec.specs.Answers.{batch_of_finished};
ghost use Rattle.bohm_store.specs.Nexts.{IsNext, IsSame, IsSettled, IsSettledKept};
ghost use Rattle.bohm_store.specs.Writes.{AreListedFrom, AreNextShares, AreNextWrites};
ghost use Rattle.bohm_store.specs.Writes.{AreShares, AreWritesOf};

use crate::history::History;
use crate::listed_writes::{ListedWrites, WriteLister};
use crate::numbered_write::NumberedWrite;
use crate::share_numbers::gather_shares;
use crate::writes::Writes;
use bohm_exec::Finished;
use bohm_hints::IndexHints;
use bohm_types::NoMemory;
use std::alloc::Global;
use std::slice;

impl History {
    /// Adds a version for each declared write of each transaction of the batch, aborted ones
    /// included, and moves the top to the batch's end. The batch is the next one of this history.
    ///
    /// An error leaves the visible state unchanged: all allocations come first, though a key may
    /// have been given its number. The time grows with the number of the batch's declared writes.
    pub fn settle(&mut self, alloc: Global, finished: &Finished<'_>) -> Result<(), NoMemory>
        requires { IsNext self.old (batch_of_finished finished.now) }
        ensures err { OnErr result (IsSame self.old self.new) }
        ensures ok { OnOk result
            (IsSettled self.old self.new (txns_of (batch_of_finished finished.now))) }
    {
        let mut hints = IndexHints::new(alloc);
        let count = finished.len();
        let listed = self.list_writes(alloc, &hints, finished, 0, count)?;
        let writes = self.number_shares(alloc, &mut hints, slice::from_ref(&listed))?;
        self.add_all(count, &writes)?;
        Ok(())
    }

    /// Settles the batch as `settle` does, with hints for the keys of its log, and trims at a
    /// floor, which is at most the batch's end. A key is hashed only if its number differs from the
    /// one that it had when it was last seen. If the floor is the batch's end, only the newest
    /// version of each key is kept, and no version is moved.
    ///
    /// An error leaves the visible state unchanged. The time grows with the number of the batch's
    /// declared writes and of the earlier versions that are dropped; on an error, with the number
    /// of declared writes alone.
    pub fn settle_kept(
        &mut self,
        alloc: Global,
        hints: &mut IndexHints,
        finished: &Finished<'_>,
        floor: u32,
    ) -> Result<(), NoMemory>
        requires next { IsNext self.old (batch_of_finished finished.now) }
        requires floor { floor ≤ self.old.top + length (txns_of (batch_of_finished finished.now)) }
        ensures err { OnErr result (IsSame self.old self.new) }
        ensures ok { let txns = txns_of (batch_of_finished finished.now) in
            OnOk result (IsSettledKept self.old self.new txns floor) }
    {
        let count = finished.len();
        let listed = self.list_writes(alloc, hints, finished, 0, count)?;
        self.install(alloc, hints, slice::from_ref(&listed), count, floor)?;
        Ok(())
    }

    /// Lists the writes of at most `count` transactions of a finished batch, from the one at index
    /// `from` on. Several threads can list parts of a batch; `install` takes the lists once the
    /// batch is dropped. The time grows with the number of the writes. A key is hashed only if its
    /// number differs from the one that it had when it was last seen.
    pub fn list_writes(
        &self,
        alloc: Global,
        hints: &IndexHints,
        finished: &Finished<'_>,
        from: u32,
        count: u32,
    ) -> Result<ListedWrites, NoMemory>
        requires { from ≤ length (txns_of (batch_of_finished finished.now)) }
        ensures { IfOk result (AreListedFrom (keys_of self.now.chains)
            (batch_of_finished finished.now) from count) }
    {
        let lister = WriteLister {
            names: &self.names,
            hints,
        };
        lister.list(alloc, finished, from, count)
    }

    /// Settles a batch as `settle_kept` does, by the lists of its writes, which `list_writes` made
    /// of this history. The batch has `count` transactions.
    ///
    /// An error leaves the visible state unchanged. The time grows with the number of the writes,
    /// by little for each, and with the number of the earlier versions that are dropped.
    pub fn install(
        &mut self,
        alloc: Global,
        hints: &mut IndexHints,
        shares: &[ListedWrites],
        count: u32,
        floor: u32,
    ) -> Result<(), NoMemory>
        requires shares { (b : Batch) × AreNextShares self.old b count shares.now }
        requires floor { floor ≤ self.old.top + count }
        ensures err { OnErr result (IsSame self.old self.new) }
        ensures ok { OnOk result ((b : Batch) → AreNextShares self.old b count shares.now
            → IsSettledKept self.old self.new (txns_of b) floor) }
    {
        let writes = self.number_shares(alloc, hints, shares)?;
        self.add_kept(count, &writes, floor)?;
        Ok(())
    }

    // The writes of a batch, from its shares. A key without a number gets one.
    fn number_shares(
        &mut self,
        alloc: Global,
        hints: &mut IndexHints,
        shares: &[ListedWrites],
    ) -> Result<Vec<NumberedWrite>, NoMemory>
        requires { (b : Batch) × AreShares (keys_of self.old.chains) b shares.now }
        ensures same { IsSame self.old self.new }
        ensures writes { IfOk result
            (λ v. (b : Batch) → AreShares (keys_of self.old.chains) b shares.now
            → AreWritesOf (keys_of self.new.chains) b v.items) }
    {
        // The call's contract says that a key without a number has no version.
        let _ = self.numbered.len();
        gather_shares(alloc, &mut self.names, hints, shares)
    }

    // Adds the versions of the next batch, by the list of its writes.
    fn add_all(&mut self, count: u32, writes: &[NumberedWrite]) -> Result<(), NoMemory>
        requires { (b : Batch)
            × AreNextWrites (keys_of self.old.chains) self.old b count writes.now }
        ensures err { OnErr result (IsSame self.old self.new) }
        ensures ok { OnOk result ((b : Batch)
            → AreNextWrites (keys_of self.old.chains) self.old b count writes.now
            → IsSettled self.old self.new (txns_of b)) }
    {
        self.numbered.cover(self.names.len())?;
        self.numbered
            .add_writes(self.names.table(), count, Writes::Listed(writes))?;
        Ok(())
    }

    // Adds the versions of the next batch, by the list of its writes, and trims at a floor.
    fn add_kept(&mut self, count: u32, writes: &[NumberedWrite], floor: u32) -> Result<(), NoMemory>
        requires writes { (b : Batch)
            × AreNextWrites (keys_of self.old.chains) self.old b count writes.now }
        requires floor { floor ≤ self.old.top + count }
        ensures err { OnErr result (IsSame self.old self.new) }
        ensures ok { OnOk result ((b : Batch)
            → AreNextWrites (keys_of self.old.chains) self.old b count writes.now
            → IsSettledKept self.old self.new (txns_of b) floor) }
    {
        self.numbered.cover(self.names.len())?;
        let writes = Writes::Listed(writes);
        self.numbered
            .add_above(self.names.table(), count, writes, floor)?;
        Ok(())
    }
}
