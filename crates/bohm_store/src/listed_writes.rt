//! The writes of transactions of a finished batch, by the numbers of their keys.

ghost use Rattle.std.specs.Prelude.{◌≡◌, ◌+◌, ◌<◌, ◌≤◌, ◌++◌, Some, length, map, slice_get, IfOk, OnOk};
ghost use Rattle.bohm_log.specs.Parts.{Begins};
ghost use Rattle.bohm_board.specs.Batches.{IsIn, txns_of};
ghost use Rattle.bohm_exec.specs.Answers.{batch_of_finished};
ghost use Rattle.bohm_exec.specs.Moments.{state_after};
ghost use Rattle.bohm_store.specs.Writes.{AreBelow, AreListedFrom, IsTxnWriting};
ghost use Rattle.bohm_store.specs.Writes.{named_write, names_with, txn_writes};

use crate::numbered_write::NumberedWrite;
use crate::version::Version;
use bohm_exec::Finished;
use bohm_hints::{IndexHints, is_numbered};
use bohm_log::{HashSeed, Keys, LayeredNames};
use bohm_types::{Key, NoMemory};
use std::alloc::Global;

/// A key without a number in the history, and its number in its log.
#[derive(Clone, Copy, Debug)]
pub struct FreshKey {
    pub key: Key,
    pub place: u32,
}

/// The writes of some transactions, in log order. The keys that have no number in the history are
/// counted as if they had the numbers that follow its names.
#[derive(Drop)]
pub struct ListedWrites {
    pub(crate) writes: Vec<NumberedWrite>,
    pub(crate) fresh: Vec<FreshKey>,
}

/// What lists the writes of a batch: the names of a history, and hints for the log's keys.
#[derive(Clone, Copy)]
pub struct WriteLister<'a> {
    pub names: &'a LayeredNames<HashSeed>,
    pub hints: &'a IndexHints,
}

impl WriteLister<'_> {
    /// The number of a key. A key without a number is appended to the fresh ones.
    fn number_of(&self, fresh: &mut Vec<FreshKey>, place: u32, key: &Key) -> Result<u32, NoMemory>
        ensures longer { Begins (names_with self.now.names.now fresh.old.items)
            (names_with self.now.names.now fresh.new.items) }
        ensures named { IfOk result (λ n.
            slice_get (names_with self.now.names.now fresh.new.items) n ≡ Some key.now) }
    {
        let hint = self.hints.index(place);
        if is_numbered(self.names.table(), hint, key) {
            return Ok(hint);
        }
        if let Some(number) = self.names.find(key) {
            return Ok(number);
        }
        let number = self.names.len() + fresh.len();
        // A history has at most 2^32 names.
        if number > u32::MAX as usize {
            return Err(NoMemory);
        }
        fresh.push(FreshKey { key: *key, place })?;
        Ok(number as u32)
    }

    /// Lists the writes of one transaction.
    fn list_txn(
        &self,
        listed: &mut ListedWrites,
        finished: &Finished<'_>,
        t: u32,
        keys: &Keys<'_>,
    ) -> Result<(), NoMemory>
        requires txn { IsIn (batch_of_finished finished.now) t }
        requires keys { IsTxnWriting (batch_of_finished finished.now) t keys.now }
        requires below { AreBelow (length (names_with self.now.names.now listed.old.fresh.items))
            listed.old.writes.items }
        ensures below { OnOk result
            (AreBelow (length (names_with self.now.names.now listed.new.fresh.items))
            listed.new.writes.items) }
        ensures listed { OnOk result
            (map (named_write (names_with self.now.names.now listed.new.fresh.items))
            listed.new.writes.items
            ≡ map (named_write (names_with self.now.names.now listed.old.fresh.items))
            listed.old.writes.items
            ++ txn_writes t (state_after (batch_of_finished finished.now) t) keys.now) }
    {
        for i in 0..keys.len() {
            let number = self.number_of(&mut listed.fresh, keys.number(i), keys.key(i))?;
            let cell = finished.cell(t, i as u32);
            let version = Version { begin: t, cell };
            listed.writes.push(NumberedWrite { number, version })?;
        }
        Ok(())
    }

    /// Lists the writes of at most `count` transactions, from the one at index `from` on.
    pub fn list(
        &self,
        alloc: Global,
        finished: &Finished<'_>,
        from: u32,
        count: u32,
    ) -> Result<ListedWrites, NoMemory>
        requires { from ≤ length (txns_of (batch_of_finished finished.now)) }
        ensures { IfOk result (AreListedFrom self.now.names.now (batch_of_finished finished.now)
            from count) }
    {
        let mut listed = ListedWrites {
            writes: Vec::new(alloc),
            fresh: Vec::new(alloc),
        };
        let first = finished.first();
        for index in 0..count.min(finished.len() - from) {
            let t = first + from + index;
            let txn = finished.batch().txn(t);
            self.list_txn(&mut listed, finished, t, &txn.writes())?;
        }
        Ok(listed)
    }
}
