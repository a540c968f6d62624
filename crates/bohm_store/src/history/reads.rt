//! Reads of the past.

ghost use Rattle.std.specs.Prelude.{◌≡◌, ◌<◌, ◌≤◌, ◌↔◌, Err, Ok, IfOk, OnErr};
ghost use Rattle.std.specs.FinMap.{entries};
ghost use Rattle.bohm_txn.specs.Stores.{cell_in, store_of};
ghost use Rattle.bohm_store.specs.Versions.{IsCellAt, past, versions};

use crate::base::cell_of;
use crate::fault::{PastFault, StoreFault};
use crate::history::History;
use bohm_types::{Cell, Key, Value};
use std::alloc::Global;

impl History {
    /// The cell of a key after the transaction with a timestamp: that of its version with the
    /// greatest begin at or below the timestamp. It fails with `Trimmed` below the floor, with
    /// `Future` above the top. The time is that of one look-up, and grows with the number of the
    /// key's versions that begin above the timestamp. It allocates nothing.
    pub fn value_at(&self, key: &Key, ts: u32) -> Result<Cell, PastFault>
        ensures trimmed { (result ≡ Err PastFault.Trimmed) ↔ (ts < self.now.floor) }
        ensures future { (result ≡ Err PastFault.Future) ↔ (self.now.top < ts) }
        ensures within { self.now.floor ≤ ts → ts ≤ self.now.top
            → result ≡ Ok (past self.now ts key.now) }
        ensures newest { IfOk result (IsCellAt ts (versions self.now key.now)) }
    {
        let (floor, top) = (self.floor(), self.top());
        if ts < floor {
            return Err(PastFault::Trimmed);
        }
        if top < ts {
            return Err(PastFault::Future);
        }
        Ok(cell_of(&self.names, &self.numbered, key, ts))
    }

    /// The store after the transaction with a timestamp: the keys that have a value, in ascending
    /// order, with their values. It fails with `Trimmed` below the floor and with `Future` above
    /// the top, which are decided before any allocation. It visits all keys: the time grows with
    /// their number n as n log n, and with the number of versions that ended above the timestamp.
    pub fn store_at(&self, alloc: Global, ts: u32) -> Result<Vec<(Key, Value)>, StoreFault>
        ensures trimmed { (result ≡ Err StoreFault.Trimmed) ↔ (ts < self.now.floor) }
        ensures future { (result ≡ Err StoreFault.Future) ↔ (self.now.top < ts) }
        ensures within { self.now.floor ≤ ts → ts ≤ self.now.top
            → OnErr result (result ≡ Err StoreFault.NoMemory) }
        ensures past { IfOk result (λ v. cell_in (store_of v.items) ≡ past self.now ts) }
        ensures entries { IfOk result (λ v. v.items ≡ entries (store_of v.items)) }
    {
        let (floor, top) = (self.floor(), self.top());
        if ts < floor {
            return Err(StoreFault::Trimmed);
        }
        if top < ts {
            return Err(StoreFault::Future);
        }
        let known = self.numbered.len();
        let names = self.names.table().up_to(known);
        match self.numbered.store_at(alloc, names, ts) {
            Ok(list) => Ok(list),
            Err(_) => Err(StoreFault::NoMemory),
        }
    }
}
