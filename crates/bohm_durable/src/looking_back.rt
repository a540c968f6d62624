//! What keys held before the last transactions.

ghost use Rattle.std.specs.Prelude.{◌≡◌, ◌+◌, ◌≤◌, ℕ, IfOk, IfSome};
ghost use Rattle.bohm_txn.specs.Stores.{cell_in, store_of};
ghost use Rattle.bohm_machine.specs.Digests.{IsDigest};
ghost use Rattle.bohm_machine.specs.Machines.{floor_of, past_of, top_of};

use crate::checkpointed::Checkpointed;
use bohm_machine::Machine;
use bohm_types::{Cell, Key, NoMemory, Value};
use std::alloc::Global;

/// The timestamp that so many transactions followed, if it isn't before the last checkpoint.
fn timestamp_before(machine: &Machine, back: u64) -> Option<u32>
    ensures { IfSome result (λ ts. (floor_of machine.now ≤ ts) × (ts + back ≡ top_of machine.now)) }
{
    let last = machine.top();
    if back > u64::from(last - machine.floor()) {
        return None;
    }
    Some(last - back as u32)
}

impl Checkpointed {
    /// What a key held before the last so many transactions. `None` before the last checkpoint. The
    /// time is that of one look-up, and grows with the number of the key's later versions.
    pub fn value_before(&self, key: &Key, back: u64) -> Option<Cell>
        ensures { IfSome result (λ cell. (ts : ℕ) → ts + back ≡ top_of self.now.machine
            → cell ≡ past_of self.now.machine ts key.now) }
    {
        let ts = timestamp_before(self.machine(), back)?;
        self.machine().value_at(key, ts).ok()
    }

    /// The keys that had a value before the last so many transactions, in ascending order, with
    /// their values. `None` before the last checkpoint. The time is that of `Machine::store_at`.
    pub fn store_before(
        &self,
        alloc: Global,
        back: u64,
    ) -> Result<Option<Vec<(Key, Value)>>, NoMemory>
        ensures { IfOk result (λ it. IfSome it (λ store. (ts : ℕ) → ts + back ≡ top_of self.now.machine
            → cell_in (store_of store.items) ≡ past_of self.now.machine ts)) }
    {
        let Some(ts) = timestamp_before(self.machine(), back) else {
            return Ok(None);
        };
        match self.machine().store_at(alloc, ts) {
            Ok(store) => Ok(Some(store)),
            Err(_) => Err(NoMemory),
        }
    }

    /// The digest of the store before the last so many transactions. `None` before the last
    /// checkpoint. The time is that of `Machine::digest`.
    pub fn digest_before(&self, alloc: Global, back: u64) -> Result<Option<[u8; 32]>, NoMemory>
        ensures { IfOk result (λ it. IfSome it (λ digest. (ts : ℕ) → ts + back ≡ top_of self.now.machine
            → IsDigest (past_of self.now.machine ts) digest)) }
    {
        let Some(ts) = timestamp_before(self.machine(), back) else {
            return Ok(None);
        };
        match self.machine().digest(alloc, ts) {
            Ok(digest) => Ok(Some(digest)),
            Err(_) => Err(NoMemory),
        }
    }
}
