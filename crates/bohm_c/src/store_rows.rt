//! Machines that are opened on a store's rows, and the rows of their stores.

ghost use Rattle.std.specs.Prelude.{◌≡◌, ◌<◌, ◌⊎◌, None, Err, IfOk, map, true, false};
ghost use Rattle.std.specs.List.{AllByRecursion, Any};
ghost use Rattle.bohm_types.specs.Keys.{names_of, rising};
ghost use Rattle.bohm_types.specs.Name.{key_of};
ghost use Rattle.bohm_types.specs.Sound.{IsName};
ghost use Rattle.bohm_machine.specs.Machines.{floor_of, top_of};
ghost use Rattle.bohm_c.specs.Entries.{AreRows, IsOpeningOfRows, entry_of, name_in};
ghost use Rattle.bohm_c.specs.Keeping.{IsReadable};
ghost use Rattle.bohm_c.specs.declared.key_fault.KeyFault.TheVariants as key_is;
ghost use Rattle.bohm_c.specs.declared.store_rows.RowsFault.TheVariants as rows_is;

use crate::entries::{BohmEntry, entries_of, entry_rows};
use crate::handing::hand_over;
use crate::key_fault::KeyFault;
use crate::session::Session;
use crate::status::{DONE, FUTURE, NO_MEMORY, TRIMMED};
use bohm_log::DrawnSeed;
use bohm_store::StoreFault;
use bohm_txn::is_store_rising;
use bohm_types::NoMemory;
use std::alloc::Global;

/// Why a store's rows aren't opened.
#[derive(Clone, Copy, Debug, PartialEq, Eq)]
pub enum RowsFault {
    /// A key isn't taken.
    Key(KeyFault),
    /// The keys don't rise.
    Unsorted,
}

impl From<KeyFault> for RowsFault {
    ghost from_gives = { λ fault e. e ≡ rows_is.Key fault };

    fn from(fault: KeyFault) -> RowsFault {
        RowsFault::Key(fault)
    }
}

impl From<NoMemory> for RowsFault {
    ghost from_gives = { λ _ e. e ≡ rows_is.Key key_is.NoMemory };

    fn from(_e: NoMemory) -> RowsFault {
        RowsFault::Key(KeyFault::NoMemory)
    }
}

/// Opens a machine on the store with these rows, as it is after the transaction with a timestamp.
pub fn open_rows(
    alloc: Global,
    seed: DrawnSeed,
    rows: &[BohmEntry],
    top: u32,
) -> Result<Session, RowsFault>
    ensures ok { IfOk result (IsOpeningOfRows rows.now top) }
    ensures no_key { result ≡ Err (rows_is.Key key_is.NoKey)
        → Any (λ r. key_of (name_in r) ≡ None) rows.now }
    ensures unsorted { result ≡ Err rows_is.Unsorted
        → rising (names_of (map entry_of rows.now)) ≡ false }
    ensures named { result ≡ Err rows_is.Unsorted
        → AllByRecursion IsName (names_of (map entry_of rows.now)) }
{
    let entries = entries_of(alloc, rows)?;
    let store = entries.as_slice();
    if is_store_rising(store) {
        Ok(Session::on_store(alloc, seed, store, top)?)
    } else {
        Err(RowsFault::Unsorted)
    }
}

impl Session {
    /// Returns the rows of the store after the transaction with a timestamp.
    pub fn store_rows<'a>(&self, alloc: Global, ts: u32, out: &mut &'a mut [BohmEntry]) -> u32
        ensures status { (result ≡ DONE) ⊎ (result ≡ NO_MEMORY) ⊎ (result ≡ TRIMMED)
            ⊎ (result ≡ FUTURE) }
        ensures done { result ≡ DONE → AreRows self.now.machine ts out.new.now }
        ensures trimmed { result ≡ TRIMMED → ts < floor_of self.now.machine }
        ensures future { result ≡ FUTURE → top_of self.now.machine < ts }
        ensures no_memory { result ≡ NO_MEMORY → IsReadable self.now.machine ts }
        ensures untouched { 0 < result → out.new ≡ out.old }
    {
        let store = match self.machine.store_at(alloc, ts) {
            Ok(store) => store,
            Err(StoreFault::Trimmed) => return TRIMMED,
            Err(StoreFault::Future) => return FUTURE,
            Err(StoreFault::NoMemory) => return NO_MEMORY,
        };
        match entry_rows(alloc, &store) {
            Ok(rows) => {
                *out = hand_over(alloc, rows);
                DONE
            }
            Err(_) => NO_MEMORY,
        }
    }
}
