//! The versions of all keys, by the numbers of the keys.

ghost use Rattle.std.specs.Prelude.{◌≡◌, ◌+◌, ◌<◌, ◌≤◌, ◌^◌, ℕ, List};
ghost use Rattle.std.specs.Prelude.{[], length, max, min, slice_index_or, true, OnOk, OnErr, IfOk};
ghost use Rattle.std.specs.FinMap.{entries};
ghost use Rattle.std.specs.List.{IsDistinct};
ghost use Rattle.std.specs.Str.{bytes_eq};
ghost use Rattle.bohm_types.specs.Keys.{rising, names_of};
ghost use Rattle.bohm_types.specs.Txn.{Txn};
ghost use Rattle.bohm_hints.specs.Top.{held_cell};
ghost use Rattle.bohm_hints.specs.declared.held.Held.TheVariants.{Never};
ghost use Rattle.bohm_log.specs.Layers.{all_names};
ghost use Rattle.bohm_types.specs.declared.cell.Cell.TheVariants as cells;
ghost use Rattle.bohm_txn.specs.Stores.{cell_in, store_of};
ghost use Rattle.bohm_store.specs.Versions.{IsCellAt, Rises, cell_at, kept_versions, most_counted};
ghost use Rattle.bohm_store.specs.Versions.{past, total, versions, versions_to};
ghost use Rattle.bohm_store.specs.Chains.{starting_versions};
ghost use Rattle.bohm_store.specs.Nexts.{IsSettled, IsSettledKept};
ghost use Rattle.bohm_store.specs.Writes.{AreWritesBehind, listed_in};
ghost use Rattle.bohm_store.specs.Numbered.{timeline, versions_at};

use crate::held::forget_after;
use crate::listing::{count_held, present_at, rewind};
use crate::older::{OlderVersions, add, cell_before, cut_off, trim};
use crate::replacing::replace_all;
use crate::writes::Writes;
use bohm_hints::{Held, held_of};
use bohm_log::NameTable;
use bohm_types::{Cell, Key, NoMemory, Value};
use std::alloc::Global;
use std::marker::Model;

/// The versions of each key, by its number, from a floor up to a top, which are timestamps. The
/// newest version of a key is at the index of its number, and the others are in a queue, in the
/// order of their ends.
pub struct NumberedHistory {
    newest: Vec<Held>,
    older: OlderVersions,
    floor: u32,
    top: u32,
}

// Written out: a derived drop is proved anew in each function that drops such a value.
impl Drop for NumberedHistory {
    fn drop(self) {
        let Self {
            newest,
            older,
            floor: _,
            top: _,
        } = self;
        drop(newest);
        drop(older);
    }
}

impl Model for NumberedHistory {
    ghost use Rattle.bohm_store.specs.Numbered.{Numbered, IsNumbered};

    ghost Value = { Numbered };

    ghost view = { λ h. record {
      floor = h.floor;
      top = h.top;
      newest = h.newest.items;
      older = h.older.items;
    } };

    ghost invariant = { λ h. IsNumbered (record {
      floor = h.floor;
      top = h.top;
      newest = h.newest.items;
      older = h.older.items;
    }) };
}

impl NumberedHistory {
    /// The history of the empty store, without keys. It allocates nothing.
    pub fn empty(alloc: Global) -> NumberedHistory
        ensures floor { result.floor ≡ 0 }
        ensures top { result.top ≡ 0 }
        ensures none { result.newest ≡ [] }
        ensures versions { (n : ℕ) → versions_at result n ≡ [] }
    {
        NumberedHistory {
            newest: Vec::new(alloc),
            older: OlderVersions::new(alloc),
            floor: 0,
            top: 0,
        }
    }

    /// The history of a store as it is at a timestamp. The entries are in ascending order of their
    /// keys, and the number of a key is its index among them.
    pub fn open(
        alloc: Global,
        entries: &[(Key, Value)],
        ts: u32,
    ) -> Result<NumberedHistory, NoMemory>
        requires { rising (names_of entries.now) ≡ true }
        ensures floor { IfOk result (λ h. h.floor ≡ ts) }
        ensures top { IfOk result (λ h. h.top ≡ ts) }
        ensures long { IfOk result (λ h. length h.newest ≡ length entries.now) }
        ensures versions { IfOk result
            (λ h. (k : List ℕ)
            → versions (timeline (names_of entries.now) h) k
            ≡ starting_versions (cell_in (store_of entries.now) k)) }
        ensures count { IfOk result
            (λ h. total (timeline (names_of entries.now) h).chains ≡ length entries.now) }
    {
        let mut newest = Vec::with_capacity(alloc, entries.len())?;
        for (_, value) in entries {
            newest.push(Held::Present {
                begin: 0,
                value: *value,
            })?;
        }
        Ok(NumberedHistory {
            newest,
            older: OlderVersions::new(alloc),
            floor: ts,
            top: ts,
        })
    }

    /// The lowest timestamp whose past is kept.
    pub fn floor(&self) -> u32
        ensures { result ≡ self.now.floor }
    {
        self.floor
    }

    /// The timestamp of the last transaction, or 0.
    pub fn top(&self) -> u32
        ensures top { result ≡ self.now.top }
        ensures ordered { self.now.floor ≤ result }
    {
        self.top
    }

    /// The newest version of each key, at the index of its number: the key's cell at the top is that
    /// of this version.
    pub fn newest(&self) -> &[Held]
        ensures newest { result.now ≡ self.now.newest }
        ensures cells { (n : ℕ) → held_cell (slice_index_or result.now n Never)
            ≡ cell_at self.now.top (versions_at self.now n) cells.Absent }
    {
        &self.newest
    }

    /// The number of keys that there is room for. Keys with numbers at or above it have no version.
    pub fn len(&self) -> usize
        ensures len { result ≡ length self.now.newest }
        ensures behind { (n : ℕ) → length self.now.newest ≤ n → versions_at self.now n ≡ [] }
    {
        self.newest.len()
    }

    /// Makes room for the keys with numbers below `count`; new keys have no version. The time grows
    /// with the number of new keys.
    pub fn cover(&mut self, count: usize) -> Result<(), NoMemory>
        ensures floor { self.new.floor ≡ self.old.floor }
        ensures top { self.new.top ≡ self.old.top }
        ensures versions { (n : ℕ) → versions_at self.new n ≡ versions_at self.old n }
        ensures long { OnOk result (length self.new.newest ≡ max (length self.old.newest) count) }
        ensures same { OnErr result (self.new ≡ self.old) }
    {
        if self.newest.len() < count {
            self.newest.resize(count, Held::Never)?;
        }
        Ok(())
    }

    /// The cell that the key with this number has at the top.
    pub fn cell(&self, number: u32) -> Cell
        ensures { result ≡ cell_at self.now.top (versions_at self.now number) cells.Absent }
    {
        held_of(&self.newest, number).cell()
    }

    /// The cell that the key with this number had after the transaction with a timestamp. The time
    /// grows with the number of the key's versions that ended above the timestamp.
    pub fn cell_at(&self, number: u32, ts: u32) -> Cell
        ensures cell { result ≡ cell_at ts (versions_at self.now number) cells.Absent }
        ensures newest { IsCellAt ts (versions_at self.now number) result }
    {
        cell_before(&self.older, held_of(&self.newest, number), number, ts)
    }

    /// If this floor is above the current one, it becomes the floor, and each key keeps the
    /// versions that begin above it and the newest one at or below it: at the top, one at most. The
    /// time grows with the number of versions that are dropped.
    pub fn trim(&mut self, floor: u32)
        requires { floor ≤ self.old.top }
        ensures floor { self.new.floor ≡ max self.old.floor floor }
        ensures top { self.new.top ≡ self.old.top }
        ensures newest { self.new.newest ≡ self.old.newest }
        ensures versions { self.old.floor < floor → (n : ℕ)
            → versions_at self.new n ≡ kept_versions floor (versions_at self.old n) }
        ensures unchanged { floor ≤ self.old.floor → (n : ℕ)
            → versions_at self.new n ≡ versions_at self.old n }
        ensures one { floor ≡ self.old.top → (n : ℕ) → length (versions_at self.new n) ≤ 1 }
        ensures rising { (n : ℕ) → Rises (versions_at self.old n) }
    {
        if floor <= self.floor {
            return;
        }
        trim(&mut self.older, floor);
        self.floor = floor;
    }

    /// Undoes the transactions after a timestamp, which becomes the top. Each key keeps the
    /// versions that begin at or below the timestamp. The time grows with the number of versions
    /// that are removed and with the number of keys. It allocates nothing.
    pub fn rewind(&mut self, ts: u32)
        requires { self.old.floor ≤ ts }
        ensures floor { self.new.floor ≡ self.old.floor }
        ensures top { self.new.top ≡ ts }
        ensures long { length self.new.newest ≡ length self.old.newest }
        ensures versions { (n : ℕ)
            → versions_at self.new n ≡ versions_to ts (versions_at self.old n) }
    {
        let newest = self.newest.as_mut_slice();
        rewind(newest, &self.older, ts);
        forget_after(newest, ts);
        cut_off(&mut self.older, ts);
        self.top = ts;
    }

    // Adds the versions of `count` transactions that follow the top, by the list of their writes,
    // and keeps only the past at their end.
    fn replace_newest(&mut self, names: NameTable<'_>, count: u32, writes: Writes<'_, '_>)
        requires names { IsDistinct bytes_eq (all_names names) }
        requires long { length (all_names names) ≤ length self.old.newest }
        requires timestamps { self.old.top + count < 2 ^ 32 }
        requires writes { (txns : List Txn)
            × AreWritesBehind (all_names names) (timeline (all_names names) self.old) count txns
            (listed_in writes) }
        ensures long { length self.new.newest ≡ length self.old.newest }
        ensures settled { (txns : List Txn)
            → AreWritesBehind (all_names names.entry) (timeline (all_names names.entry) self.old)
            count txns (listed_in writes.entry)
            → IsSettledKept (timeline (all_names names.entry) self.old)
            (timeline (all_names names.entry) self.new) txns (self.old.top + count) }
    {
        self.older.clear();
        replace_all(self.newest.as_mut_slice(), writes);
        self.top += count;
        self.floor = self.top;
    }

    /// Adds the versions of `count` transactions that follow the top, by the list of their writes.
    /// An error changes nothing.
    pub fn add_writes(
        &mut self,
        names: NameTable<'_>,
        count: u32,
        writes: Writes<'_, '_>,
    ) -> Result<(), NoMemory>
        requires names { IsDistinct bytes_eq (all_names names) }
        requires long { length (all_names names) ≤ length self.old.newest }
        requires timestamps { self.old.top + count < 2 ^ 32 }
        requires writes { (txns : List Txn)
            × AreWritesBehind (all_names names) (timeline (all_names names) self.old) count txns
            (listed_in writes) }
        ensures err { OnErr result (self.new ≡ self.old) }
        ensures long { OnOk result (length self.new.newest ≡ length self.old.newest) }
        ensures ok { OnOk result ((txns : List Txn)
            → AreWritesBehind (all_names names.entry) (timeline (all_names names.entry) self.old)
            count txns (listed_in writes.entry)
            → IsSettled (timeline (all_names names.entry) self.old)
            (timeline (all_names names.entry) self.new) txns) }
    {
        match add(self.newest.as_mut_slice(), &mut self.older, writes) {
            Ok(()) => {
                self.top += count;
                Ok(())
            }
            Err(error) => Err(error),
        }
    }

    /// Adds the versions as `add_writes` does, and then trims at a floor. If nothing below the new
    /// top is kept, it allocates nothing. An error changes nothing.
    pub fn add_above(
        &mut self,
        names: NameTable<'_>,
        count: u32,
        writes: Writes<'_, '_>,
        floor: u32,
    ) -> Result<(), NoMemory>
        requires names { IsDistinct bytes_eq (all_names names) }
        requires long { length (all_names names) ≤ length self.old.newest }
        requires timestamps { self.old.top + count < 2 ^ 32 }
        requires writes { (txns : List Txn)
            × AreWritesBehind (all_names names) (timeline (all_names names) self.old) count txns
            (listed_in writes) }
        requires floor { floor ≤ self.old.top + count }
        ensures err { OnErr result (self.new ≡ self.old) }
        ensures long { OnOk result (length self.new.newest ≡ length self.old.newest) }
        ensures ok { OnOk result ((txns : List Txn)
            → AreWritesBehind (all_names names.entry) (timeline (all_names names.entry) self.old)
            count txns (listed_in writes.entry)
            → IsSettledKept (timeline (all_names names.entry) self.old)
            (timeline (all_names names.entry) self.new) txns floor) }
    {
        if floor == self.top + count {
            self.replace_newest(names, count, writes);
            return Ok(());
        }
        match self.add_writes(names, count, writes) {
            Ok(()) => {
                self.trim(floor);
                Ok(())
            }
            Err(error) => Err(error),
        }
    }

    /// The store after the transaction with a timestamp: the keys that had a value, in ascending
    /// order, with their values. The time grows with the number n of names as n log n, and with the
    /// number of versions that ended above the timestamp.
    pub fn store_at(
        &self,
        alloc: Global,
        names: NameTable<'_>,
        ts: u32,
    ) -> Result<Vec<(Key, Value)>, NoMemory>
        requires names { IsDistinct bytes_eq (all_names names) }
        requires long { length (all_names names) ≤ length self.now.newest }
        ensures past { IfOk result
            (λ v. cell_in (store_of v.items) ≡ past (timeline (all_names names.entry) self.now) ts) }
        ensures entries { IfOk result (λ v. v.items ≡ entries (store_of v.items)) }
    {
        match present_at(alloc, &self.newest, &self.older, names, ts) {
            Ok(mut list) => {
                list.sort_unstable_by(|entry, other| entry.0.cmp(&other.0));
                Ok(list)
            }
            Err(error) => Err(error),
        }
    }

    /// The number of versions of the keys with these names, or `u64::MAX` if there are more. The
    /// time grows with the number of keys.
    pub fn count(&self, names: NameTable<'_>) -> u64
        requires { length self.now.newest ≤ length (all_names names) }
        ensures { result
            ≡ min (total (timeline (all_names names.entry) self.now).chains) most_counted }
    {
        // Only the contract needs the names.
        let _ = names;
        (count_held(&self.newest) as u64).saturating_add(self.older.len() as u64)
    }
}
