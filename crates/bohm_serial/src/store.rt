//! A store as a hash map.

ghost use Rattle.std.specs.Prelude.{◌≡◌, true, IfOk, OnErr, OnOk};
ghost use Rattle.std.specs.FinMap.{entries};
ghost use Rattle.std.specs.HashMap.{IsUnique};
ghost use Rattle.std.specs.Str.{bytes_eq};
ghost use Rattle.bohm_types.specs.Keys.{rising, names_of};
ghost use Rattle.bohm_txn.specs.Stores.{store_of, cell_in, put};

use bohm_types::{Cell, Key, NoMemory, Value};
use std::alloc::Global;
use std::collections::HashMap;
use std::marker::Model;

/// A mutable store, which contracts see as a finite map. A look-up and a change take constant time.
#[derive(Drop)]
pub struct Store {
    values: HashMap<Key, Value>,
}

impl Model for Store {
    ghost use Rattle.std.specs.Coded.{coded_ℕ, coded_ℤ, coded_list};
    ghost use Rattle.std.specs.FinMap.{code};
    ghost use Rattle.bohm_txn.specs.Stores.{Store as FiniteStore, store_of};

    ghost Value = { FiniteStore };

    ghost coded = { code (coded_list coded_ℕ) coded_ℤ };

    ghost view = { λ s. store_of s.values.entries };
}

impl Store {
    /// The store of these entries.
    pub fn new(alloc: Global, entries: &[(Key, Value)]) -> Result<Store, NoMemory>
        requires rising { rising (names_of entries.now) ≡ true }
        ensures { IfOk result (λ store. store ≡ store_of entries.now) }
    {
        let mut values = HashMap::with_capacity(alloc, entries.len())?;
        for (key, value) in entries {
            values.insert(*key, *value)?;
        }
        Ok(Store { values })
    }

    /// The cell of the key.
    pub fn get(&self, key: &Key) -> Cell
        ensures { result ≡ cell_in self.now key.now }
    {
        let found = self.values.get(key).copied();
        match found {
            None => Cell::Absent,
            Some(value) => Cell::Present(value),
        }
    }

    /// Stores the key's cell. An error leaves the store unchanged.
    pub fn put(&mut self, key: &Key, cell: Cell) -> Result<(), NoMemory>
        ensures ok { OnOk result (self.new ≡ put self.old key.now cell) }
        ensures err { OnErr result (self.new ≡ self.old) }
    {
        match cell {
            Cell::Absent => {
                self.values.remove(key);
            }
            Cell::Present(value) => {
                self.values.insert(*key, value)?;
            }
        }
        Ok(())
    }

    /// Its entries, sorted by key. The time grows with the number n of entries as n log n.
    pub fn entries(&self, alloc: Global) -> Result<Vec<(Key, Value)>, NoMemory>
        ensures { IfOk result (λ list. list.items ≡ entries self.now) }
    {
        let mut list = listed(alloc, &self.values)?;
        list.sort_unstable_by(|entry, other| entry.0.cmp(&other.0));
        Ok(list)
    }
}

/// The entries, in the map's order.
fn listed(alloc: Global, values: &HashMap<Key, Value>) -> Result<Vec<(Key, Value)>, NoMemory>
    ensures all { IfOk result (λ list. list.items ≡ values.now.entries) }
    ensures distinct { IsUnique bytes_eq values.now }
{
    let mut list = Vec::with_capacity(alloc, values.len())?;
    for (key, value) in values {
        list.push((*key, *value))?;
    }
    Ok(list)
}
