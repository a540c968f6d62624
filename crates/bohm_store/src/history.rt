//! The history of a store.

ghost use Rattle.std.specs.Prelude.{◌≡◌, ◌≤◌, ℕ, List, [], length, min, true, IfOk};
ghost use Rattle.std.specs.List.{IsDistinct};
ghost use Rattle.std.specs.Map.{keys_of};
ghost use Rattle.std.specs.Str.{bytes_eq};
ghost use Rattle.bohm_types.specs.Keys.{rising, names_of};
ghost use Rattle.bohm_txn.specs.Stores.{cell_in, store_of};
ghost use Rattle.bohm_store.specs.Versions.{most_counted, past, total, versions};
ghost use Rattle.bohm_store.specs.Chains.{starting_versions};

mod advance;
mod calls;
mod next_batch;
mod produce;
mod reads;
mod rewind;
mod settle;
mod trim;

use crate::numbered::NumberedHistory;
use bohm_log::{DrawnSeed, FixedSeed, HashSeed, LayeredNames, Names, SharedNames};
use bohm_types::{Key, NoMemory, Value};
use std::alloc::Global;
use std::marker::Model;

/// The versions of each key from a floor up to a top, which are timestamps.
#[derive(Drop)]
pub struct History {
    // A key keeps its number for the history's lifetime. Keys that an error left without a version
    // may follow the keys that have one.
    names: LayeredNames<HashSeed>,
    numbered: NumberedHistory,
}

impl Model for History {
    ghost use Rattle.std.specs.Prelude.{length, ◌≤◌};
    ghost use Rattle.bohm_store.specs.Versions.{Timeline};
    ghost use Rattle.bohm_store.specs.Numbered.{timeline};

    ghost Value = { Timeline };

    ghost view = { λ h. timeline h.names h.numbered };

    ghost invariant = { λ h. length h.numbered.newest ≤ length h.names };
}

// The keys of these entries, which are in ascending order, each at its index.
fn names_in(
    alloc: Global,
    entries: &[(Key, Value)],
    seed: HashSeed,
) -> Result<Names<HashSeed>, NoMemory>
    requires { rising (names_of entries.now) ≡ true }
    ensures { IfOk result (λ names. names ≡ names_of entries.now) }
{
    let mut names = Names::new(alloc, seed);
    for (key, _) in entries {
        match names.id(*key) {
            Ok(_) => {}
            Err(_) => return Err(NoMemory),
        }
    }
    Ok(names)
}

impl History {
    /// Creates the history of a starting store, with one version for each entry. The entries are in
    /// ascending order of their keys. The time grows with their number. Keys are hashed with the
    /// fixed seed.
    pub fn open(alloc: Global, entries: &[(Key, Value)]) -> Result<History, NoMemory>
        requires { rising (names_of entries.now) ≡ true }
        ensures floor { IfOk result (λ h. h.floor ≡ 0) }
        ensures top { IfOk result (λ h. h.top ≡ 0) }
        ensures versions { IfOk result
            (λ h. (k : List ℕ)
            → versions h k ≡ starting_versions (cell_in (store_of entries.now) k)) }
        ensures names { IfOk result (λ h. keys_of h.chains ≡ names_of entries.now) }
        ensures count { IfOk result (λ h. total h.chains ≡ length entries.now) }
        ensures past { IfOk result (λ h. past h 0 ≡ cell_in (store_of entries.now)) }
    {
        History::restore(alloc, entries, 0)
    }

    /// Creates the history of a starting store as `open` does, with keys hashed with a drawn seed.
    pub fn open_with_seed(
        alloc: Global,
        entries: &[(Key, Value)],
        seed: DrawnSeed,
    ) -> Result<History, NoMemory>
        requires { rising (names_of entries.now) ≡ true }
        ensures floor { IfOk result (λ h. h.floor ≡ 0) }
        ensures top { IfOk result (λ h. h.top ≡ 0) }
        ensures versions { IfOk result
            (λ h. (k : List ℕ)
            → versions h k ≡ starting_versions (cell_in (store_of entries.now) k)) }
        ensures names { IfOk result (λ h. keys_of h.chains ≡ names_of entries.now) }
        ensures count { IfOk result (λ h. total h.chains ≡ length entries.now) }
        ensures past { IfOk result (λ h. past h 0 ≡ cell_in (store_of entries.now)) }
    {
        let names = names_in(alloc, entries, HashSeed::from(seed))?;
        History::stand(alloc, entries, 0, LayeredNames::from(names))
    }

    /// Creates the history of a store as it is after the transaction with a timestamp, which
    /// becomes the floor and the top. The entries are in ascending order of their keys, and each
    /// has one version. The time grows with their number. Keys are hashed with the fixed seed.
    pub fn restore(alloc: Global, entries: &[(Key, Value)], ts: u32) -> Result<History, NoMemory>
        requires { rising (names_of entries.now) ≡ true }
        ensures floor { IfOk result (λ h. h.floor ≡ ts) }
        ensures top { IfOk result (λ h. h.top ≡ ts) }
        ensures versions { IfOk result
            (λ h. (k : List ℕ)
            → versions h k ≡ starting_versions (cell_in (store_of entries.now) k)) }
        ensures names { IfOk result (λ h. keys_of h.chains ≡ names_of entries.now) }
        ensures count { IfOk result (λ h. total h.chains ≡ length entries.now) }
        ensures past { IfOk result (λ h. past h ts ≡ cell_in (store_of entries.now)) }
    {
        let names = names_in(alloc, entries, HashSeed::from(FixedSeed))?;
        History::stand(alloc, entries, ts, LayeredNames::from(names))
    }

    /// Creates the history of a store as `restore` does, with keys hashed with a drawn seed. Logs
    /// can share the names of the store's keys with the history.
    pub fn restore_sharing(
        alloc: Global,
        entries: &[(Key, Value)],
        ts: u32,
        seed: DrawnSeed,
    ) -> Result<History, NoMemory>
        requires { rising (names_of entries.now) ≡ true }
        ensures floor { IfOk result (λ h. h.floor ≡ ts) }
        ensures top { IfOk result (λ h. h.top ≡ ts) }
        ensures versions { IfOk result
            (λ h. (k : List ℕ)
            → versions h k ≡ starting_versions (cell_in (store_of entries.now) k)) }
        ensures names { IfOk result (λ h. keys_of h.chains ≡ names_of entries.now) }
        ensures count { IfOk result (λ h. total h.chains ≡ length entries.now) }
        ensures past { IfOk result (λ h. past h ts ≡ cell_in (store_of entries.now)) }
    {
        let seed = HashSeed::from(seed);
        let names = names_in(alloc, entries, seed)?;
        let names = LayeredNames::shared_from(alloc, seed, names)?;
        History::stand(alloc, entries, ts, names)
    }

    /// The names that logs can share: those of the starting store's keys if the history was opened
    /// by `restore_sharing`, otherwise none. A log that shares them has the history's numbers for
    /// these keys, so that none of them is looked up.
    pub fn shared_names(&self) -> Result<SharedNames<HashSeed>, NoMemory> {
        self.names.shared().try_clone()
    }

    // The history that `restore` returns, with these names.
    fn stand(
        alloc: Global,
        entries: &[(Key, Value)],
        ts: u32,
        names: LayeredNames<HashSeed>,
    ) -> Result<History, NoMemory>
        requires rising { rising (names_of entries.now) ≡ true }
        requires names { names ≡ names_of entries.now }
        ensures floor { IfOk result (λ h. h.floor ≡ ts) }
        ensures top { IfOk result (λ h. h.top ≡ ts) }
        ensures versions { IfOk result
            (λ h. (k : List ℕ)
            → versions h k ≡ starting_versions (cell_in (store_of entries.now) k)) }
        ensures names { IfOk result (λ h. keys_of h.chains ≡ names_of entries.now) }
        ensures count { IfOk result (λ h. total h.chains ≡ length entries.now) }
        ensures past { IfOk result (λ h. past h ts ≡ cell_in (store_of entries.now)) }
    {
        let numbered = NumberedHistory::open(alloc, entries, ts)?;
        Ok(History { names, numbered })
    }

    /// The history of the empty store. Keys are hashed with the fixed seed. It allocates nothing.
    pub fn empty(alloc: Global) -> History
        ensures floor { result.floor ≡ 0 }
        ensures top { result.top ≡ 0 }
        ensures versions { (k : List ℕ) → versions result k ≡ [] }
    {
        History {
            names: LayeredNames::new(alloc, HashSeed::from(FixedSeed)),
            numbered: NumberedHistory::empty(alloc),
        }
    }

    /// The lowest timestamp whose past is kept.
    pub fn floor(&self) -> u32
        ensures { result ≡ self.now.floor }
    {
        self.numbered.floor()
    }

    /// The timestamp of the last transaction, or 0.
    pub fn top(&self) -> u32
        ensures top { result ≡ self.now.top }
        ensures ordered { self.now.floor ≤ result }
    {
        self.numbered.top()
    }

    /// The number of keys that it names, those without a value or a version included.
    pub fn key_count(&self) -> usize
        ensures { result ≡ length self.now.chains }
    {
        self.names.len()
    }

    /// The number of kept versions, or `u64::MAX` if there are more. The time grows with the number
    /// of keys.
    pub fn version_count(&self) -> u64
        ensures count { result ≡ min (total self.now.chains) most_counted }
        ensures distinct { IsDistinct bytes_eq (keys_of self.now.chains) }
    {
        self.numbered.count(self.names.table())
    }
}
