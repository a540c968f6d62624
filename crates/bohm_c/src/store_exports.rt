//! The C functions on whole stores: as rows, and compacted.

ghost use Rattle.std.specs.Prelude.{◌≡◌, ◌≢◌, ◌<◌, ◌⊎◌, ◌↔◌, None, false, map};
ghost use Rattle.std.specs.List.{AllByRecursion, Any};
ghost use Rattle.bohm_types.specs.Keys.{names_of, rising};
ghost use Rattle.bohm_types.specs.Name.{key_of};
ghost use Rattle.bohm_types.specs.Sound.{IsName};
ghost use Rattle.bohm_machine.specs.Machines.{floor_of, top_of};
ghost use Rattle.bohm_c.specs.Entries.{AreRows, IsOpeningOfRows, entry_of, name_in};
ghost use Rattle.bohm_c.specs.Handles.{HasMachine, IsShared, OnMachine};
ghost use Rattle.bohm_c.specs.Keeping.{IsReadable};
ghost use Rattle.bohm_c.specs.Singles.{IsCompact};

use crate::entries::BohmEntry;
use crate::handle::{BohmHandle, put_back, take_back};
use crate::kept::Kept;
use crate::key_fault::KeyFault;
use crate::seeds::draw;
use crate::status::{DONE, FUTURE, MISUSE, NO_KEY, NO_MEMORY, SHARED, TRIMMED, UNSORTED};
use crate::store_rows::{RowsFault, open_rows};
use std::alloc::Global;

/// Opens a machine on the store with these rows, which is the store after the transaction with a
/// timestamp. Keys are hashed with the seed.
#[unsafe(no_mangle)]
pub extern "C" fn bohm_open_rows(
    alloc: Global,
    machine: &mut BohmHandle,
    seed: &[u8; 16],
    rows: &[BohmEntry],
    top: u32,
) -> u32
    ensures status { (result ≡ DONE) ⊎ (result ≡ NO_KEY) ⊎ (result ≡ UNSORTED)
        ⊎ (result ≡ NO_MEMORY)
        ⊎ (result ≡ MISUSE) }
    ensures misuse { (result ≡ MISUSE) ↔ (machine.old.value ≢ None) }
    ensures done { result ≡ DONE → OnMachine machine.new.value (IsOpeningOfRows rows.now top) }
    ensures no_key { result ≡ NO_KEY → Any (λ r. key_of (name_in r) ≡ None) rows.now }
    ensures unsorted { result ≡ UNSORTED → rising (names_of (map entry_of rows.now)) ≡ false }

    // A row without a key comes before keys that don't rise.
    ensures named { result ≡ UNSORTED → AllByRecursion IsName (names_of (map entry_of rows.now)) }
    ensures unchanged { 0 < result → machine.new.value ≡ machine.old.value }
{
    if let Some(kept) = take_back(alloc, machine) {
        put_back(machine, kept);
        return MISUSE;
    }
    match open_rows(alloc, draw(seed), rows, top) {
        Ok(session) => match Box::new(alloc, Kept::Machine(session)) {
            Ok(kept) => {
                put_back(machine, kept);
                DONE
            }
            Err(_) => NO_MEMORY,
        },
        Err(RowsFault::Key(KeyFault::NoKey)) => NO_KEY,
        Err(RowsFault::Key(KeyFault::NoMemory)) => NO_MEMORY,
        Err(RowsFault::Unsorted) => UNSORTED,
    }
}

/// Returns the rows of the store after the transaction with a timestamp, which `bohm_open_rows`
/// accepts.
#[unsafe(no_mangle)]
pub extern "C" fn bohm_store_rows<'a>(
    alloc: Global,
    machine: &mut BohmHandle,
    ts: u32,
    out: &mut &'a mut [BohmEntry],
) -> u32
    ensures same { machine.new.value ≡ machine.old.value }
    ensures status { (result ≡ DONE) ⊎ (result ≡ NO_MEMORY) ⊎ (result ≡ TRIMMED)
        ⊎ (result ≡ FUTURE)
        ⊎ (result ≡ MISUSE) ⊎ (result ≡ SHARED) }
    ensures misuse { (result ≡ MISUSE) ↔ ¬ HasMachine machine.old.value }
    ensures shared { (result ≡ SHARED) ↔ IsShared machine.old.value }
    ensures done { result ≡ DONE
        → OnMachine machine.old.value (λ k. AreRows k.machine ts out.new.now) }
    ensures trimmed { result ≡ TRIMMED
        → OnMachine machine.old.value (λ k. ts < floor_of k.machine) }
    ensures future { result ≡ FUTURE → OnMachine machine.old.value (λ k. top_of k.machine < ts) }
    ensures no_memory { result ≡ NO_MEMORY
        → OnMachine machine.old.value (λ k. IsReadable k.machine ts) }
    ensures untouched { 0 < result → out.new ≡ out.old }
{
    let Some(kept) = take_back(alloc, machine) else {
        return MISUSE;
    };
    let status = match &*kept {
        Kept::Machine(session) => session.store_rows(alloc, ts, out),
        Kept::Shared(_) => SHARED,
        Kept::Prepared(_) | Kept::Calls(_) | Kept::Lent | Kept::Worker(_) => MISUSE,
    };
    put_back(machine, kept);
    status
}

/// Drops the past below the top, and gives back the memory of keys that have no value there.
#[unsafe(no_mangle)]
pub extern "C" fn bohm_compact(alloc: Global, machine: &mut BohmHandle) -> u32
    ensures status { (result ≡ DONE) ⊎ (result ≡ NO_MEMORY)
        ⊎ (result ≡ MISUSE) ⊎ (result ≡ SHARED) }
    ensures misuse { (result ≡ MISUSE) ↔ ¬ HasMachine machine.old.value }
    ensures shared { (result ≡ SHARED) ↔ IsShared machine.old.value }
    ensures done { result ≡ DONE → OnMachine machine.old.value (λ was.
        OnMachine machine.new.value (λ now. IsCompact was now)) }
    ensures unchanged { 0 < result → machine.new.value ≡ machine.old.value }
{
    let Some(mut kept) = take_back(alloc, machine) else {
        return MISUSE;
    };
    let status = match &mut *kept {
        Kept::Machine(session) => session.compact(alloc),
        Kept::Shared(_) => SHARED,
        Kept::Prepared(_) | Kept::Calls(_) | Kept::Lent | Kept::Worker(_) => MISUSE,
    };
    put_back(machine, kept);
    status
}
