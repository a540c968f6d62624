//! Taking batches behind the checkpoint out of the store.

ghost use Rattle.std.specs.Prelude.{◌≡◌, ◌⊎◌, ◌<◌, ◌^◌, ◌≤◌, true, Err, OnOk, OnErr, IfOk, IfSome, IsTrue, MatchOption};
ghost use Rattle.sqlite_trees.specs.Tree.{Trees};
ghost use Rattle.sqlite_trees.specs.View.{View, doubt, IsClean, KeepsSchema, KeepsCommitted, IsQuiet};
ghost use Rattle.bohm_ledger.specs.Rows.{Has, batch_tree};
ghost use Rattle.bohm_ledger.specs.Steps.{AreLess, AreNone, AreYoung, AreYoungBefore, Forgets, IsBatchTree, IsFirstFrom, IsSteady, IsStored, IsUndone, OnlyReads};

use crate::error::Fault;
use crate::machine::Machine;
use crate::tables::{BATCH, LIMIT, read_batch};
use sqlite_trees::error::StoreError;
use sqlite_trees::store::{Direction, Store};
use sqlite_value::row::Row;
use sqlite_value::value::ValueRef;

/// Writes the row of the first batch from a place on over `row`, or answers false.
fn next_batch<S: Store>(store: &mut S, row: &mut Row, place: u64) -> Result<bool, StoreError>
    requires fits { place < 2 ^ 63 }
    requires steady { IsClean (S.view store.old) → IsSteady (S.view store.old) }
    ensures first { IfOk result (λ found. IsClean (S.view store.new) → IsFirstFrom place row.new found ((S.view store.old).trees batch_tree)) }
    ensures there { IfOk result (λ found. IsClean (S.view store.new) → found ≡ true → Has row.new ((S.view store.old).trees batch_tree)) }
    ensures same { OnOk result (IsClean (S.view store.new) → OnlyReads (S.view store.old) (S.view store.new)) }
    ensures kept { IsClean (S.view store.new) → KeepsCommitted (S.view store.old) (S.view store.new) }
    ensures schema { KeepsSchema (S.view store.old) (S.view store.new) }
    ensures quiet { IsQuiet S.view S.faults S.recovers S.is_shielded store.old store.new }
{
    row.clear();
    row.push(ValueRef::Int(place as i64))?;
    store.seek(0, BATCH, row, Direction::Forward)?;
    store.next(0, row)
}

/// Deletes the first batch from a place on, if it has no definition. Returns the place to go on
/// from, or `None` where the next batch is the last one or has a transaction above the bound.
fn forget_one<S: Store, M: Machine>(
    store: &mut S,
    machine: &M,
    row: &mut Row,
    place: u64,
    bound: u64,
    next: u64,
) -> Result<Option<u64>, Fault>
    requires fits { (place < 2 ^ 63) × (bound < 2 ^ 63) × (next < 2 ^ 63) }
    requires steady { IsClean (S.view store.old) → IsSteady (S.view store.old) }
    ensures ok { OnOk result (IsClean (S.view store.new) → Forgets M.rules bound next (S.view store.old) (S.view store.new)) }
    ensures young { IfOk result (λ it. IsClean (S.view store.new) → IsBatchTree M.rules bound next ((S.view store.old).trees batch_tree)
        → AreYoungBefore M.rules bound next place ((S.view store.old).trees batch_tree)
        → MatchOption it (AreYoung M.rules bound next ((S.view store.new).trees batch_tree))
        (λ further. AreYoungBefore M.rules bound next further ((S.view store.new).trees batch_tree))) }
    ensures place { IfOk result (λ it. IfSome it (λ place. place < 2 ^ 63)) }
    ensures no_ledger { result ≡ Err Fault.NoLedger → IsClean (S.view store.new) → AreNone M.rules bound next ((S.view store.old).trees batch_tree) }
    ensures kept { IsClean (S.view store.new) → KeepsCommitted (S.view store.old) (S.view store.new) }
    ensures schema { KeepsSchema (S.view store.old) (S.view store.new) }
    ensures quiet { IsQuiet S.view S.faults S.recovers S.is_shielded store.old store.new }
{
    if !next_batch(store, row, place)? {
        return Ok(None);
    }
    let Some((at, first, text)) = read_batch(row) else {
        return Err(Fault::NoLedger);
    };
    let size = machine.size(text) as u64;
    if at + 1 >= next || size > bound || first > bound + 1 - size {
        return Ok(None);
    }
    if !machine.is_plain(text) {
        return Ok(Some(at + 1));
    }
    store.delete(BATCH, at as i64)?;
    Ok(Some(at + 1))
}

/// Deletes the batches with no definition whose transactions are all at or below the bound, but
/// not the last one.
fn forget_all<S: Store, M: Machine>(
    store: &mut S,
    machine: &M,
    row: &mut Row,
    bound: u64,
    next: u64,
) -> Result<(), Fault>
    requires fits { (bound < 2 ^ 63) × (next < 2 ^ 63) }
    requires steady { IsClean (S.view store.old) → IsSteady (S.view store.old) }
    ensures ok { OnOk result (IsClean (S.view store.new) → Forgets M.rules bound next (S.view store.old) (S.view store.new)) }
    ensures young { OnOk result (IsClean (S.view store.new) → IsBatchTree M.rules bound next ((S.view store.old).trees batch_tree)
        → AreYoung M.rules bound next ((S.view store.new).trees batch_tree)) }
    ensures no_ledger { result ≡ Err Fault.NoLedger → IsClean (S.view store.new) → AreNone M.rules bound next ((S.view store.old).trees batch_tree) }
    ensures kept { IsClean (S.view store.new) → KeepsCommitted (S.view store.old) (S.view store.new) }
    ensures schema { KeepsSchema (S.view store.old) (S.view store.new) }
    ensures quiet { IsQuiet S.view S.faults S.recovers S.is_shielded store.old store.new }
{
    let mut place = 0;
    'batches: for _ in 0..LIMIT {
        match forget_one(store, machine, row, place, bound, next)? {
            Some(further) => place = further,
            None => return Ok(()),
        }
    }
    Err(Fault::Full)
}

/// Deletes the batches with no definition whose transactions are all at or below the bound, but
/// not the last one, and commits. After an `Err` nothing is gone, unless the store is shut.
pub(crate) fn forget<S: Store, M: Machine>(
    store: &mut S,
    machine: &M,
    row: &mut Row,
    bound: u64,
    next: u64,
) -> Result<(), Fault>
    requires fits { (bound < 2 ^ 63) × (next < 2 ^ 63) }
    requires steady { IsClean (S.view store.old) → IsSteady (S.view store.old) }
    ensures ok { OnOk result (IsClean (S.view store.new) → AreLess M.rules bound next (S.view store.old).trees (S.view store.new).trees) }
    ensures young { OnOk result (IsClean (S.view store.new) → IsBatchTree M.rules bound next ((S.view store.old).trees batch_tree)
        → AreYoung M.rules bound next ((S.view store.new).trees batch_tree)) }
    ensures stored { OnOk result (IsClean (S.view store.new) → IsStored (S.view store.old) (S.view store.new)) }
    ensures err { OnErr result (IsClean (S.view store.new) → IsTrue (S.view store.new).is_open
        → IsUndone (S.view store.old) (S.view store.new)) }
    ensures no_ledger { result ≡ Err Fault.NoLedger → IsClean (S.view store.new) → AreNone M.rules bound next ((S.view store.old).trees batch_tree) }
    ensures steady { IsClean (S.view store.new) → IsSteady (S.view store.new) }
    ensures clean { doubt (S.view store.old).is_clean ≤ doubt (S.view store.new).is_clean }
    ensures crash { IsClean (S.view store.new) → (db : Trees) → S.recovers store.new db
        → AreLess M.rules bound next (S.view store.old).trees db ⊎ S.recovers store.old db }
{
    if let Err(failure) = forget_all(store, machine, row, bound, next) {
        store.rollback();
        return Err(failure);
    }
    Ok(store.commit()?)
}
