//! A checkpoint: the keys that changed since the last one.

ghost use Rattle.std.specs.Prelude.{◌≡◌, ◌⊎◌, ◌<◌, ◌^◌, ◌≤◌, OnOk, OnErr, IsTrue, true};
ghost use Rattle.sqlite_trees.specs.Tree.{Trees, put_row};
ghost use Rattle.sqlite_trees.specs.View.{View, doubt, IsClean, KeepsSchema, KeepsCommitted, IsQuiet, SetsTree};
ghost use Rattle.bohm_ledger.specs.Rows.{head_tree, balance_tree, head_row};
ghost use Rattle.bohm_ledger.specs.Rules.{Look};
ghost use Rattle.bohm_ledger.specs.Ledgers.{IsBalance};
ghost use Rattle.bohm_ledger.specs.Steps.{IsSteady, IsUndone, IsStored, Sets, Rebalances, HasCheckpoint, with_cell, with_key, without_cell};

use crate::machine::Machine;
use crate::tables::{BALANCE, HEAD, write_balance, write_head};
use bohm_types::{Cell, Edition, Key};
use sqlite_trees::error::StoreError;
use sqlite_trees::store::Store;
use sqlite_value::row::Row;

/// Takes the row of a key that has this cell away.
fn remove_cell<S: Store>(
    store: &mut S,
    row: &mut Row,
    key: &Key,
    cell: Cell,
) -> Result<(), StoreError>
    requires steady { IsClean (S.view store.old) → IsSteady (S.view store.old) }
    ensures ok { OnOk result (IsClean (S.view store.new)
        → Sets (S.view store.old) (S.view store.new) balance_tree
        (without_cell key.now cell ((S.view store.old).trees balance_tree))) }
    ensures kept { IsClean (S.view store.new) → KeepsCommitted (S.view store.old) (S.view store.new) }
    ensures schema { KeepsSchema (S.view store.old) (S.view store.new) }
    ensures quiet { IsQuiet S.view S.faults S.recovers S.is_shielded store.old store.new }
{
    match cell {
        Cell::Absent => Ok(()),
        Cell::Present(value) => {
            write_balance(row, key, value)?;
            store.remove(BALANCE, row)
        }
    }
}

/// Adds the row of a key that has this cell.
fn insert_cell<S: Store>(
    store: &mut S,
    row: &mut Row,
    key: &Key,
    cell: Cell,
) -> Result<(), StoreError>
    requires steady { IsClean (S.view store.old) → IsSteady (S.view store.old) }
    ensures ok { OnOk result (IsClean (S.view store.new)
        → Sets (S.view store.old) (S.view store.new) balance_tree
        (with_cell key.now cell ((S.view store.old).trees balance_tree))) }
    ensures kept { IsClean (S.view store.new) → KeepsCommitted (S.view store.old) (S.view store.new) }
    ensures schema { KeepsSchema (S.view store.old) (S.view store.new) }
    ensures quiet { IsQuiet S.view S.faults S.recovers S.is_shielded store.old store.new }
{
    match cell {
        Cell::Absent => Ok(()),
        Cell::Present(value) => {
            write_balance(row, key, value)?;
            store.insert(BALANCE, row)
        }
    }
}

/// Puts what a key holds in place of what it held.
fn put_key<S: Store>(
    store: &mut S,
    row: &mut Row,
    key: &Key,
    was: Cell,
    is: Cell,
) -> Result<(), StoreError>
    requires steady { IsClean (S.view store.old) → IsSteady (S.view store.old) }
    ensures ok { OnOk result (IsClean (S.view store.new)
        → Sets (S.view store.old) (S.view store.new) balance_tree
        (with_cell key.now is (without_cell key.now was ((S.view store.old).trees balance_tree)))) }
    ensures kept { IsClean (S.view store.new) → KeepsCommitted (S.view store.old) (S.view store.new) }
    ensures schema { KeepsSchema (S.view store.old) (S.view store.new) }
    ensures quiet { IsQuiet S.view S.faults S.recovers S.is_shielded store.old store.new }
{
    remove_cell(store, row, key, was)?;
    insert_cell(store, row, key, is)
}

fn are_same(one: &Cell, other: &Cell) -> bool
    ensures { result ≡ true → one.now ≡ other.now }
{
    match one {
        Cell::Absent => matches!(other, Cell::Absent),
        Cell::Present(one) => match other {
            Cell::Absent => false,
            Cell::Present(other) => one.get() == other.get(),
        },
    }
}

/// Puts what a key holds in place of what it held at the last checkpoint.
fn put_changed_key<S: Store, M: Machine>(
    store: &mut S,
    machine: &M,
    row: &mut Row,
    key: &Key,
) -> Result<(), StoreError>
    requires steady { IsClean (S.view store.old) → IsSteady (S.view store.old) }
    ensures ok { OnOk result (IsClean (S.view store.new) → (look : Look)
        → IsBalance look ((S.view store.old).trees balance_tree)
        → (look key.now ≡ M.saved machine.now key.now) ⊎ (look key.now ≡ (M.state machine.now).look key.now)
        → Rebalances (S.view store.old) (S.view store.new) (with_key (M.state machine.now).look key.now look)) }
    ensures kept { IsClean (S.view store.new) → KeepsCommitted (S.view store.old) (S.view store.new) }
    ensures schema { KeepsSchema (S.view store.old) (S.view store.new) }
    ensures quiet { IsQuiet S.view S.faults S.recovers S.is_shielded store.old store.new }
{
    let was = machine.saved_value(key);
    let is = machine.value(key);
    if are_same(&was, &is) {
        return Ok(());
    }
    put_key(store, row, key, was, is)
}

/// Puts what each changed key holds in place of what it held at the last checkpoint.
fn put_changed<S: Store, M: Machine>(
    store: &mut S,
    machine: &M,
    row: &mut Row,
) -> Result<(), StoreError>
    requires steady { IsClean (S.view store.old) → IsSteady (S.view store.old) }
    ensures ok { OnOk result (IsClean (S.view store.new)
        → IsBalance (M.saved machine.now) ((S.view store.old).trees balance_tree)
        → Rebalances (S.view store.old) (S.view store.new) (M.state machine.now).look) }
    ensures kept { IsClean (S.view store.new) → KeepsCommitted (S.view store.old) (S.view store.new) }
    ensures schema { KeepsSchema (S.view store.old) (S.view store.new) }
    ensures quiet { IsQuiet S.view S.faults S.recovers S.is_shielded store.old store.new }
{
    for key in machine.changed() {
        put_changed_key(store, machine, row, key)?;
    }
    Ok(())
}

/// Writes the number of the last transaction that `balance` has.
pub(crate) fn put_head<S: Store>(
    store: &mut S,
    row: &mut Row,
    edition: Edition,
    top: u64,
) -> Result<(), StoreError>
    requires fits { top < 2 ^ 63 }
    requires steady { IsClean (S.view store.old) → IsSteady (S.view store.old) }
    ensures ok { OnOk result (IsClean (S.view store.new)
        → SetsTree (S.view store.old) (S.view store.new) head_tree (put_row (head_row edition top))) }
    ensures kept { IsClean (S.view store.new) → KeepsCommitted (S.view store.old) (S.view store.new) }
    ensures schema { KeepsSchema (S.view store.old) (S.view store.new) }
    ensures quiet { IsQuiet S.view S.faults S.recovers S.is_shielded store.old store.new }
{
    write_head(row, edition, top)?;
    store.put(HEAD, row)
}

/// Writes a checkpoint over the last one.
fn write<S: Store, M: Machine>(
    store: &mut S,
    machine: &M,
    row: &mut Row,
    edition: Edition,
    top: u64,
) -> Result<(), StoreError>
    requires fits { top < 2 ^ 63 }
    requires steady { IsClean (S.view store.old) → IsSteady (S.view store.old) }
    ensures ok { OnOk result (IsClean (S.view store.new)
        → IsBalance (M.saved machine.now) ((S.view store.old).trees balance_tree)
        → HasCheckpoint (S.view store.old).trees edition top (M.state machine.now).look (S.view store.new).trees) }
    ensures kept { IsClean (S.view store.new) → KeepsCommitted (S.view store.old) (S.view store.new) }
    ensures schema { KeepsSchema (S.view store.old) (S.view store.new) }
    ensures quiet { IsQuiet S.view S.faults S.recovers S.is_shielded store.old store.new }
{
    put_changed(store, machine, row)?;
    put_head(store, row, edition, top)
}

/// Puts a checkpoint in place of the last one, and commits. After an `Err` nothing is there that
/// wasn't there before, unless the store is shut.
pub(crate) fn replace<S: Store, M: Machine>(
    store: &mut S,
    machine: &M,
    row: &mut Row,
    edition: Edition,
    top: u64,
) -> Result<(), StoreError>
    requires fits { top < 2 ^ 63 }
    requires steady { IsClean (S.view store.old) → IsSteady (S.view store.old) }
    ensures ok { OnOk result (IsClean (S.view store.new)
        → IsBalance (M.saved machine.now) ((S.view store.old).trees balance_tree)
        → HasCheckpoint (S.view store.old).trees edition top (M.state machine.now).look (S.view store.new).trees) }
    ensures stored { OnOk result (IsClean (S.view store.new)
        → IsStored (S.view store.old) (S.view store.new)) }
    ensures err { OnErr result (IsClean (S.view store.new) → IsTrue (S.view store.new).is_open
        → IsUndone (S.view store.old) (S.view store.new)) }
    ensures steady { IsClean (S.view store.new) → IsSteady (S.view store.new) }
    ensures clean { doubt (S.view store.old).is_clean ≤ doubt (S.view store.new).is_clean }
    ensures crash { IsClean (S.view store.new)
        → IsBalance (M.saved machine.now) ((S.view store.old).trees balance_tree)
        → (db : Trees) → S.recovers store.new db
        → HasCheckpoint (S.view store.old).trees edition top (M.state machine.now).look db ⊎ S.recovers store.old db }
{
    if let Err(failure) = write(store, machine, row, edition, top) {
        store.rollback();
        return Err(failure);
    }
    store.commit()
}
