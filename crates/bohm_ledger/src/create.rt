//! Making a ledger in a store that has none.

ghost use Rattle.std.specs.Prelude.{◌≡◌, ◌⊎◌, ◌≤◌, [], OnOk};
ghost use Rattle.sqlite_trees.specs.Tree.{Trees};
ghost use Rattle.sqlite_trees.specs.View.{View, doubt, IsClean, IsQuiet, KeepsCommitted, KeepsSchema};
ghost use Rattle.bohm_ledger.specs.Ledgers.{IsBlank, IsReady};
ghost use Rattle.bohm_ledger.specs.Steps.{IsFounded, IsSteady, IsStored};

use crate::balance::put_head;
use crate::error::Fault;
use crate::load::begin;
use crate::machine::Machine;
use crate::tables::HEAD;
use bohm_types::Edition;
use sqlite_trees::error::StoreError;
use sqlite_trees::store::Store;
use sqlite_value::row::Row;

/// Writes the first row of `ledger`.
fn put_first<S: Store>(store: &mut S, row: &mut Row, edition: Edition) -> Result<(), StoreError>
    requires steady { IsClean (S.view store.old) → IsSteady (S.view store.old) }
    ensures ok { OnOk result (IsClean (S.view store.new)
        → IsFounded (S.view store.old).trees edition (S.view store.new).trees) }
    ensures kept { IsClean (S.view store.new) → KeepsCommitted (S.view store.old) (S.view store.new) }
    ensures schema { KeepsSchema (S.view store.old) (S.view store.new) }
    ensures quiet { IsQuiet S.view S.faults S.recovers S.is_shielded store.old store.new }
{
    put_head(store, row, edition, 0)
}

/// Writes the row of `ledger`, and commits.
fn found<S: Store>(store: &mut S, row: &mut Row, edition: Edition) -> Result<(), StoreError>
    requires steady { IsClean (S.view store.old) → IsSteady (S.view store.old) }
    ensures ok { OnOk result (IsClean (S.view store.new)
        → IsFounded (S.view store.old).trees edition (S.view store.new).trees) }
    ensures stored { OnOk result (IsClean (S.view store.new)
        → IsStored (S.view store.old) (S.view store.new)) }
    ensures steady { IsClean (S.view store.new) → IsSteady (S.view store.new) }
    ensures clean { doubt (S.view store.old).is_clean ≤ doubt (S.view store.new).is_clean }
    ensures crash { IsClean (S.view store.new) → (db : Trees) → S.recovers store.new db
        → IsFounded (S.view store.old).trees edition db ⊎ S.recovers store.old db }
{
    if let Err(failure) = put_first(store, row, edition) {
        store.rollback();
        return Err(failure);
    }
    store.commit()
}

/// Makes a ledger of this edition, with no batch.
pub(crate) fn create<S: Store, M: Machine>(
    store: &mut S,
    machine: &mut M,
    row: &mut Row,
    edition: Edition,
) -> Result<(), Fault>
    ensures ready { OnOk result (IsClean (S.view store.new) → IsBlank (S.view store.old).committed
        → IsReady M.rules edition [] (S.view store.new) 1 0 (M.state machine.new) (M.saved machine.new)) }
    ensures steady { OnOk result (IsClean (S.view store.new) → IsSteady (S.view store.new)) }
    ensures clean { doubt (S.view store.old).is_clean ≤ doubt (S.view store.new).is_clean }
    ensures crash { IsClean (S.view store.new) → (db : Trees) → S.recovers store.new db
        → IsFounded (S.view store.old).committed edition db ⊎ S.recovers store.old db }
{
    begin(store)?;
    if store.get(HEAD, 1, row)? {
        return Err(Fault::NotEmpty);
    }
    machine.start(edition, &[], 0)?;
    found(store, row, edition)?;
    Ok(())
}
