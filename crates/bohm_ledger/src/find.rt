//! Looking an id up.

ghost use Rattle.std.specs.Prelude.{◌≡◌, true, IfOk, OnOk};
ghost use Rattle.sqlite_value.specs.declared.value.Value.TheVariants.{Text};
ghost use Rattle.sqlite_value.specs.Order.{column};
ghost use Rattle.sqlite_trees.specs.View.{IsClean, IsQuiet, KeepsSchema};
ghost use Rattle.bohm_ledger.specs.Rows.{request_tree, AreRequests};
ghost use Rattle.bohm_ledger.specs.Steps.{Finds, IsSteady, OnlyReads};

use crate::tables::REQUEST;
use sqlite_trees::error::StoreError;
use sqlite_trees::store::{Direction, Store};
use sqlite_value::row::Row;
use sqlite_value::value::ValueRef;

fn begins_with(row: &Row, text: &[u8]) -> bool
    ensures yes { result ≡ true → column row.now 0 ≡ Text text.now }
    ensures no { column row.now 0 ≡ Text text.now → result ≡ true }
{
    match row.get(0) {
        ValueRef::Text(first) => first == text,
        _ => false,
    }
}

/// Writes the row of `request` that has the id over `row`, or answers false. The time is that of
/// one search.
pub(crate) fn find<S: Store>(store: &mut S, row: &mut Row, id: &[u8]) -> Result<bool, StoreError>
    requires steady { IsClean (S.view store.old) → IsSteady (S.view store.old) }
    ensures ok { IfOk result (λ found. IsClean (S.view store.new) → AreRequests ((S.view store.old).trees request_tree)
        → Finds id.now row.new found ((S.view store.old).trees request_tree)) }
    ensures same { OnOk result (IsClean (S.view store.new) → OnlyReads (S.view store.old) (S.view store.new)) }
    ensures schema { KeepsSchema (S.view store.old) (S.view store.new) }
    ensures quiet { IsQuiet S.view S.faults S.recovers S.is_shielded store.old store.new }
{
    row.clear();
    row.push(ValueRef::Text(id))?;
    store.seek(0, REQUEST, row, Direction::Forward)?;
    if !store.next(0, row)? {
        return Ok(false);
    }
    Ok(begins_with(row, id))
}
