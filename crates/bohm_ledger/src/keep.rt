//! Storing a batch with its requests, in one commit.

ghost use Rattle.std.specs.Prelude.{◌≡◌, ◌⊎◌, ◌<◌, ◌^◌, ◌≤◌, false, OnOk, OnErr, IsTrue};
ghost use Rattle.sqlite_value.specs.Keys.{plain};
ghost use Rattle.sqlite_trees.specs.Tree.{Trees, put_row, insert_entry};
ghost use Rattle.sqlite_trees.specs.View.{View, doubt, IsClean, KeepsSchema, KeepsCommitted, IsQuiet, SetsTree};
ghost use Rattle.bohm_ledger.specs.Rows.{batch_tree, request_tree, batch_row, request_row};
ghost use Rattle.bohm_ledger.specs.Steps.{IsSteady, IsUndone, IsStored, Sets, HasBatch, with_requests};

use crate::machine::Answer;
use crate::tables::{BATCH, REQUEST, write_batch, write_request};
use sqlite_trees::error::StoreError;
use sqlite_trees::store::Store;
use sqlite_value::row::Row;

/// Puts a batch's row into the store.
fn put_batch<S: Store>(
    store: &mut S,
    row: &mut Row,
    place: u64,
    first: u64,
    text: &[u8],
) -> Result<(), StoreError>
    requires fits { (place < 2 ^ 63) × (first < 2 ^ 63) }
    requires steady { IsClean (S.view store.old) → IsSteady (S.view store.old) }
    ensures ok { OnOk result (IsClean (S.view store.new)
        → SetsTree (S.view store.old) (S.view store.new) batch_tree (put_row (batch_row place first text.now))) }
    ensures kept { IsClean (S.view store.new) → KeepsCommitted (S.view store.old) (S.view store.new) }
    ensures schema { KeepsSchema (S.view store.old) (S.view store.new) }
    ensures quiet { IsQuiet S.view S.faults S.recovers S.is_shielded store.old store.new }
{
    write_batch(row, place, first, text)?;
    store.put(BATCH, row)
}

/// Puts the row of one request into the store.
fn put_request<S: Store>(
    store: &mut S,
    row: &mut Row,
    place: u64,
    answer: &Answer,
) -> Result<(), StoreError>
    requires fits { place < 2 ^ 63 }
    requires steady { IsClean (S.view store.old) → IsSteady (S.view store.old) }
    ensures ok { OnOk result (IsClean (S.view store.new)
        → SetsTree (S.view store.old) (S.view store.new) request_tree (insert_entry plain (request_row place answer.now))) }
    ensures kept { IsClean (S.view store.new) → KeepsCommitted (S.view store.old) (S.view store.new) }
    ensures schema { KeepsSchema (S.view store.old) (S.view store.new) }
    ensures quiet { IsQuiet S.view S.faults S.recovers S.is_shielded store.old store.new }
{
    write_request(row, place, answer)?;
    store.insert(REQUEST, row)
}

/// Puts the rows of a batch's requests into the store.
fn put_requests<S: Store>(
    store: &mut S,
    row: &mut Row,
    place: u64,
    answers: &[Answer],
) -> Result<(), StoreError>
    requires fits { place < 2 ^ 63 }
    requires steady { IsClean (S.view store.old) → IsSteady (S.view store.old) }
    ensures ok { OnOk result (IsClean (S.view store.new)
        → Sets (S.view store.old) (S.view store.new) request_tree
        (with_requests place answers.now ((S.view store.old).trees request_tree))) }
    ensures kept { IsClean (S.view store.new) → KeepsCommitted (S.view store.old) (S.view store.new) }
    ensures schema { KeepsSchema (S.view store.old) (S.view store.new) }
    ensures quiet { IsQuiet S.view S.faults S.recovers S.is_shielded store.old store.new }
{
    for answer in answers {
        put_request(store, row, place, answer)?;
    }
    Ok(())
}

/// Puts a batch and its requests into the store.
fn write<S: Store>(
    store: &mut S,
    row: &mut Row,
    place: u64,
    first: u64,
    text: &[u8],
    answers: &[Answer],
) -> Result<(), StoreError>
    requires fits { (place < 2 ^ 63) × (first < 2 ^ 63) }
    requires steady { IsClean (S.view store.old) → IsSteady (S.view store.old) }
    ensures ok { OnOk result (IsClean (S.view store.new)
        → HasBatch (S.view store.old).trees place first text.now answers.now (S.view store.new).trees) }
    ensures kept { IsClean (S.view store.new) → KeepsCommitted (S.view store.old) (S.view store.new) }
    ensures schema { KeepsSchema (S.view store.old) (S.view store.new) }
    ensures quiet { IsQuiet S.view S.faults S.recovers S.is_shielded store.old store.new }
{
    put_batch(store, row, place, first, text)?;
    put_requests(store, row, place, answers)
}

/// Puts a batch and its requests into the store, and commits. After an `Err` nothing is in it that
/// wasn't there before, unless it is shut.
pub(crate) fn keep<S: Store>(
    store: &mut S,
    row: &mut Row,
    place: u64,
    first: u64,
    text: &[u8],
    answers: &[Answer],
) -> Result<(), StoreError>
    requires fits { (place < 2 ^ 63) × (first < 2 ^ 63) }
    requires steady { IsClean (S.view store.old) → IsSteady (S.view store.old) }
    ensures ok { OnOk result (IsClean (S.view store.new)
        → HasBatch (S.view store.old).trees place first text.now answers.now (S.view store.new).trees) }
    ensures stored { OnOk result (IsClean (S.view store.new)
        → IsStored (S.view store.old) (S.view store.new)) }
    ensures err { OnErr result (IsClean (S.view store.new) → IsTrue (S.view store.new).is_open
        → IsUndone (S.view store.old) (S.view store.new)) }
    ensures steady { IsClean (S.view store.new) → IsSteady (S.view store.new) }
    ensures clean { doubt (S.view store.old).is_clean ≤ doubt (S.view store.new).is_clean }
    ensures crash { IsClean (S.view store.new) → (db : Trees) → S.recovers store.new db
        → HasBatch (S.view store.old).trees place first text.now answers.now db ⊎ S.recovers store.old db }
{
    if let Err(failure) = write(store, row, place, first, text, answers) {
        store.rollback();
        return Err(failure);
    }
    store.commit()
}
