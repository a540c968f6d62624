//! The tables of a ledger, and their rows.

ghost use Rattle.std.specs.Prelude.{◌≡◌, ◌<◌, ◌^◌, ◌↔◌, ℕ, ℤ, pos, List, MatchOption, IfSome, OnOk, IsTrue};
ghost use Rattle.sqlite_trees.specs.declared.store.Shape.{Shape as TheShape};
ghost use Rattle.sqlite_value.specs.Keys.{plain};
ghost use Rattle.sqlite_value.specs.Order.{column};
ghost use Rattle.sqlite_value.specs.declared.value.Value.TheVariants.{Int, Text};
ghost use Rattle.bohm_types.specs.declared.cell.Cell.TheVariants.{Present};
ghost use Rattle.bohm_ledger.specs.Rows.{head_row, batch_row, balance_row, request_row, edition_number};
ghost use Rattle.bohm_ledger.specs.Ledgers.{HasTables};

use crate::machine::Answer;
use bohm_types::{Edition, Key, Value};
use sqlite_trees::store::{Shape, Store};
use sqlite_value::keys::Order;
use sqlite_value::row::Row;
use sqlite_value::value::ValueRef;
use std::alloc::AllocError;

/// The table `ledger`: the format, the edition, and the last transaction that `balance` has.
pub(crate) const HEAD: u32 = 0;

/// The table `batch`.
pub(crate) const BATCH: u32 = 1;

/// The table `balance`: what each key held at the checkpoint.
pub(crate) const BALANCE: u32 = 2;

/// The table `request`: the ids that entries carried, and the answers.
pub(crate) const REQUEST: u32 = 3;

/// The numbers of batches and transactions are below this.
pub(crate) const LIMIT: u64 = 1 << 63;

fn is_table<S: Store>(store: &S, tree: u32) -> bool
    ensures { IsTrue result ↔ ((S.view store.now).shape tree ≡ TheShape.Table) }
{
    matches!(store.shape(tree), Shape::Table)
}

/// Whether the tree is a table without rowids, in the plain order.
fn is_keyed<S: Store>(store: &S, tree: u32) -> bool
    ensures { IsTrue result ↔ ((S.view store.now).shape tree ≡ TheShape.Index plain) }
{
    match store.shape(tree) {
        Shape::Index(order) => order.digits == 0,
        _ => false,
    }
}

/// Whether the tables are there.
pub(crate) fn has_tables<S: Store>(store: &S) -> bool
    ensures has { IsTrue result → HasTables (S.view store.now) }
    ensures all { HasTables (S.view store.now) → IsTrue result }
{
    is_table(store, HEAD)
        && is_table(store, BATCH)
        && is_keyed(store, BALANCE)
        && is_keyed(store, REQUEST)
}

fn edition_number(edition: Edition) -> i64
    ensures { result ≡ Rattle.std.specs.Prelude.pos (edition_number edition) }
{
    match edition {
        Edition::One => 1,
        Edition::Two => 2,
    }
}

/// Writes the row of `ledger` over `row`.
pub(crate) fn write_head(row: &mut Row, edition: Edition, checkpoint: u64) -> Result<(), AllocError>
    requires { checkpoint < 2 ^ 63 }
    ensures { OnOk result (row.new ≡ head_row edition checkpoint) }
{
    row.clear();
    row.push(ValueRef::Int(1))?;
    row.push(ValueRef::Int(1))?;
    row.push(ValueRef::Int(edition_number(edition)))?;
    row.push(ValueRef::Int(checkpoint as i64))
}

/// Writes a row of `batch` over `row`.
pub(crate) fn write_batch(
    row: &mut Row,
    place: u64,
    first: u64,
    text: &[u8],
) -> Result<(), AllocError>
    requires { (place < 2 ^ 63) × (first < 2 ^ 63) }
    ensures { OnOk result (row.new ≡ batch_row place first text.now) }
{
    row.clear();
    row.push(ValueRef::Int(place as i64))?;
    row.push(ValueRef::Null)?;
    row.push(ValueRef::Int(first as i64))?;
    row.push(ValueRef::Text(text))
}

/// Writes a row of `balance` over `row`.
pub(crate) fn write_balance(row: &mut Row, key: &Key, value: Value) -> Result<(), AllocError>
    ensures { OnOk result (row.new ≡ balance_row (key.now, value)) }
{
    row.clear();
    row.push(ValueRef::Text(key.text().as_slice()))?;
    row.push(ValueRef::Int(value.get()))
}

/// Writes a row of `request` over `row`.
pub(crate) fn write_request(row: &mut Row, place: u64, answer: &Answer) -> Result<(), AllocError>
    requires { place < 2 ^ 63 }
    ensures { OnOk result (row.new ≡ request_row place answer.now) }
{
    row.clear();
    row.push(ValueRef::Text(answer.id()))?;
    row.push(ValueRef::Int(place as i64))?;
    row.push(ValueRef::Text(answer.text()))
}

/// The edition and the checkpoint that a row of `ledger` says, if it is one.
pub(crate) fn read_head(row: &Row) -> Option<(Edition, u64)>
    ensures { MatchOption result
        ((edition : _) (checkpoint : ℕ) → ¬ (row.now ≡ head_row edition checkpoint))
        (λ it. (row.now ≡ head_row it.0 it.1) × (it.1 < 2 ^ 63)) }
{
    if row.len() != 4 {
        return None;
    }
    match (row.get(0), row.get(1), row.get(2), row.get(3)) {
        (ValueRef::Int(1), ValueRef::Int(1), ValueRef::Int(1), ValueRef::Int(n)) if n >= 0 => {
            Some((Edition::One, n as u64))
        }
        (ValueRef::Int(1), ValueRef::Int(1), ValueRef::Int(2), ValueRef::Int(n)) if n >= 0 => {
            Some((Edition::Two, n as u64))
        }
        _ => None,
    }
}

/// The text and the number that a row has, if it has just these.
fn text_and_number(row: &Row) -> Option<(&[u8], i64)>
    ensures { MatchOption result
        ((e : List ℕ × ℤ) → ¬ (row.now ≡ balance_row e))
        (λ it. row.now ≡ balance_row (it.0.now, it.1)) }
{
    if row.len() != 2 {
        return None;
    }
    match (row.get(0), row.get(1)) {
        (ValueRef::Text(text), ValueRef::Int(number)) => Some((text, number)),
        _ => None,
    }
}

/// The key and the value that a row of `balance` says, if it is one.
pub(crate) fn read_balance(row: &Row) -> Option<(Key, Value)>
    ensures { IfSome result (λ it. row.now ≡ balance_row it) }
{
    let Some((name, value)) = text_and_number(row) else {
        return None;
    };
    let Some(key) = Key::new(name) else {
        return None;
    };
    Some((key, Value::from(value)))
}

/// The place, the number of the first transaction and the text that a row of `batch` says, if it
/// is one.
pub(crate) fn read_batch(row: &Row) -> Option<(u64, u64, &[u8])>
    ensures { MatchOption result
        ((place first : ℕ) (text : List ℕ) → ¬ (row.now ≡ batch_row place first text))
        (λ it. (row.now ≡ batch_row it.0 it.1 it.2.now) × (it.0 < 2 ^ 63) × (it.1 < 2 ^ 63)) }
{
    if row.len() != 4 {
        return None;
    }
    match (row.get(0), row.get(1), row.get(2), row.get(3)) {
        (ValueRef::Int(place), ValueRef::Null, ValueRef::Int(first), ValueRef::Text(text))
            if place >= 0 && first >= 0 => { Some((place as u64, first as u64, text)) }
        _ => None,
    }
}

/// The place of the batch and the answer that a row of `request` says, if it is one.
pub(crate) fn read_request(row: &Row) -> Option<(u64, &[u8])>
    ensures { MatchOption result
        ((place : ℕ) (e : List ℕ × List ℕ) → ¬ (row.now ≡ request_row place e))
        (λ it. (column row.now 1 ≡ Int (pos it.0)) × (column row.now 2 ≡ Text it.1.now)) }
{
    match (row.get(1), row.get(2)) {
        (ValueRef::Int(place), ValueRef::Text(answer)) if place >= 0 => {
            Some((place as u64, answer))
        }
        _ => None,
    }
}
