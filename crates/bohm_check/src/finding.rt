//! All faults of a document, up to 20, ordered by their places.

ghost use Rattle.std.specs.Prelude.{◌≡◌, ◌+◌, ◌<◌, ◌≤◌, ◌++◌, ℕ, length, take, All};
ghost use Rattle.std.specs.Prelude.{Contains, IfOk, OnOk, Some, [], slice_get};
ghost use Rattle.bohm_types.specs.Keys.{names_of};
ghost use Rattle.bohm_txn.specs.declared.fault.CheckKind.{CheckKind};
ghost use Rattle.bohm_txn.specs.Faulty.{Faulty, whole_faulty, sets_faulty, stmt_faulty};
ghost use Rattle.bohm_txn.specs.Faulty.{is_long};
ghost use Rattle.bohm_check.specs.Scopes.{IsScopeOf};
ghost use Rattle.bohm_check.specs.Lines.{opening_line, first_fall, unordered_line, large_line};
ghost use Rattle.bohm_check.specs.Lines.{sets_line, whole_line};
ghost use Rattle.bohm_check.specs.Faults.{IsTold, IsFirst, told_at};
ghost use Rattle.bohm_check.specs.All.{told_of, told_if, kinds_told, body_told, txn_told};
ghost use Rattle.bohm_check.specs.All.{log_told, doc_told, AreTold, stmt_at};

use crate::names::{is_misnamed, is_unread, is_unwritten};
use crate::scope::Scope;
use crate::told::{MOST_TOLD, Told};
use bohm_log::{Doc, LogPart, TxnView};
use bohm_txn::{
    CheckFault, CheckKind, are_rising, first_in_txn, is_large, is_long, is_store_rising,
};
use bohm_types::{Items, Key, MOST_KEYS, MOST_STMTS, MOST_TXNS, NoMemory, Value};
use std::alloc::Global;

/// A place of a document where faults can be, and its line.
#[derive(Clone, Copy)]
struct Spot {
    txn: u32,
    stmt: u32,
    line: u64,
}

/// The sum of two numbers. It overflows only for a document larger than memory.
fn further(number: u64, more: usize) -> Result<u64, NoMemory>
    ensures { IfOk result (λ n. n ≡ number + more) }
{
    number.checked_add(more as u64).ok_or(NoMemory)
}

/// The number, counted from 1, of the item at an index.
fn counted(index: usize) -> Result<u32, NoMemory>
    ensures { IfOk result (λ n. n ≡ index + 1) }
{
    match u32::try_from(index) {
        Ok(index) => index.checked_add(1).ok_or(NoMemory),
        Err(_) => Err(NoMemory),
    }
}

/// Adds a fault if there is one.
fn tell(told: &mut Items<Told>, is_there: bool, spot: Spot, kind: CheckKind) -> Result<(), NoMemory>
    ensures { OnOk result
        (told.new ≡ told.old ++ told_if is_there (told_of spot.txn spot.stmt kind spot.line)) }
{
    if is_there {
        told.push(Told {
            fault: CheckFault {
                txn: spot.txn,
                stmt: spot.stmt,
                kind,
            },
            line: spot.line,
        })?;
    }
    Ok(())
}

/// Whether a statement, counted from 0, has too long a sum.
fn is_stmt_long(txn: &TxnView<'_>, index: usize) -> bool
    requires { index < length txn.now.body }
    ensures { stmt_at txn.now index (λ s. result ≡ is_long s) }
{
    let placed = txn.placed();
    is_long(&placed, &placed.rows()[index])
}

/// Adds the faults of a statement, counted from 0, over the names that it may use.
fn tell_stmt(
    told: &mut Items<Told>,
    txn: &TxnView<'_>,
    scope: &Scope,
    index: usize,
    spot: Spot,
) -> Result<(), NoMemory>
    requires inside { index < length txn.now.body }
    requires scope { IsScopeOf txn.now index scope.now }
    ensures { OnOk result (stmt_at txn.now index
        (λ s. told.new ≡ told.old ++ kinds_told spot.txn spot.stmt
        (stmt_faulty txn.now (take index txn.now.body) s) (λ kind. spot.line))) }
{
    let stmt = txn.stmt(index);
    tell(
        told,
        is_unread(&scope.reads, &stmt),
        spot,
        CheckKind::Unread,
    )?;
    tell(
        told,
        is_unwritten(&scope.writes, &stmt),
        spot,
        CheckKind::Unwritten,
    )?;
    tell(
        told,
        is_misnamed(&scope.bound, &stmt),
        spot,
        CheckKind::Local,
    )?;
    tell(told, is_stmt_long(txn, index), spot, CheckKind::Limit)
}

/// Adds the faults of a transaction's body until there are `MOST_TOLD`. `opening` is the line of
/// its `txn`. The time grows with the number n of declared keys, terms and statements as n log n.
fn tell_body(
    alloc: Global,
    told: &mut Items<Told>,
    txn: &TxnView<'_>,
    number: u32,
    opening: u64,
) -> Result<(), NoMemory>
    ensures { OnOk result
        (AreTold told.old (body_told txn.now number opening 0 txn.now.body) told.new) }
{
    let mut scope = Scope::of(alloc, txn)?;
    for index in 0..txn.body_len() {
        if told.as_slice().len() >= MOST_TOLD {
            return Ok(());
        }
        let spot = Spot {
            txn: number,
            stmt: counted(index)?,
            line: further(further(opening, 3)?, index)?,
        };
        tell_stmt(told, txn, &scope, index, spot)?;
        scope.pass(&txn.stmt(index))?;
    }
    Ok(())
}

/// The line of a transaction's first set whose keys aren't ascending. `opening` is the line of its
/// `txn`.
fn unordered_line(txn: &TxnView<'_>, opening: u64) -> Result<u64, NoMemory>
    ensures { IfOk result (λ n. n ≡ unordered_line txn.now opening) }
{
    if are_rising(&txn.reads()) {
        further(opening, 2)
    } else {
        further(opening, 1)
    }
}

/// The line of a transaction's first count that is too large. `opening` is the line of its `txn`.
fn large_line(txn: &TxnView<'_>, opening: u64) -> Result<u64, NoMemory>
    ensures { IfOk result (λ n. n ≡ large_line txn.now opening) }
{
    if txn.body_len() > MOST_STMTS {
        Ok(opening)
    } else if txn.reads().len() > MOST_KEYS {
        further(opening, 1)
    } else if txn.writes().len() > MOST_KEYS {
        further(opening, 2)
    } else {
        Ok(opening)
    }
}

/// Adds the faults of a transaction's sets and counts. `opening` is the line of its `txn`.
fn tell_sets(
    told: &mut Items<Told>,
    txn: &TxnView<'_>,
    number: u32,
    opening: u64,
) -> Result<(), NoMemory>
    ensures { OnOk result
        (told.new ≡ told.old ++ kinds_told number 0 (sets_faulty txn.now) (sets_line txn.now opening)) }
{
    let unordered = Spot {
        txn: number,
        stmt: 0,
        line: unordered_line(txn, opening)?,
    };
    let is_unordered = !are_rising(&txn.reads()) || !are_rising(&txn.writes());
    tell(told, is_unordered, unordered, CheckKind::Order)?;
    let large = Spot {
        txn: number,
        stmt: 0,
        line: large_line(txn, opening)?,
    };
    tell(told, is_large(txn), large, CheckKind::Limit)
}

/// Adds the faults of a transaction, counted from 0, until there are `MOST_TOLD`. `opening` is the
/// line of its `txn`.
fn tell_txn(
    alloc: Global,
    told: &mut Items<Told>,
    txn: &TxnView<'_>,
    index: usize,
    opening: u64,
) -> Result<(), NoMemory>
    ensures { OnOk result (AreTold told.old (txn_told (index + 1) opening txn.now) told.new) }
{
    if first_in_txn(txn).is_none() {
        return Ok(());
    }
    let number = counted(index)?;
    tell_sets(told, txn, number, opening)?;
    tell_body(alloc, told, txn, number, opening)
}

/// The line after a transaction whose `txn` has the line `opening`.
fn behind_txn(txn: &TxnView<'_>, opening: u64) -> Result<u64, NoMemory>
    ensures { IfOk result (λ n. n ≡ opening + length txn.now.body + 4) }
{
    further(further(opening, txn.body_len())?, 4)
}

/// The line of the `txn` of the transaction at this index, or the line after the log.
fn opening_line(doc: &Doc, index: usize) -> Result<u64, NoMemory>
    requires { index ≤ length doc.now.log }
    ensures { IfOk result (λ n. n ≡ opening_line doc.now index) }
{
    let log = doc.log();
    let mut line = further(2, doc.store().len())?;
    for i in 0..index {
        line = behind_txn(&log.txn(i), line)?;
    }
    Ok(line)
}

/// Adds the faults of a document's transactions until there are `MOST_TOLD`.
fn tell_log(alloc: Global, told: &mut Items<Told>, doc: &Doc) -> Result<(), NoMemory>
    ensures { OnOk result (AreTold told.old (log_told doc.now 0 doc.now.log) told.new) }
{
    let log = doc.log();
    let mut line = further(2, doc.store().len())?;
    for index in 0..log.len() {
        if told.as_slice().len() >= MOST_TOLD {
            return Ok(());
        }
        let txn = log.txn(index);
        tell_txn(alloc, told, &txn, index, line)?;
        line = behind_txn(&txn, line)?;
    }
    Ok(())
}

/// The key of an entry.
#[tactic(auto, using(crate::proofs::Rows::mapped))]
fn key_at(store: &[(Key, Value)], index: usize) -> &Key
    requires { index < length store.now }
    ensures { slice_get (names_of store.now) index ≡ Some result.now }
{
    &store[index].0
}

/// The index of the first entry whose key isn't above the one before it, or the number of entries.
fn first_fall(store: &[(Key, Value)]) -> usize
    ensures { result ≡ first_fall (names_of store.now) }
{
    for index in 1..store.len() {
        if key_at(store, index - 1) >= key_at(store, index) {
            return index;
        }
    }
    store.len()
}

/// The line of the first transaction above a log's limit.
fn excess_line(doc: &Doc) -> Result<u64, NoMemory>
    ensures { IfOk result
        (λ n. MOST_TXNS < length doc.now.log → n ≡ opening_line doc.now MOST_TXNS) }
{
    if doc.log().len() > MOST_TXNS {
        opening_line(doc, MOST_TXNS)
    } else {
        Ok(0)
    }
}

/// Adds the faults of a document as a whole.
fn tell_whole(told: &mut Items<Told>, doc: &Doc) -> Result<(), NoMemory>
    ensures { OnOk result
        (told.new ≡ told.old ++ kinds_told 0 0 (whole_faulty doc.now) (whole_line doc.now)) }
{
    let store = doc.store();
    let unordered = Spot {
        txn: 0,
        stmt: 0,
        line: further(2, first_fall(store))?,
    };
    tell(told, !is_store_rising(store), unordered, CheckKind::Order)?;
    let long = Spot {
        txn: 0,
        stmt: 0,
        line: excess_line(doc)?,
    };
    tell(told, doc.log().len() > MOST_TXNS, long, CheckKind::Limit)
}

/// The faults of a document, until there are `MOST_TOLD`.
#[tactic(auto, using(crate::proofs::Adding::two_told))]
fn collected(alloc: Global, doc: &Doc) -> Result<Items<Told>, NoMemory>
    ensures { IfOk result (AreTold [] (doc_told doc.now)) }
{
    let mut told = Items::new(alloc);
    tell_whole(&mut told, doc)?;
    tell_log(alloc, &mut told, doc)?;
    Ok(told)
}

/// The first 20 faults of a document.
fn first_faults(alloc: Global, doc: &Doc) -> Result<Vec<Told>, NoMemory>
    ensures { IfOk result (λ told. told.items ≡ take MOST_TOLD (doc_told doc.now)) }
{
    let mut told = collected(alloc, doc)?.into_vec();
    told.truncate(MOST_TOLD);
    Ok(told)
}

/// The first 20 faults of a document, ordered by their places, each with its line in the document's
/// text. Faults at one place are ordered by kind.
///
/// Its time grows with the number of the document's store entries, keys, terms and statements, and
/// in a transaction with faults with the number n of these as n log n.
pub fn faults(alloc: Global, doc: &Doc) -> Result<Vec<Told>, NoMemory>
    ensures in_order { IfOk result
        (λ told. told.items ≡ take MOST_TOLD (doc_told doc.now)) }
    ensures told { IfOk result (λ told. All (IsTold doc.now) told.items) }
    ensures few { IfOk result (λ told. length told.items ≤ MOST_TOLD) }
    ensures all { IfOk result (λ told. length told.items < MOST_TOLD
        → (t s : ℕ) (kind : CheckKind) → Faulty doc.now t s kind
        → Contains told.items (told_at doc.now t s kind)) }
    ensures first { IfOk result (λ told. IsFirst doc.now told.items) }
{
    first_faults(alloc, doc)
}
