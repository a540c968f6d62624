//! The first fault of a document.

ghost use Rattle.std.specs.Prelude.{◌≡◌, ◌≤◌, length, map, All, not, nat_le};
ghost use Rattle.std.specs.Option.{option_map};
ghost use Rattle.bohm_types.specs.Keys.{rising, names_of};
ghost use Rattle.bohm_log.specs.Parts.{RowIn, stmt_of, txn_of};
ghost use Rattle.bohm_txn.specs.declared.fault.CheckKind.TheVariants.{Limit};
ghost use Rattle.bohm_txn.specs.Faulty.{sets_faulty, stmt_faulty};
ghost use Rattle.bohm_txn.specs.Declares.{shows_in};
ghost use Rattle.bohm_txn.specs.Rows.{AreNoted};
ghost use Rattle.bohm_txn.specs.FirstFault.{least, first_in_body, first_in_txn, first_in_log};
ghost use Rattle.bohm_txn.specs.FirstFault.{first_in_doc, fault_of};
ghost use Rattle.bohm_types.specs.Limits.{most_keys, most_shows, most_stmts, most_txns};

use crate::bound::Bound;
use crate::fault::{CheckFault, CheckKind};
use crate::plain_rows::is_plain;
use crate::rules::{is_long, is_misnamed, is_unread, is_unwritten, rebinds};
use crate::showing::shows;
use bohm_log::{Doc, IndexedTxn, Keys, LogPart, StmtRow, TxnView};
use bohm_types::{Key, MOST_KEYS, MOST_SHOWS, MOST_STMTS, MOST_TXNS, Value};

/// Whether each of a set's keys is below the next.
pub fn are_rising(keys: &Keys<'_>) -> bool
    ensures { result ≡ rising keys.now }
{
    for place in 1..keys.len() {
        if keys.key(place - 1) >= keys.key(place) {
            return false;
        }
    }
    true
}

/// Whether each key of a store is below the next.
pub fn is_store_rising(store: &[(Key, Value)]) -> bool
    ensures { result ≡ rising (names_of store.now) }
{
    store.is_sorted_by(|entry, next| entry.0 < next.0)
}

/// Whether the transaction shows too many values. In a body with few enough statements the shows
/// needn't be counted.
fn shows_many(txn: &TxnView<'_>) -> bool
    ensures { result ≡ not (nat_le (shows_in txn.now.body) most_shows) }
{
    txn.body_len() > MOST_SHOWS && shows(txn) > MOST_SHOWS
}

/// Whether the transaction has too many statements, keys or shown values.
pub fn is_large(txn: &TxnView<'_>) -> bool
    ensures { result ≡ sets_faulty txn.now Limit }
{
    txn.body_len() > MOST_STMTS
        || txn.reads().len() > MOST_KEYS
        || txn.writes().len() > MOST_KEYS
        || shows_many(txn)
}

/// The least kind of fault of a statement that follows the statements in `before`.
fn stmt_fault(
    txn: &IndexedTxn<'_>,
    before: &[StmtRow],
    noted: &Bound,
    row: &StmtRow,
) -> Option<CheckKind>
    requires reads { length txn.now.reads ≤ most_keys }
    requires writes { length txn.now.writes ≤ most_keys }
    requires before { All (RowIn txn.now) before.now }
    requires noted { AreNoted noted.now.noted before.now }
    requires row { RowIn txn.now row.now }
    ensures { (e : _)
        → result ≡ least
        (stmt_faulty (txn_of e txn.now) (map (stmt_of txn.now) before.now)
        (stmt_of txn.now row.now)) }
{
    if is_plain(txn, noted, row) && !rebinds(txn, before, noted, row) {
        None
    } else if is_unread(txn, row) {
        Some(CheckKind::Unread)
    } else if is_unwritten(txn, row) {
        Some(CheckKind::Unwritten)
    } else if is_misnamed(txn, before, noted, row) {
        Some(CheckKind::Local)
    } else if is_long(txn, row) {
        Some(CheckKind::Limit)
    } else {
        None
    }
}

/// The first faulty statement, counted from 1.
fn first_in_body(txn: &IndexedTxn<'_>) -> Option<(u32, CheckKind)>
    requires reads { length txn.now.reads ≤ most_keys }
    requires writes { length txn.now.writes ≤ most_keys }
    requires stmts { length txn.now.rows ≤ most_stmts }
    ensures { (e : _) → result ≡ first_in_body (txn_of e txn.now) }
{
    let rows = txn.rows();
    let mut bound = Bound::new();
    for (i, row) in rows.iter().enumerate() {
        if let Some(kind) = stmt_fault(txn, &rows[..i], &bound, row) {
            return Some((i as u32 + 1, kind));
        }
        bound.note(row);
    }
    None
}

/// The first fault of a transaction: its sets and counts are statement 0.
pub fn first_in_txn(txn: &TxnView<'_>) -> Option<(u32, CheckKind)>
    ensures { result ≡ first_in_txn txn.now }
{
    if !are_rising(&txn.reads()) || !are_rising(&txn.writes()) {
        Some((0, CheckKind::Order))
    } else if is_large(txn) {
        Some((0, CheckKind::Limit))
    } else {
        first_in_body(&txn.placed())
    }
}

/// The first fault of a log's transactions, counted from 1.
pub fn first_in_log(log: &LogPart<'_>) -> Option<CheckFault>
    requires { length log.now ≤ most_txns }
    ensures { result ≡ option_map fault_of (first_in_log log.now) }
{
    for i in 0..log.len() {
        if let Some((stmt, kind)) = first_in_txn(&log.txn(i)) {
            return Some(CheckFault {
                txn: i as u32 + 1,
                stmt,
                kind,
            });
        }
    }
    None
}

/// The first fault of a document: its store and the length of its log are transaction 0.
pub fn first_fault(doc: &Doc) -> Option<CheckFault>
    ensures { result ≡ option_map fault_of (first_in_doc doc.now) }
{
    let whole = |kind| {
        Some(CheckFault {
            txn: 0,
            stmt: 0,
            kind,
        })
    };
    let log = doc.log();
    if !is_store_rising(doc.store()) {
        whole(CheckKind::Order)
    } else if log.len() > MOST_TXNS {
        whole(CheckKind::Limit)
    } else {
        first_in_log(&log)
    }
}
