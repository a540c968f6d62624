//! Messages about the store, a log's length, and a transaction's sets and counts.

use crate::sets::{first_fall, in_order, keys_of, put_set_help};
use crate::shown::{put_name, put_number, put_text};
use bohm_log::{Doc, Keys, TxnView};
use bohm_txn::{are_rising, shows};
use bohm_types::{Key, MOST_KEYS, MOST_SHOWS, MOST_STMTS, MOST_TXNS, NoMemory};
use std::alloc::Global;

/// The message about keys out of order in the store, the reads or the writes.
fn put_order(out: &mut Vec<u8>, set: &str, before: Key, key: Key) -> Result<(), NoMemory> {
    put_name(out, key)?;
    if key == before {
        put_text(out, " is listed twice in ")?;
        put_text(out, set)?;
        return put_text(out, "\n");
    }
    put_text(out, " comes after ")?;
    put_name(out, before)?;
    put_text(out, "; the keys of ")?;
    put_text(out, set)?;
    put_text(out, " must be in rising order\n")
}

/// The message about the store's first key out of order, which is on this line.
pub fn put_store_order(out: &mut Vec<u8>, doc: &Doc, line: u64) -> Result<(), NoMemory> {
    let Some(index) = line.checked_sub(2) else {
        return Ok(());
    };
    let store = doc.store();
    let place = index as usize;
    match (store.get(place.saturating_sub(1)), store.get(place)) {
        (Some(before), Some(entry)) => put_order(out, "the store", before.0, entry.0),
        _ => Ok(()),
    }
}

/// A limited count: the words of its message, and its limit.
#[derive(Clone, Copy)]
struct Count {
    rule: &'static str,
    verb: &'static str,
    things: &'static str,
    most: usize,
}

fn put_limit(out: &mut Vec<u8>, count: Count, found: usize) -> Result<(), NoMemory> {
    put_text(out, count.rule)?;
    put_text(out, count.verb)?;
    put_text(out, " at most ")?;
    put_number(out, count.most as u64)?;
    put_text(out, count.things)?;
    put_text(out, ", and this one ")?;
    put_text(out, count.verb)?;
    put_text(out, " ")?;
    put_number(out, found as u64)?;
    put_text(out, "\n")
}

const TRANSACTIONS: Count = Count {
    rule: "a log ",
    verb: "has",
    things: " transactions",
    most: MOST_TXNS,
};

const STATEMENTS: Count = Count {
    rule: "a transaction ",
    verb: "has",
    things: " statements",
    most: MOST_STMTS,
};

const READS: Count = Count {
    rule: "a transaction ",
    verb: "reads",
    things: " keys",
    most: MOST_KEYS,
};

const WRITES: Count = Count {
    verb: "writes",
    ..READS
};

const SHOWS: Count = Count {
    rule: "a transaction ",
    verb: "shows",
    things: " values",
    most: MOST_SHOWS,
};

/// The message about a log that is too long.
pub fn put_length(out: &mut Vec<u8>, doc: &Doc) -> Result<(), NoMemory> {
    put_limit(out, TRANSACTIONS, doc.log().len())
}

/// A set of a transaction: the word that begins its line, its name in a sentence, and its keys.
#[derive(Drop)]
struct Set<'a> {
    word: &'static str,
    called: &'static str,
    keys: Keys<'a>,
}

/// The message about a set whose keys aren't ascending, and the sorted set.
fn put_set_order(alloc: Global, out: &mut Vec<u8>, set: &Set<'_>) -> Result<(), NoMemory> {
    let keys = keys_of(alloc, &set.keys)?;
    if let Some((before, key)) = first_fall(keys.as_slice()) {
        put_order(out, set.called, before, key)?;
    }
    let sorted = in_order(alloc, keys)?;
    put_set_help(out, None, set.word, sorted.as_slice())
}

/// The message about a transaction's first set whose keys aren't ascending.
pub fn put_sets_order(alloc: Global, out: &mut Vec<u8>, txn: &TxnView<'_>) -> Result<(), NoMemory> {
    if !are_rising(&txn.reads()) {
        let set = Set {
            word: "reads",
            called: "`reads`",
            keys: txn.reads(),
        };
        put_set_order(alloc, out, &set)
    } else {
        let set = Set {
            word: "writes",
            called: "`writes`",
            keys: txn.writes(),
        };
        put_set_order(alloc, out, &set)
    }
}

/// The message about the first count of a transaction that is too large.
pub fn put_counts(out: &mut Vec<u8>, txn: &TxnView<'_>) -> Result<(), NoMemory> {
    let (stmts, reads, writes) = (txn.body_len(), txn.reads().len(), txn.writes().len());
    if stmts > MOST_STMTS {
        put_limit(out, STATEMENTS, stmts)
    } else if reads > MOST_KEYS {
        put_limit(out, READS, reads)
    } else if writes > MOST_KEYS {
        put_limit(out, WRITES, writes)
    } else {
        put_limit(out, SHOWS, shows(txn))
    }
}
